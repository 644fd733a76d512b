//! Runs a script over two images that are kept alike: a disk is opened on each, the two are compared, and their mirror is
//! mounted and answers the commands as one disk; then each disk goes back with its own marks. Each step hands both disks
//! on, so that each is handed back once, whatever comes.

ghost use Rattle.std.specs.Prelude.{◌≡◌, ◌≢◌, ◌<◌, Bool, true, false, IsTrue, [], vec_len, vec_capacity, Result, Err, IfOk, IfErr};
ghost use Rattle.disk_contract.specs.declared.bay.BayFault.{BayFault as Failure};
ghost use Rattle.disk_contract.specs.Bay.{Closes};
ghost use Rattle.disk_contract.specs.Disk.{State};
ghost use Rattle.disk_mirror.specs.MirrorOf.{state_of};
ghost use Rattle.cmd_image.specs.Lent.{disk_of};
ghost use Rattle.cmd_image.specs.Mounted.{IsFresh};
ghost use Rattle.cmd_image.specs.declared.ending.RunRefusal.TheVariants.{Fault, NoMemory as OutOfMemory};
ghost use Rattle.cmd_mirror.specs.Comparing.{AreAlike};
ghost use Rattle.cmd_mirror.specs.declared.refusal.MirroredRefusal.TheVariants.{Run};
ghost use Rattle.cmd_mirror.specs.Mirrored.{ClosesBoth, ComesOfBoth, CountsMirrored, GoesBackInTwo, HasMirroredCause, HasMirroredReason, RunsOverTwo};
ghost use Rattle.cmd_mirror.specs.Mirrored.{marked_answer_of, mirrored_answer_of, mirrored_opens_nothing, of_run};
ghost use Rattle.cmd_mirror.specs.Steps.{BeginsAsFirst, ComparesToNone, HasRoom, of_mirror};

use crate::comparing::compare;
use crate::refusal::MirroredRefusal;
use crate::side_laws::a_disk_of_a_mirror_goes_back;
use base_io::{Sink, Source};
use cmd_image::{
    Ending, Left, LentDisk, RunRefusal, close_lent, open_lent, room_for_a_mark, run_disk,
};
use disk_contract::{Bay, BayFault, Disk, Mark};
use disk_mirror::{Mirror, MirrorRefusal};
use std::alloc::Global;

/// For how many writes a mirror has room.
const MOST_WRITES: u32 = 524_288;

/// The mirror of two disks that a bay handed out.
type LentMirror<B> = Mirror<LentDisk<B>, LentDisk<B>>;

/// Runs the commands of the input over the two images under the names, which must differ, and keeps them alike: a disk is
/// opened on each, the one under `name` first, and the two are compared, block by block. Where they are alike their
/// mirror is mounted, and each command is answered by its file system in turn, with one line of the output for each
/// reply. A fault of one disk is seen in no reply while the other one is left. Then each disk goes back to the bay, the
/// first one first, with marks of its own: that of the mount's end, and one for each reply. They go back where a step
/// fails too, without a mark where no file system was opened or no memory was found for the marks.
///
/// How the reading of the input ended is the answer. Behind the end of the input want of memory for the marks is
/// answered, and then a fault of the first disk's return, and then one of the second's.
///
/// # Errors
/// `Unlike` comes exactly where both disks were opened and no read of the comparison failed, and the two differ in the
/// number of their blocks or in a block; where they differ in the number no block is read. Else the errors are those of
/// `run_script`: `Fault` comes of a call of the bay that failed, that nothing is under a name among them, of a read of the
/// comparison, or of a call of the mirror in the mount or the opening of the file system, which failed on both disks or
/// found no room for another write. With `Unlike`, `Damaged` and `Spent` nothing is read or written.
pub fn run_mirrored<B: Bay, S: Source, K: Sink>(
    alloc: Global,
    bay: &mut B,
    name: &str,
    other: &str,
    input: &mut S,
    out: &mut K,
) -> Result<Ending, MirroredRefusal>
    requires { name.now ≢ other.now }
    ensures comes { ComesOfBoth B.tells name.now other.now result (B.state bay.old) (B.state bay.new)
        (record { left = S.remaining input.old; source_faults = S.faults input.old; taken = K.taken out.old; sink_faults = K.faults out.old })
        (record { left = S.remaining input.new; source_faults = S.faults input.new; taken = K.taken out.new; sink_faults = K.faults out.new }) }
    ensures cause { HasMirroredCause B.tells name.now other.now result (B.state bay.old) (B.state bay.new)
        (record { left = S.remaining input.old; source_faults = S.faults input.old; taken = K.taken out.old; sink_faults = K.faults out.old })
        (record { left = S.remaining input.new; source_faults = S.faults input.new; taken = K.taken out.new; sink_faults = K.faults out.new }) }
    ensures reason { IsTrue B.tells → result ≡ Err (Run Fault)
        → HasMirroredReason B.tells name.now other.now result (B.state bay.old) (B.state bay.new)
        (record { left = S.remaining input.old; source_faults = S.faults input.old; taken = K.taken out.old; sink_faults = K.faults out.old })
        (record { left = S.remaining input.new; source_faults = S.faults input.new; taken = K.taken out.new; sink_faults = K.faults out.new }) }
    ensures counts { CountsMirrored result
        (record { left = S.remaining input.old; source_faults = S.faults input.old; taken = K.taken out.old; sink_faults = K.faults out.old })
        (record { left = S.remaining input.new; source_faults = S.faults input.new; taken = K.taken out.new; sink_faults = K.faults out.new }) }
    ensures unread { mirrored_opens_nothing result ≡ true → input.new ≡ input.old }
    ensures silent { mirrored_opens_nothing result ≡ true → out.new ≡ out.old }
{
    let marks = room_for_a_mark(alloc)?;
    let first = open_lent(bay, name)?;
    let second = match open_lent(bay, other) {
        Ok(second) => second,
        Err(fault) => {
            close_unused(alloc, bay, name, first);
            return Err(fault.into());
        }
    };
    match mirror_of(alloc, first, second) {
        Ok(mirror) => {
            let both = run_over(alloc, mirror, marks, input, out);
            close_both(bay, name, other, both)
        }
        Err(both) => {
            // calls for their clauses alone: that the disks' manners let their reads fail
            both.first.lawful();
            both.second.lawful();
            close_both(bay, name, other, both)
        }
    }
}

/// Two disks that a bay handed out, on their way back.
#[derive(Drop)]
struct Both<B: Bay> {
    first: LentDisk<B>,
    second: LentDisk<B>,
    first_marks: Vec<Mark>,
    second_marks: Vec<Mark>,
    answer: Result<Ending, MirroredRefusal>,
}

/// The mirror of two disks that were just opened, where these are alike and there is memory for its room; else the two come
/// back, with no mark and with why.
fn mirror_of<B: Bay>(
    alloc: Global,
    first: LentDisk<B>,
    second: LentDisk<B>,
) -> Result<LentMirror<B>, Both<B>>
    requires first { IsFresh B.tells (B.D.state (disk_of first)) }
    requires second { IsFresh B.tells (B.D.state (disk_of second)) }
    ensures made { IfOk result (λ m. BeginsAsFirst B.tells (B.D.state (disk_of first)) (B.D.state (disk_of second))
        (state_of (λ lent. B.D.state (disk_of lent)) (λ lent. B.D.state (disk_of lent)) m)) }
    ensures none { IfErr result (λ both. ComparesToNone B.tells (B.D.state (disk_of first)) (B.D.state (disk_of both.first))
        (B.D.state (disk_of second)) (B.D.state (disk_of both.second)) both.answer) }
    ensures empty { IfErr result (λ both. (both.first_marks.items ≡ []) × (both.second_marks.items ≡ [])) }
{
    let mut first = first;
    let mut second = second;
    match compare(&mut first, &mut second) {
        Err(_) => {
            let why = MirroredRefusal::Run {
                why: RunRefusal::Fault,
            };
            Err(unmarked(alloc, first, second, why))
        }
        Ok(false) => Err(unmarked(alloc, first, second, MirroredRefusal::Unlike)),
        Ok(true) => mirror_alike(alloc, first, second),
    }
}

/// The mirror of two disks that are alike, where there is memory for its room; else the two come back, with no mark.
fn mirror_alike<B: Bay>(
    alloc: Global,
    first: LentDisk<B>,
    second: LentDisk<B>,
) -> Result<LentMirror<B>, Both<B>>
    requires first { IsFresh B.tells (B.D.state (disk_of first)) }
    requires second { IsFresh B.tells (B.D.state (disk_of second)) }
    requires alike { AreAlike B.tells (B.D.state (disk_of first)) (B.D.state (disk_of second)) }
    ensures made { IfOk result (λ m. BeginsAsFirst B.tells (B.D.state (disk_of first)) (B.D.state (disk_of second))
        (state_of (λ lent. B.D.state (disk_of lent)) (λ lent. B.D.state (disk_of lent)) m)) }
    ensures none { IfErr result (λ both. (both.first ≡ first) × (both.second ≡ second) × (both.answer ≡ Err (Run OutOfMemory))) }
    ensures empty { IfErr result (λ both. (both.first_marks.items ≡ []) × (both.second_marks.items ≡ [])) }
{
    match Mirror::new(alloc, first, second, MOST_WRITES) {
        Ok(mirror) => Ok(mirror),
        Err((first, second, why)) => Err(unmarked(alloc, first, second, of_mirror(why))),
    }
}

/// The refusal where two disks make no mirror.
fn of_mirror(why: MirrorRefusal) -> MirroredRefusal
    ensures { result ≡ of_mirror why }
{
    match why {
        MirrorRefusal::Unlike => MirroredRefusal::Unlike,
        MirrorRefusal::NoMemory => MirroredRefusal::Run {
            why: RunRefusal::NoMemory,
        },
    }
}

/// Two disks that go back without a mark, for this reason.
fn unmarked<B: Bay>(
    alloc: Global,
    first: LentDisk<B>,
    second: LentDisk<B>,
    why: MirroredRefusal,
) -> Both<B>
    ensures disks { (result.first ≡ first) × (result.second ≡ second) }
    ensures marks { (result.first_marks.items ≡ []) × (result.second_marks.items ≡ []) }
    ensures answer { result.answer ≡ Err why }
{
    Both {
        first,
        second,
        first_marks: Vec::new(alloc),
        second_marks: Vec::new(alloc),
        answer: Err(why),
    }
}

/// Runs the commands of the input over a mirror on which nothing has happened yet, and takes it apart.
fn run_over<B: Bay, S: Source, K: Sink>(
    alloc: Global,
    mirror: LentMirror<B>,
    marks: Vec<Mark>,
    input: &mut S,
    out: &mut K,
) -> Both<B>
    requires fresh { IsFresh B.tells (state_of (λ lent. B.D.state (disk_of lent)) (λ lent. B.D.state (disk_of lent)) mirror) }
    requires empty { marks.items ≡ [] }
    requires room { vec_len marks < vec_capacity marks }
    ensures runs { (first second : State)
        → BeginsAsFirst B.tells first second (state_of (λ lent. B.D.state (disk_of lent)) (λ lent. B.D.state (disk_of lent)) mirror)
        → RunsOverTwo B.tells first (B.D.state (disk_of result.first)) (B.D.state (disk_of result.second))
        result.first_marks.items result.second_marks.items result.answer
        (record { left = S.remaining input.old; source_faults = S.faults input.old; taken = K.taken out.old; sink_faults = K.faults out.old })
        (record { left = S.remaining input.new; source_faults = S.faults input.new; taken = K.taken out.new; sink_faults = K.faults out.new }) }
    ensures counts { CountsMirrored result.answer
        (record { left = S.remaining input.old; source_faults = S.faults input.old; taken = K.taken out.old; sink_faults = K.faults out.old })
        (record { left = S.remaining input.new; source_faults = S.faults input.new; taken = K.taken out.new; sink_faults = K.faults out.new }) }
    ensures unread { mirrored_opens_nothing result.answer ≡ true → input.new ≡ input.old }
    ensures silent { mirrored_opens_nothing result.answer ≡ true → out.new ≡ out.old }
{
    let left = run_disk(alloc, mirror, marks, input, out);
    part(alloc, left)
}

/// Takes a mirror apart over which a run was made: its two disks, each with its own marks.
fn part<B: Bay>(alloc: Global, left: Left<LentMirror<B>>) -> Both<B>
    ensures goes { (IsTrue B.tells → HasRoom (state_of (λ lent. B.D.state (disk_of lent)) (λ lent. B.D.state (disk_of lent)) left.disk))
        → GoesBackInTwo B.tells (state_of (λ lent. B.D.state (disk_of lent)) (λ lent. B.D.state (disk_of lent)) left.disk)
        (B.D.state (disk_of result.first)) (B.D.state (disk_of result.second))
        left.marks.items result.first_marks.items result.second_marks.items left.answer result.answer }
    ensures answered { (known : Bool) × (result.answer ≡ marked_answer_of known left.answer) }
{
    a_disk_of_a_mirror_goes_back();
    let Left {
        disk: mirror,
        marks,
        answer,
    } = left;
    // calls for their clauses alone: how the two disks went along with the mirror, and why its calls have failed
    mirror.alike();
    mirror.moments();
    mirror.causes();
    let kept = mirror.marks(alloc, marks.as_slice());
    let (first, second) = mirror.into_disks();
    match kept {
        Ok((first_marks, second_marks)) => Both {
            first,
            second,
            first_marks,
            second_marks,
            answer: of_run(answer),
        },
        Err(_) => Both {
            first,
            second,
            first_marks: Vec::new(alloc),
            second_marks: Vec::new(alloc),
            answer: of_run(without_marks(answer)),
        },
    }
}

/// The answer of a run over a mirror.
fn of_run(answer: Result<Ending, RunRefusal>) -> Result<Ending, MirroredRefusal>
    ensures { result ≡ of_run answer }
{
    match answer {
        Ok(ending) => Ok(ending),
        Err(why) => Err(MirroredRefusal::Run { why }),
    }
}

/// The answer of a run for whose marks there was no memory.
fn without_marks(answer: Result<Ending, RunRefusal>) -> Result<Ending, RunRefusal>
    ensures { of_run result ≡ marked_answer_of false answer }
{
    match answer {
        Ok(Ending::End) => Err(RunRefusal::NoMemory),
        Ok(ending) => Ok(ending),
        Err(why) => Err(why),
    }
}

/// Hands a disk back under the name that wasn't used, without a mark.
fn close_unused<B: Bay>(alloc: Global, bay: &mut B, name: &str, disk: LentDisk<B>)
    ensures { (back : Result (Unit {0}) Failure) × Closes B.tells name.now (B.D.state (disk_of disk)) [] back (B.state bay.old) (B.state bay.new) }
{
    let _back = close_lent(bay, name, disk, Vec::new(alloc));
}

/// Hands two disks back, each under its name and with its own marks.
///
/// # Errors
/// The answer of the run, where it is a refusal; behind the end of the input the fault of the first disk's return, or else
/// that of the second's.
fn close_both<B: Bay>(
    bay: &mut B,
    name: &str,
    other: &str,
    both: Both<B>,
) -> Result<Ending, MirroredRefusal>
    ensures { (closes : ClosesBoth B.tells name.now other.now (B.D.state (disk_of both.first)) (B.D.state (disk_of both.second))
        both.first_marks.items both.second_marks.items (B.state bay.old) (B.state bay.new))
        × (result ≡ mirrored_answer_of both.answer closes.back closes.other_back) }
{
    let Both {
        first,
        second,
        first_marks,
        second_marks,
        answer,
    } = both;
    let back = close_lent(bay, name, first, first_marks);
    let other_back = close_lent(bay, other, second, second_marks);
    answer_behind(answer, back, other_back)
}

/// The answer of a run where the bay answered so to the return of the two disks.
fn answer_behind(
    answer: Result<Ending, MirroredRefusal>,
    back: Result<(), BayFault>,
    other_back: Result<(), BayFault>,
) -> Result<Ending, MirroredRefusal>
    ensures { result ≡ mirrored_answer_of answer back other_back }
{
    let ending = answer?;
    if ending != Ending::End {
        return Ok(ending);
    }
    if let Err(fault) = back {
        return Err(fault.into());
    }
    if let Err(fault) = other_back {
        return Err(fault.into());
    }
    Ok(Ending::End)
}
