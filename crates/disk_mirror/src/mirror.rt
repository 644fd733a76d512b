//! The mirror: a disk over two, which has tickets of its own.

ghost use Rattle.std.specs.Prelude.{◌≡◌, List, ◌⊎◌, ◌<◌, ◌≤◌, ◌+◌, ◌&&◌, ◌||◌, ℕ, Bool, true, false, not, [], length, map, take, nat_eq, IsTrue};
ghost use Rattle.std.specs.Prelude.{OnOk, OnErr, IfOk, IfErr, IfSome, Some, None, Ok, is_err};
ghost use Rattle.base_types.specs.Counts.{next_count, after_call};
ghost use Rattle.base_types.specs.Seal.{Blocks};
ghost use Rattle.disk_contract.specs.Cell.{IsAccepted, IsNoticed};
ghost use Rattle.disk_contract.specs.Crash.{IsHonest};
ghost use Rattle.disk_contract.specs.Disk.{HasFailed, writes_in, Reads, AddsWrite, AddsPoll, AddsNotices, HearsAlone, OnlyReads, OnlyWrites};
ghost use Rattle.disk_contract.specs.Disk.{OnlyPolls, OnlyWaits, SameDisk};
ghost use Rattle.disk_contract.specs.Manner.{AnswersBy};
ghost use Rattle.disk_mirror.specs.declared.entry.Side.TheVariants.{First, Second};
ghost use Rattle.disk_mirror.specs.declared.mirror.MirrorRefusal.TheVariants.{Unlike, NoMemory as OutOfMemory};
ghost use Rattle.disk_mirror.specs.Mirror.{counts_of, IsMirror, AreCaused, AreGiven, HasCauses, KeepsRoom, NoneLive, mirror_manner};
ghost use Rattle.disk_mirror.specs.Half.{HasFailedOnce};
ghost use Rattle.disk_mirror.specs.Order.{has_failed};
ghost use Rattle.disk_mirror.specs.Twin.{heard_of, heard_on};
ghost use Rattle.disk_mirror.specs.Rows.{after_report, first_ready, HearsPoll, HearsBoth};
ghost use Rattle.disk_mirror.specs.declared.entry.Heard.{Heard};
ghost use Rattle.disk_mirror.specs.Times.{times_on, life_of, mark_on, LeavesAtMoments};
ghost use Rattle.disk_mirror.specs.Turns.{after_none};

use crate::entry::{Came, Side, Written};
use crate::half::Half;
use crate::order::Order;
use base_types::{Block, NoMemory};
use disk_contract::{Disk, DiskFault, Mark, a_block_has_its_bytes};
use std::alloc::Global;
use std::fmt;

/// Why two disks don't make a mirror.
#[derive(Clone, Copy, Debug, PartialEq, Eq)]
pub enum MirrorRefusal {
    /// They have different numbers of blocks.
    Unlike,
    /// Out of memory for all of the room.
    NoMemory,
}

impl fmt::Display for MirrorRefusal {
    fn fmt<W: fmt::Write>(&self, f: &mut fmt::Formatter<W>) -> fmt::Result {
        match self {
            MirrorRefusal::Unlike => write!(f, "the disks have different numbers of blocks"),
            MirrorRefusal::NoMemory => write!(f, "out of memory"),
        }
    }
}

/// A disk over two disks. Each of them is live until a call on it fails, and isn't used again then.
#[derive(Drop)]
pub struct Mirror<A: Disk, B: Disk> {
    a: Half<A>,
    b: Half<B>,
    order: Order,
    faults: u64,
    read_faults: u64,
    waits: u64,
    polls: u64,
    /// How many writes there is room for in all.
    most: u32,
    ghost size: { (A.state a.disk).blocks ≡ (B.state b.disk).blocks },
    ghost counted: { faults ≡ 0 → has_failed order.events ≡ false },
    ghost causes: { AreCaused faults read_faults a.live b.live order.room (length order.pairs) },
    ghost roomed: { KeepsRoom most order },
    ghost given: { AreGiven order.pairs a.live b.live },
    ghost told: { IsTrue (A.tells && B.tells) → ∥ IsMirror (A.state a.disk) (B.state b.disk) a.live b.live a.end b.end order ∥₁ },
}

impl<A: Disk, B: Disk> Mirror<A, B> {
    ghost use Rattle.disk_mirror.specs.MirrorOf.{IsNew, counts_in, first_end, first_in, first_is_live, order_in, room_in, second_end, second_in};
    ghost use Rattle.disk_mirror.specs.MirrorOf.{second_is_live, state_of};

    /// A mirror of two disks on which nothing happened yet, and which began with the same blocks where they have as many.
    /// It has room for so many writes.
    ///
    /// # Errors
    /// `Unlike` exactly where the numbers of blocks differ. Out of memory. The disks are given back.
    pub fn new(alloc: Global, a: A, b: B, room: u32) -> Result<Mirror<A, B>, (A, B, MirrorRefusal)>
        requires alike { IsTrue (A.tells && B.tells) → (A.state a).blocks ≡ (B.state b).blocks → (n : ℕ) → n < (A.state a).blocks
            → (B.state b).base n ≡ (A.state a).base n }
        requires first { IsTrue (A.tells && B.tells) → (A.state a).log ≡ [] }
        requires second { IsTrue (A.tells && B.tells) → (B.state b).log ≡ [] }
        ensures disks { IfOk result (λ m. (first_in m ≡ a) × (second_in m ≡ b)) }
        ensures empty { IfOk result (λ m. order_in m ≡ record { events = []; times = []; pairs = []; heard = []; room = room }) }
        ensures live { IfOk result (λ m. (first_is_live m ≡ true) × (second_is_live m ≡ true)) }
        ensures ends { IfOk result (λ m. (first_end m ≡ 0) × (second_end m ≡ 0)) }
        ensures counts { IfOk result (λ m. IsNew (state_of A.state B.state m)) }
        ensures manner { IfOk result (λ m. (state_of A.state B.state m).manner ≡ mirror_manner room) }
        ensures back { IfErr result (λ e. (e.0 ≡ a) × (e.1 ≡ b)) }
        ensures unlike { IfErr result (λ e. e.2 ≡ Unlike → (A.state a).blocks ≡ (B.state b).blocks → ⊥) }
        ensures memory { IfErr result (λ e. e.2 ≡ OutOfMemory → (A.state a).blocks ≡ (B.state b).blocks) }
        ensures alike { IfOk result (λ m. (A.state a).blocks ≡ (B.state b).blocks) }
    {
        if a.blocks() != b.blocks() {
            return Err((a, b, MirrorRefusal::Unlike));
        }
        let order = match Order::new(alloc, room) {
            Err(_) => return Err((a, b, MirrorRefusal::NoMemory)),
            Ok(order) => order,
        };
        Ok(Mirror {
            a: Half::new(a),
            b: Half::new(b),
            order,
            faults: 0,
            read_faults: 0,
            waits: 0,
            polls: 0,
            most: room,
        })
    }

    /// Does nothing. A proof learns from the call what a crash may leave of the two disks: of a live one nothing
    /// that it may not leave of the mirror now; of one that is down nothing that it might not have left of the
    /// mirror at the moment when it went down.
    pub fn leaves(&self)
        ensures first { IsTrue (A.tells && B.tells) → first_is_live self.now ≡ true → (img : Blocks)
            → IsHonest (A.state (first_in self.now)).blocks (A.state (first_in self.now)).base (A.state (first_in self.now)).log img
            → ∥ IsHonest (A.state (first_in self.now)).blocks (A.state (first_in self.now)).base (state_of A.state B.state self.now).log img ∥₁ }
        ensures second { IsTrue (A.tells && B.tells) → second_is_live self.now ≡ true → (img : Blocks)
            → IsHonest (A.state (first_in self.now)).blocks (B.state (second_in self.now)).base (B.state (second_in self.now)).log img
            → ∥ IsHonest (A.state (first_in self.now)).blocks (A.state (first_in self.now)).base (state_of A.state B.state self.now).log img ∥₁ }
        ensures first_down { IsTrue (A.tells && B.tells) → first_is_live self.now ≡ false → (img : Blocks)
            → IsHonest (A.state (first_in self.now)).blocks (A.state (first_in self.now)).base (A.state (first_in self.now)).log img
            → ∥ IsHonest (A.state (first_in self.now)).blocks (A.state (first_in self.now)).base
            (take (first_end self.now) (state_of A.state B.state self.now).log) img ∥₁ }
        ensures second_down { IsTrue (A.tells && B.tells) → second_is_live self.now ≡ false → (img : Blocks)
            → IsHonest (A.state (first_in self.now)).blocks (B.state (second_in self.now)).base (B.state (second_in self.now)).log img
            → ∥ IsHonest (A.state (first_in self.now)).blocks (A.state (first_in self.now)).base
            (take (second_end self.now) (state_of A.state B.state self.now).log) img ∥₁ }
    {
        // calls for their clauses alone: that the disks' logs are lawful
        self.a.lawful();
        self.b.lawful();
    }

    /// Does nothing. A proof learns from the call what a crash may leave of the two disks at each of their moments, those
    /// inside calls among them: nothing that it may not leave of the mirror at the moment that stands for it. And the
    /// events that each disk had when the events of the mirror had come, one number for each, ascend to those of now.
    pub fn moments(&self)
        ensures first { IsTrue (A.tells && B.tells) → LeavesAtMoments (A.state (first_in self.now)).blocks (A.state (first_in self.now)).base
            (state_of A.state B.state self.now).log (times_on First (order_in self.now).times) (first_is_live self.now) (first_end self.now)
            (A.state (first_in self.now)).base (A.state (first_in self.now)).log }
        ensures second { IsTrue (A.tells && B.tells) → LeavesAtMoments (A.state (first_in self.now)).blocks (A.state (first_in self.now)).base
            (state_of A.state B.state self.now).log (times_on Second (order_in self.now).times) (second_is_live self.now) (second_end self.now)
            (B.state (second_in self.now)).base (B.state (second_in self.now)).log }
    {
        let _ = &self.order;
    }

    /// Does nothing. A proof learns from the call why calls have failed: of the mirror's own counts, that a read failed only
    /// where no disk is live, and another call also where there is no room for another write; that the log tells how many
    /// writes were made of those that there is room for in all; and of a disk that is down, that it has counted a fault.
    pub fn causes(&self)
        ensures own { HasCauses (state_of A.state B.state self.now) (first_is_live self.now) (second_is_live self.now) }
        ensures count { writes_in (state_of A.state B.state self.now).log + (order_in self.now).room ≡ room_in self.now + length (order_in self.now).pairs }
        ensures manner { (state_of A.state B.state self.now).manner ≡ mirror_manner (room_in self.now) }
        ensures first { HasFailedOnce (first_is_live self.now) (A.state (first_in self.now)) }
        ensures second { HasFailedOnce (second_is_live self.now) (B.state (second_in self.now)) }
    {
        let _ = &self.order;
    }

    /// Does nothing. A proof learns from the call that the two disks are alike: they have as many blocks, which the
    /// mirror has too, and began with the same ones.
    pub fn alike(&self)
        ensures size { (B.state (second_in self.now)).blocks ≡ (A.state (first_in self.now)).blocks }
        ensures first { ((state_of A.state B.state self.now).blocks ≡ (A.state (first_in self.now)).blocks)
            × ((state_of A.state B.state self.now).base ≡ (A.state (first_in self.now)).base) }
        ensures second { IsTrue (A.tells && B.tells) → (n : ℕ) → n < (A.state (first_in self.now)).blocks
            → (B.state (second_in self.now)).base n ≡ (A.state (first_in self.now)).base n }
    {
        let _ = &self.order;
    }

    /// Of marks of the mirror those of each disk, which begin with its own moments at them. A disk counts no fault up
    /// to the moment of the mirror at which it went down, and behind it all that it has counted by now.
    ///
    /// # Errors
    /// Out of memory.
    pub fn marks(&self, alloc: Global, marks: &[Mark]) -> Result<(Vec<Mark>, Vec<Mark>), NoMemory>
        ensures first { IfOk result (λ both. both.0.items ≡ map
            (mark_on (times_on First (order_in self.now).times) (life_of (first_is_live self.now) (first_end self.now) (A.state (first_in self.now))))
            marks.now) }
        ensures second { IfOk result (λ both. both.1.items ≡ map
            (mark_on (times_on Second (order_in self.now).times)
            (life_of (second_is_live self.now) (second_end self.now) (B.state (second_in self.now)))) marks.now) }
    {
        let first = self.order.marks(alloc, Side::First, self.a.life(), marks)?;
        let second = self.order.marks(alloc, Side::Second, self.b.life(), marks)?;
        Ok((first, second))
    }

    /// The two disks.
    pub fn disks(&self) -> (&A, &B)
        ensures { (result.0.now ≡ first_in self.now) × (result.1.now ≡ second_in self.now) }
    {
        (self.a.disk(), self.b.disk())
    }

    /// Gives the two disks back.
    pub fn into_disks(self) -> (A, B)
        ensures { (result.0 ≡ first_in self) × (result.1 ≡ second_in self) }
    {
        let Mirror { a, b, .. } = self;
        (a.into_disk(), b.into_disk())
    }

    /// Which of the two disks are live.
    pub fn live(&self) -> (bool, bool)
        ensures { result ≡ (first_is_live self.now, second_is_live self.now) }
    {
        (self.a.is_live(), self.b.is_live())
    }

    /// The moments of the mirror at which the disks that are down went down.
    pub fn ends(&self) -> (u64, u64)
        ensures { result ≡ (first_end self.now, second_end self.now) }
    {
        (self.a.end(), self.b.end())
    }

    // Whether a disk is live.
    fn is_live(&self) -> bool
        ensures { result ≡ (first_is_live self.now || second_is_live self.now) }
    {
        self.a.is_live() || self.b.is_live()
    }

    // Reads on the first disk, and says whether that was done.
    fn read_first(&mut self, b: u32, into: &mut Block) -> bool
        requires { b < (A.state (first_in self.old)).blocks }
        ensures counts { counts_in self.new ≡ counts_in self.old }
        ensures size { (A.state (first_in self.new)).blocks ≡ (A.state (first_in self.old)).blocks }
        ensures base { (A.state (first_in self.new)).base ≡ (A.state (first_in self.old)).base }
        ensures live { (result ≡ false → first_is_live self.new ≡ false) × (second_is_live self.new ≡ second_is_live self.old) }
        ensures reads { IsTrue (A.tells && B.tells) → result ≡ true → Reads (state_of A.state B.state self.old) b into.new }
        ensures log { IsTrue (A.tells && B.tells) → (state_of A.state B.state self.new).log ≡ (state_of A.state B.state self.old).log }
    {
        // calls for their clauses alone: that the disks' logs are lawful
        self.a.lawful();
        self.b.lawful();
        let moment = self.order.len();
        self.a.read(b, into, moment)
    }

    // Reads on the second disk, and says whether that was done.
    fn read_second(&mut self, b: u32, into: &mut Block) -> bool
        requires { b < (A.state (first_in self.old)).blocks }
        ensures counts { counts_in self.new ≡ counts_in self.old }
        ensures size { (A.state (first_in self.new)).blocks ≡ (A.state (first_in self.old)).blocks }
        ensures base { (A.state (first_in self.new)).base ≡ (A.state (first_in self.old)).base }
        ensures live { (result ≡ false → second_is_live self.new ≡ false) × (first_is_live self.new ≡ first_is_live self.old) }
        ensures reads { IsTrue (A.tells && B.tells) → result ≡ true → Reads (state_of A.state B.state self.old) b into.new }
        ensures log { IsTrue (A.tells && B.tells) → (state_of A.state B.state self.new).log ≡ (state_of A.state B.state self.old).log }
    {
        // calls for their clauses alone: that the disks' logs are lawful
        self.a.lawful();
        self.b.lawful();
        let moment = self.order.len();
        self.b.read(b, into, moment)
    }

    // Writes to each live disk. Where none is left behind it, it failed, which is counted.
    fn write_both(&mut self, b: u32, from: &Block) -> Result<u64, DiskFault>
        requires there { b < (A.state (first_in self.old)).blocks }
        requires room { length (order_in self.old).pairs < (order_in self.old).room }
        requires live { (first_is_live self.old || second_is_live self.old) ≡ true }
        ensures counts { counts_in self.new ≡ counts_of (after_call (is_err result) self.old.faults) self.old.read_faults self.old.waits
            self.old.polls self.old.most }
        ensures size { (A.state (first_in self.new)).blocks ≡ (A.state (first_in self.old)).blocks }
        ensures base { (A.state (first_in self.new)).base ≡ (A.state (first_in self.old)).base }
        ensures down { OnErr result (NoneLive (first_is_live self.new) (second_is_live self.new)) }
        ensures log { IsTrue (A.tells && B.tells)
            → AddsWrite b from.now result (state_of A.state B.state self.old).log (state_of A.state B.state self.new).log }
    {
        // calls for their clauses alone: that the disks' logs are lawful, how much room there is, and what a block is
        self.a.lawful();
        self.b.lawful();
        self.order.few();
        a_block_has_its_bytes(from);
        let moment = self.order.len();
        let first = self.a.write(b, from, moment);
        let second = self.b.write(b, from, moment);
        let came = came(&self.a, &self.b);
        if is_one_live(self.a.is_live(), self.b.is_live()) {
            return Ok(self.order.accept(first.ticket(), second.ticket(), came));
        }
        self.faults = self.faults.saturating_add(1);
        note_lost(&mut self.order, first, second, came);
        Err(DiskFault)
    }

    // Polls the first disk, and notes what it answers.
    fn poll_first(&mut self)
        ensures counts { counts_in self.new ≡ counts_in self.old }
        ensures size { (A.state (first_in self.new)).blocks ≡ (A.state (first_in self.old)).blocks }
        ensures base { (A.state (first_in self.new)).base ≡ (A.state (first_in self.old)).base }
        ensures log { IsTrue (A.tells && B.tells) → (state_of A.state B.state self.new).log ≡ (state_of A.state B.state self.old).log }
        ensures pairs { (order_in self.new).pairs ≡ (order_in self.old).pairs }
        ensures other { (B.state (second_in self.new)).log ≡ (B.state (second_in self.old)).log }
        ensures hears { IsTrue (A.tells && B.tells)
            → HearsPoll First (order_in self.old).pairs (A.state (first_in self.old)).log (A.state (first_in self.new)).log (order_in self.old).heard
            (order_in self.new).heard }
    {
        // calls for their clauses alone: that the disks' logs are lawful, and how much room there is
        self.a.lawful();
        self.b.lawful();
        self.order.few();
        let moment = self.order.len();
        let ticket = match self.a.poll(moment) {
            None => return,
            Some(ticket) => ticket,
        };
        let own = match self.order.ticket_with(Side::First, ticket) {
            None => return,
            Some(own) => own,
        };
        self.order.hear(Side::First, own);
    }

    // Polls the second disk, and notes what it answers.
    fn poll_second(&mut self)
        ensures counts { counts_in self.new ≡ counts_in self.old }
        ensures size { (A.state (first_in self.new)).blocks ≡ (A.state (first_in self.old)).blocks }
        ensures base { (A.state (first_in self.new)).base ≡ (A.state (first_in self.old)).base }
        ensures log { IsTrue (A.tells && B.tells) → (state_of A.state B.state self.new).log ≡ (state_of A.state B.state self.old).log }
        ensures pairs { (order_in self.new).pairs ≡ (order_in self.old).pairs }
        ensures other { (A.state (first_in self.new)).log ≡ (A.state (first_in self.old)).log }
        ensures hears { IsTrue (A.tells && B.tells)
            → HearsPoll Second (order_in self.old).pairs (B.state (second_in self.old)).log (B.state (second_in self.new)).log
            (order_in self.old).heard (order_in self.new).heard }
    {
        // calls for their clauses alone: that the disks' logs are lawful, and how much room there is
        self.a.lawful();
        self.b.lawful();
        self.order.few();
        let moment = self.order.len();
        let ticket = match self.b.poll(moment) {
            None => return,
            Some(ticket) => ticket,
        };
        let own = match self.order.ticket_with(Side::Second, ticket) {
            None => return,
            Some(own) => own,
        };
        self.order.hear(Side::Second, own);
    }

    // Waits on the first disk for a write of this ticket, which was given.
    fn wait_first(&mut self, ticket: u64)
        requires positive { 0 < ticket }
        requires given { ticket ≤ length (order_in self.old).pairs }
        ensures counts { counts_in self.new ≡ counts_in self.old }
        ensures size { (A.state (first_in self.new)).blocks ≡ (A.state (first_in self.old)).blocks }
        ensures base { (A.state (first_in self.new)).base ≡ (A.state (first_in self.old)).base }
        ensures pairs { length (order_in self.new).pairs ≡ length (order_in self.old).pairs }
        ensures heard { first_is_live self.new ≡ true → heard_on First (heard_of (order_in self.new).heard ticket) ≡ true }
        ensures log { IsTrue (A.tells && B.tells) → (state_of A.state B.state self.new).log ≡ (state_of A.state B.state self.old).log }
    {
        // calls for their clauses alone: that the disks' logs are lawful, and how much room there is
        self.a.lawful();
        self.b.lawful();
        self.order.few();
        let moment = self.order.len();
        let own = match self.order.ticket_on(Side::First, ticket) {
            None => return,
            Some(own) => own,
        };
        if !self.a.wait(own, moment) {
            return;
        }
        self.order.hear(Side::First, ticket);
    }

    // Waits on the second disk for a write of this ticket, which was given.
    fn wait_second(&mut self, ticket: u64)
        requires positive { 0 < ticket }
        requires given { ticket ≤ length (order_in self.old).pairs }
        ensures counts { counts_in self.new ≡ counts_in self.old }
        ensures size { (A.state (first_in self.new)).blocks ≡ (A.state (first_in self.old)).blocks }
        ensures base { (A.state (first_in self.new)).base ≡ (A.state (first_in self.old)).base }
        ensures pairs { length (order_in self.new).pairs ≡ length (order_in self.old).pairs }
        ensures first { (first_is_live self.new ≡ first_is_live self.old)
            × (heard_on First (heard_of (order_in self.new).heard ticket) ≡ heard_on First (heard_of (order_in self.old).heard ticket)) }
        ensures heard { second_is_live self.new ≡ true → heard_on Second (heard_of (order_in self.new).heard ticket) ≡ true }
        ensures log { IsTrue (A.tells && B.tells) → (state_of A.state B.state self.new).log ≡ (state_of A.state B.state self.old).log }
    {
        // calls for their clauses alone: that the disks' logs are lawful, and how much room there is
        self.a.lawful();
        self.b.lawful();
        self.order.few();
        let moment = self.order.len();
        let own = match self.order.ticket_on(Side::Second, ticket) {
            None => return,
            Some(own) => own,
        };
        if !self.b.wait(own, moment) {
            return;
        }
        self.order.hear(Side::Second, ticket);
    }

    // Waits on the first disk for ticket 0, which no disk gives.
    fn wait_for_none_first(&mut self)
        ensures counts { counts_in self.new ≡ counts_in self.old }
        ensures size { (A.state (first_in self.new)).blocks ≡ (A.state (first_in self.old)).blocks }
        ensures base { (A.state (first_in self.new)).base ≡ (A.state (first_in self.old)).base }
        ensures down { IsTrue (A.tells && B.tells) → first_is_live self.new ≡ false }
        ensures log { IsTrue (A.tells && B.tells) → (state_of A.state B.state self.new).log ≡ (state_of A.state B.state self.old).log }
    {
        // calls for their clauses alone: that the disks' logs are lawful, that of the first one also behind the wait
        self.a.lawful();
        self.b.lawful();
        let moment = self.order.len();
        self.a.wait(0, moment);
        self.a.lawful();
    }

    // Waits on the second disk for ticket 0, which no disk gives.
    fn wait_for_none_second(&mut self)
        ensures counts { counts_in self.new ≡ counts_in self.old }
        ensures size { (A.state (first_in self.new)).blocks ≡ (A.state (first_in self.old)).blocks }
        ensures base { (A.state (first_in self.new)).base ≡ (A.state (first_in self.old)).base }
        ensures first { first_is_live self.new ≡ first_is_live self.old }
        ensures down { IsTrue (A.tells && B.tells) → second_is_live self.new ≡ false }
        ensures log { IsTrue (A.tells && B.tells) → (state_of A.state B.state self.new).log ≡ (state_of A.state B.state self.old).log }
    {
        // calls for their clauses alone: that the disks' logs are lawful, that of the second one also behind the wait
        self.a.lawful();
        self.b.lawful();
        let moment = self.order.len();
        self.b.wait(0, moment);
        self.b.lawful();
    }

    // Waits on each live disk for ticket 0, which no disk gives. It failed where none is left behind it, which is counted.
    fn wait_for_none(&mut self) -> Result<(), DiskFault>
        ensures counts { counts_in self.new ≡ counts_of (after_call (is_err result) self.old.faults) self.old.read_faults self.old.waits
            self.old.polls self.old.most }
        ensures size { (A.state (first_in self.new)).blocks ≡ (A.state (first_in self.old)).blocks }
        ensures base { (A.state (first_in self.new)).base ≡ (A.state (first_in self.old)).base }
        ensures down { OnErr result (NoneLive (first_is_live self.new) (second_is_live self.new)) }
        ensures fails { IsTrue (A.tells && B.tells) → is_err result ≡ true }
        ensures log { IsTrue (A.tells && B.tells) → (state_of A.state B.state self.new).log ≡ (state_of A.state B.state self.old).log }
    {
        self.wait_for_none_first();
        self.wait_for_none_second();
        if !self.is_live() {
            self.faults = self.faults.saturating_add(1);
            return Err(DiskFault);
        }
        Ok(())
    }

    // Reports the least ticket whose notice came from each live disk, of which there must be one.
    fn report_next(&mut self) -> Option<u64>
        requires { (first_is_live self.old || second_is_live self.old) ≡ true }
        ensures counts { counts_in self.new ≡ counts_in self.old }
        ensures size { (A.state (first_in self.new)).blocks ≡ (A.state (first_in self.old)).blocks }
        ensures base { (A.state (first_in self.new)).base ≡ (A.state (first_in self.old)).base }
        ensures least { result ≡ first_ready (first_is_live self.old) (second_is_live self.old) (order_in self.old).heard }
        ensures logs { ((A.state (first_in self.new)).log ≡ (A.state (first_in self.old)).log)
            × ((B.state (second_in self.new)).log ≡ (B.state (second_in self.old)).log) }
        ensures rows { (order_in self.new).heard ≡ after_report result (order_in self.old).heard }
        ensures live { (first_is_live self.new ≡ first_is_live self.old) × (second_is_live self.new ≡ second_is_live self.old) }
        ensures log { IsTrue (A.tells && B.tells)
            → AddsPoll {E = ℕ} (Ok result) (state_of A.state B.state self.old).log (state_of A.state B.state self.new).log }
    {
        // calls for their clauses alone: that the disks' logs are lawful, and how much room there is
        self.a.lawful();
        self.b.lawful();
        self.order.few();
        let ticket = match self.order.first_ready(self.a.is_live(), self.b.is_live()) {
            None => return None,
            Some(ticket) => ticket,
        };
        let came = came(&self.a, &self.b);
        self.order.report(ticket, came);
        Some(ticket)
    }

    // Reports this ticket, whose notice came from each live disk, where it isn't reported yet.
    fn report(&mut self, ticket: u64)
        requires positive { 0 < ticket }
        requires given { ticket ≤ length (order_in self.old).pairs }
        requires first { first_is_live self.old ≡ true → heard_on First (heard_of (order_in self.old).heard ticket) ≡ true }
        requires second { second_is_live self.old ≡ true → heard_on Second (heard_of (order_in self.old).heard ticket) ≡ true }
        ensures counts { counts_in self.new ≡ counts_in self.old }
        ensures size { (A.state (first_in self.new)).blocks ≡ (A.state (first_in self.old)).blocks }
        ensures base { (A.state (first_in self.new)).base ≡ (A.state (first_in self.old)).base }
        ensures log { IsTrue (A.tells && B.tells) → HearsAlone ticket (state_of A.state B.state self.old).log (state_of A.state B.state self.new).log }
        ensures fresh { IsTrue (A.tells && B.tells) → AddsNotices (state_of A.state B.state self.old).log (state_of A.state B.state self.new).log }
        ensures noticed { IsTrue (A.tells && B.tells) → IsNoticed ticket (state_of A.state B.state self.new).log }
    {
        // calls for their clauses alone: that the disks' logs are lawful, and how much room there is
        self.a.lawful();
        self.b.lawful();
        self.order.few();
        if self.order.is_reported(ticket) {
            return;
        }
        let came = came(&self.a, &self.b);
        self.order.report(ticket, came);
    }
}

// How many events the two disks have.
fn came<A: Disk, B: Disk>(a: &Half<A>, b: &Half<B>) -> Came
    ensures first { IsTrue A.tells → result.first ≡ length (A.state a.now.disk).log }
    ensures second { IsTrue B.tells → result.second ≡ length (B.state b.now.disk).log }
{
    Came {
        first: a.moment(),
        second: b.moment(),
    }
}

// Whether one of the two is live.
fn is_one_live(first: bool, second: bool) -> bool
    ensures { result ≡ (first || second) }
{
    first || second
}

// Notes what came of a write on two disks of which none is live.
fn note_lost(order: &mut Order, first: Written, second: Written, came: Came)
    requires { length order.old.pairs < order.old.room }
    ensures { order.new ≡ after_none order.old first second came }
{
    if first == Written::Missed {
        order.fail(Side::First, came);
    } else if second == Written::Missed {
        order.fail(Side::Second, came);
    }
}

impl<A: Disk, B: Disk> Disk for Mirror<A, B> {
    ghost use Rattle.disk_mirror.specs.MirrorOf.{first_in, first_is_live, order_in, second_in, second_is_live, state_of};

    ghost tells = { A.tells && B.tells };

    ghost state = { λ m. state_of A.state B.state m };

    fn lawful(&self) {
        // calls for their clauses alone: what the first disk's blocks are, and how much room there is
        self.a.lawful();
        self.order.few();
    }

    fn blocks(&self) -> u32 {
        self.a.disk().blocks()
    }

    fn moment(&self) -> u64 {
        self.order.len()
    }

    fn counts(&self) -> (u64, u64) {
        (self.read_faults, self.faults)
    }

    fn read(&mut self, b: u32, into: &mut Block) -> Result<(), DiskFault>
        requires { b < (A.state (first_in self.old)).blocks }
        ensures reads { IsTrue (A.tells && B.tells) → OnOk result (Reads (state_of A.state B.state self.old) b into.new) }
        ensures log { IsTrue (A.tells && B.tells) → (state_of A.state B.state self.new).log ≡ (state_of A.state B.state self.old).log }
        ensures spends { OnlyReads (is_err result) (state_of A.state B.state self.old) (state_of A.state B.state self.new) }
        ensures down { OnErr result (NoneLive (first_is_live self.new) (second_is_live self.new)) }
    {
        if self.read_first(b, into) {
            return Ok(());
        }
        if self.read_second(b, into) {
            return Ok(());
        }
        self.read_faults = self.read_faults.saturating_add(1);
        Err(DiskFault)
    }

    fn write(&mut self, b: u32, from: &Block) -> Result<u64, DiskFault>
        requires { b < (A.state (first_in self.old)).blocks }
        ensures log { IsTrue (A.tells && B.tells)
            → AddsWrite b from.now result (state_of A.state B.state self.old).log (state_of A.state B.state self.new).log }
        ensures spends { OnlyWrites (is_err result) (state_of A.state B.state self.old) (state_of A.state B.state self.new) }
        ensures down { OnErr result (NoneLive (first_is_live self.new) (second_is_live self.new)
            ⊎ ((order_in self.old).room ≤ length (order_in self.old).pairs)) }
    {
        if self.order.is_full() {
            self.faults = self.faults.saturating_add(1);
            return Err(DiskFault);
        }
        if !self.is_live() {
            self.faults = self.faults.saturating_add(1);
            return Err(DiskFault);
        }
        self.write_both(b, from)
    }

    fn poll(&mut self) -> Result<Option<u64>, DiskFault>
        ensures log { IsTrue (A.tells && B.tells) → AddsPoll result (state_of A.state B.state self.old).log (state_of A.state B.state self.new).log }
        ensures spends { OnlyPolls (is_err result) (state_of A.state B.state self.old) (state_of A.state B.state self.new) }
        ensures down { OnErr result (NoneLive (first_is_live self.new) (second_is_live self.new)) }
        ensures least { (rows : List Heard)
            × (IsTrue (A.tells && B.tells) → HearsBoth (order_in self.old).pairs (A.state (first_in self.old)).log (A.state (first_in self.new)).log
            (B.state (second_in self.old)).log (B.state (second_in self.new)).log (order_in self.old).heard rows)
            × IfOk result (λ ticket. (ticket ≡ first_ready (first_is_live self.new) (second_is_live self.new) rows)
            × ((order_in self.new).heard ≡ after_report ticket rows)) }
    {
        self.polls = self.polls.saturating_add(1);
        self.poll_first();
        self.poll_second();
        if !self.is_live() {
            self.faults = self.faults.saturating_add(1);
            return Err(DiskFault);
        }
        Ok(self.report_next())
    }

    fn wait(&mut self, ticket: u64) -> Result<(), DiskFault>
        ensures log { IsTrue (A.tells && B.tells) → AddsNotices (state_of A.state B.state self.old).log (state_of A.state B.state self.new).log }
        ensures noticed { IsTrue (A.tells && B.tells) → OnOk result (IsNoticed ticket (state_of A.state B.state self.new).log) }
        ensures spends { OnlyWaits (is_err result) (state_of A.state B.state self.old) (state_of A.state B.state self.new) }
        ensures alone { IsTrue (A.tells && B.tells) → HearsAlone ticket (state_of A.state B.state self.old).log (state_of A.state B.state self.new).log }
        ensures down { OnErr result (NoneLive (first_is_live self.new) (second_is_live self.new)) }
    {
        self.waits = self.waits.saturating_add(1);
        if !self.order.has(ticket) {
            return self.wait_for_none();
        }
        self.wait_first(ticket);
        self.wait_second(ticket);
        if !self.is_live() {
            self.faults = self.faults.saturating_add(1);
            return Err(DiskFault);
        }
        self.report(ticket);
        Ok(())
    }
}
