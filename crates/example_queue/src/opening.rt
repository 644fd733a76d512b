//! A queue is opened over a disk: it is mounted, its file system is opened, and the log in it. What is done with the
//! queue then is not said here.

ghost use Rattle.std.specs.Prelude.{◌≡◌, false, IsTrue, IfErr, IfOk};
ghost use Rattle.disk_contract.specs.Disk.{State};
ghost use Rattle.lang_tree.specs.Tree.{Tree};
ghost use Rattle.lang_log.specs.History.{opened_with};
ghost use Rattle.lang_log.specs.Log.{HasNoLog, IsLogOf, Log};
ghost use Rattle.engine_blocks.specs.Crashes.{IsBegun};
ghost use Rattle.engine_store.specs.Mounting.{BeginsWith};
ghost use Rattle.engine_store.specs.StoreOf.{state_of};
ghost use Rattle.fs_commands.specs.Opened.{MayFollow, blocks_in};
ghost use Rattle.fs_log.specs.declared.refusal.OpenRefusal.{OpenRefusal};
ghost use Rattle.fs_log.specs.declared.refusal.OpenRefusal.TheVariants.{BadLog};
ghost use Rattle.fs_log.specs.Keeping.{Keeps};
ghost use Rattle.fs_log.specs.Open.{state_in};
ghost use Rattle.fs_log.specs.Opening.{StandsAsMounted, StandsIn};
ghost use Rattle.cmd_image.specs.Mounted.{IsFresh, IsMountedOn};
ghost use Rattle.example_queue.specs.declared.opening.QueueRefusal.TheVariants.{Log as LogRefused};
ghost use Rattle.example_queue.specs.Queue.{IsOpenedOn, RefusesQueue};

use cmd_image::{ShowRefusal, mount_lent, unopened, what_is_read_stays_mounted};
use cmd_session::Served;
use crash_stands::an_image_stands_for_one_tree;
use disk_contract::Disk;
use engine_store::Store;
use fs_commands::Fs;
use fs_log::{AppLog, OpenRefusal};
use std::alloc::Global;
use std::error::Error;
use std::fmt;

/// How many bytes of appends a file of the log comes to have at most.
const SEGMENT: u32 = 65_540;

/// Why a queue isn't opened.
#[derive(Debug, Drop)]
pub enum QueueRefusal {
    /// The disk isn't mounted, or there is no file system on it.
    Disk(ShowRefusal),
    /// There is no log in that, or it refuses to open it.
    Log(OpenRefusal),
}

impl fmt::Display for QueueRefusal {
    fn fmt<W: fmt::Write>(&self, f: &mut fmt::Formatter<W>) -> fmt::Result {
        match self {
            QueueRefusal::Disk(why) => write!(f, "{why}"),
            QueueRefusal::Log(why) => write!(f, "{why}"),
        }
    }
}

impl Error for QueueRefusal {}

/// Opens the queue on a disk that was just switched on.
///
/// # Errors
/// The disk isn't mounted, no tree stands on it, or that has no log; or the file system refuses to open the log.
pub fn open_queue<D: Disk + Drop>(alloc: Global, disk: D) -> Result<AppLog<Store<D>>, QueueRefusal>
    requires { IsFresh D.tells (D.state disk) }
    ensures opened { IsTrue D.tells → IfOk result (λ log. IsOpenedOn (D.state disk) (state_in (state_of D.state) log)) }
    ensures refused { IsTrue D.tells → IfErr result (RefusesQueue (D.state disk)) }
{
    match mount_lent(alloc, disk) {
        Ok(store) => open_files(alloc, store),
        Err((_, why)) => Err(QueueRefusal::Disk(why)),
    }
}

/// The same over a store that was just mounted.
///
/// # Errors
/// As of `open_queue`.
fn open_files<D: Disk + Drop>(
    alloc: Global,
    store: Store<D>,
) -> Result<AppLog<Store<D>>, QueueRefusal>
    requires begun { IsBegun (state_of D.state store) }
    ensures opened { IsTrue D.tells → (first : State) → IsMountedOn D.tells false first (state_of D.state store)
        → BeginsWith (state_of D.state store).books.geom (state_of D.state store).map (state_of D.state store)
        → IfOk result (λ log. IsOpenedOn first (state_in (state_of D.state) log)) }
    ensures refused { IsTrue D.tells → (first : State) → IsMountedOn D.tells false first (state_of D.state store)
        → IfErr result (RefusesQueue first) }
{
    what_is_read_stays_mounted::<Store<D>>();
    an_image_stands_for_one_tree();
    match Served::open(alloc, store) {
        Ok(files) => open_log(alloc, files.into_files()),
        Err((store, why)) => {
            let (_, why) = unopened(store, why);
            Err(QueueRefusal::Disk(why))
        }
    }
}

/// The same over a file system that was just opened.
///
/// # Errors
/// As of `open_queue`.
fn open_log<D: Disk + Drop>(
    alloc: Global,
    fs: Fs<Store<D>>,
) -> Result<AppLog<Store<D>>, QueueRefusal>
    requires follows { MayFollow D.tells (state_of D.state) fs }
    ensures opened { IsTrue D.tells → (t : Tree) → StandsAsMounted (state_of D.state (blocks_in fs)) t
        → IfOk result (λ log. (l : Log) × IsLogOf t l × Keeps (opened_with l) (state_in (state_of D.state) log)) }
    ensures refused { IsTrue D.tells → IfErr result (λ why. why ≡ LogRefused BadLog
        → (t : Tree) → StandsIn (state_of D.state (blocks_in fs)) t → HasNoLog t) }
    ensures own { IfErr result (λ why. (refusal : OpenRefusal) × (why ≡ LogRefused refusal)) }
{
    match AppLog::open(alloc, fs, SEGMENT) {
        Ok(log) => Ok(log),
        Err((_, why)) => Err(QueueRefusal::Log(why)),
    }
}
