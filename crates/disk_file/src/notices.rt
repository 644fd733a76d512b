//! Which tickets of a disk had their notice, by a poll or by a wait, so that none gets it twice. It knows no
//! file.

ghost use Rattle.std.specs.Prelude.{◌≡◌, ◌<◌, ◌≤◌, ◌+◌, ◌-◌, ◌^◌, ℕ, [], true, false, IfOk, IfSome, IfNone};
ghost use Rattle.std.specs.Prelude.{◌==◌, not, vec_capacity};
ghost use Rattle.std.specs.Bool.{OnTrue};
ghost use Rattle.std.specs.List.{filter};
ghost use Rattle.disk_file.specs.Notices.{is_over, StaysOver};

use base_types::NoMemory;
use std::alloc::Global;
use std::marker::Model;

/// How many tickets that were waited for are kept apart from those below them.
const MOST: usize = 1024;

/// The tickets that are over: those up to a number, and some above it that were waited for.
#[derive(Drop)]
pub(crate) struct Notices {
    upto: u64,
    /// Tickets above `upto`, in any order.
    waited: Vec<u64>,
    /// No ticket that was waited for is above this one.
    most: u64,
}

impl Model for Notices {
    ghost use Rattle.std.specs.Prelude.{◌≤◌, length, vec_capacity};
    ghost use Rattle.std.specs.List.{All};
    ghost use Rattle.disk_file.specs.Notices.{NoticesState};

    ghost Value = { NoticesState };

    ghost view = { λ n. record { upto = n.upto; waited = n.waited.items; most = n.most } };

    ghost invariant = { λ n. All (λ t. t ≤ n.most) n.waited.items × (1024 ≤ vec_capacity n.waited) };
}

impl Notices {
    /// No ticket is over.
    ///
    /// # Errors
    /// Out of memory.
    pub(crate) fn new(alloc: Global) -> Result<Notices, NoMemory>
        ensures { IfOk result (λ notices. notices ≡ record { upto = 0; waited = []; most = 0 }) }
    {
        let waited = Vec::with_capacity(alloc, MOST)?;
        Ok(Notices {
            upto: 0,
            waited,
            most: 0,
        })
    }

    /// This ticket was waited for, so it is over. It takes no memory: where too many tickets lie between those
    /// that are over, the ones between are over from now on, without a notice.
    pub(crate) fn note(&mut self, ticket: u64)
        ensures over { is_over ticket self.new ≡ true }
        ensures stays { StaysOver self.old self.new }
    {
        if self.waited.len() >= MOST {
            self.upto = self.upto.max(self.most).max(ticket);
            self.waited.clear();
            return;
        }
        self.most = self.most.max(ticket);
        self.waited.push(ticket).unwrap();
    }

    /// The least ticket up to `synced` that isn't over, which is over from now on.
    pub(crate) fn next(&mut self, synced: u64) -> Option<u64>
        ensures bound { IfSome result (λ t. (0 < t) × (t ≤ synced)) }
        ensures fresh { IfSome result (λ t. is_over t self.old ≡ false) }
        ensures over { IfSome result (λ t. is_over t self.new ≡ true) }
        ensures least { IfSome result (λ t. (u : ℕ) → u < t → is_over u self.old ≡ true) }
        ensures none { IfNone result ((t : ℕ) → t ≤ synced → is_over t self.old ≡ true) }
        ensures stays { StaysOver self.old self.new }
    {
        while self.upto < synced {
            let ticket = self.upto + 1;
            if !self.pass() {
                return Some(ticket);
            }
        }
        None
    }

    // Makes the first ticket past those up to the number one of them, and says whether it was over already.
    fn pass(&mut self) -> bool
        requires { self.old.upto < 2 ^ 64 - 1 }
        ensures was { result ≡ is_over (self.old.upto + 1) self.old }
        ensures upto { self.new.upto ≡ self.old.upto + 1 }
        ensures stays { StaysOver self.old self.new }
        ensures same { OnTrue result (StaysOver self.new self.old) }
    {
        let ticket = self.upto + 1;
        let was = self.waited.contains(&ticket);
        self.upto = ticket;
        take_out(&mut self.waited, ticket);
        was
    }
}

// Takes a ticket out of a list, however often it is there.
fn take_out(waited: &mut Vec<u64>, ticket: u64)
    ensures items { waited.new.items ≡ filter (λ u. not (u == ticket)) waited.old.items }
    ensures capacity { vec_capacity waited.new ≡ vec_capacity waited.old }
{
    waited.retain(|other| *other != ticket);
}
