//! How the polls of a disk in memory find the tickets whose notice they bring. It adds no notice itself.

ghost use Rattle.std.specs.Prelude.{◌≡◌};
ghost use Rattle.disk_memory.specs.Log.{open_tickets};
ghost use Rattle.disk_memory.specs.MemDisk.{by_rule, polled, turned, drawn_ticket};

use crate::log::Log;
use base_types::Draws;

/// By which rule a poll finds its notice among the tickets of accepted writes that have none.
#[derive(Clone, Copy)]
pub enum Rule {
    /// A poll never has a notice.
    Silent,
    /// A poll has that of the least ticket.
    Fifo,
    /// Each poll makes a draw from this seed. A multiple of 4 gives no notice; else a quarter of the draw,
    /// modulo the number of tickets, is the place of the ticket among them in ascending order, from 0.
    Seed(u32),
}

/// A rule at work: that of a seed has its row of draws.
#[derive(Clone, Copy)]
pub(crate) enum Notices {
    Silent,
    Fifo,
    Drawn(Draws),
}

impl Notices {
    /// This rule, which made no draw yet.
    pub(crate) fn new(rule: Rule) -> Notices
        ensures { result ≡ by_rule rule }
    {
        match rule {
            Rule::Silent => Notices::Silent,
            Rule::Fifo => Notices::Fifo,
            Rule::Seed(seed) => Notices::Drawn(Draws::new(seed)),
        }
    }

    /// The ticket of the next poll of this log.
    pub(crate) fn next(&mut self, log: &Log) -> Option<u64>
        ensures ticket { result ≡ polled self.old (open_tickets log.now.events) }
        ensures state { self.new ≡ turned self.old }
    {
        match self {
            Notices::Silent => None,
            Notices::Fifo => log.open_at(0),
            Notices::Drawn(draws) => {
                let drawn = draws.draw();
                ticket_of(drawn, log)
            }
        }
    }
}

// The ticket that a draw gives.
fn ticket_of(drawn: u32, log: &Log) -> Option<u64>
    ensures { result ≡ drawn_ticket drawn (open_tickets log.now.events) }
{
    let open = log.open_count();
    if drawn % 4 == 0 {
        return None;
    }
    if open == 0 {
        return None;
    }
    log.open_at(drawn / 4 % open)
}
