//! A load: it is served, and the run ends behind the four lines of its summary. How it is served is in `cmd_load`.

ghost use Rattle.std.specs.Prelude.{ℕ, ◌≤◌};
ghost use Rattle.cmd_program.specs.Endings.{HasFault};
ghost use Rattle.cmd_program.specs.Loading.{LoadsTo};

use crate::status::Status;
use base_io::{Sink, SinkFault};
use base_types::NoMemory;
use std::alloc::Global;

/// Serves the first `count` commands of the seed, and writes the four lines of what they came to.
pub fn load<K: Sink>(alloc: Global, seed: u32, count: u32, out: &mut K) -> Status
    requires { count ≤ 2000 }
    ensures loads { LoadsTo seed count result (K.taken out.old) (K.taken out.new) }
    ensures faults { (source : ℕ) → HasFault result source source (K.faults out.old) (K.faults out.new) }
    ensures counts { K.faults out.old ≤ K.faults out.new }
{
    match cmd_load::load(alloc, seed, count) {
        Err(NoMemory) => Status::NoMemory,
        Ok(summary) => match summary.write(out) {
            Err(SinkFault) => Status::SinkFault,
            Ok(()) => Status::Done,
        },
    }
}
