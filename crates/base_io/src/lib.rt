//! Where the program's bytes come from and where they go: a source is pulled, a sink is pushed, and
//! either counts its faults. There is a source and a sink in memory, which fail at the calls that
//! their caller lists, and a source and a sink over a reader and a writer of the standard library.
//! It knows nothing of what the bytes mean.
#![tactic(auto)]

mod adapters;
mod laws;
mod memory_sink;
mod memory_source;
mod traits;
mod whole;

pub use adapters::{ReadSource, WriteSink};
pub use laws::prefixes_join;
pub use memory_sink::MemSink;
pub use memory_source::MemSource;
pub use traits::{Sink, SinkFault, Source, SourceFault};
pub use whole::push_all;
