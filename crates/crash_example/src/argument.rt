//! The laws of crash_argument that the life of one record rests on, gathered in one contract. The function does
//! nothing; what is made of the laws isn't described here.

ghost use Rattle.crash_example.specs.CrashLaws.{CrashLaws};

use crash_argument::{
    a_batch_comes_home, a_batch_goes_home, a_durable_header_is_safe, a_header_becomes_durable,
    a_home_write_may_be_made, counts_tell_the_batch, the_next_header_may_be_written,
};

/// What the argument says of headers, batches and checkpoint writes.
pub(crate) fn the_argument_holds()
    ensures { CrashLaws }
{
    the_next_header_may_be_written();
    a_header_becomes_durable();
    a_durable_header_is_safe();
    a_batch_goes_home();
    a_home_write_may_be_made();
    a_batch_comes_home();
    counts_tell_the_batch();
}
