//! Why a command ends where a call on files is refused.

ghost use Rattle.std.specs.Prelude.{◌≡◌};
ghost use Rattle.fs_commands.specs.Refusals.{refusal_of};

use fs_files::FileRefusal;
use lang_tree::Refusal;

/// The refusal of a command for that of a call on files. There are never too few blocks for a command that
/// there is room for, and never so many runs that their number doesn't fit.
pub(crate) fn refusal_of(why: FileRefusal) -> Refusal
    ensures { result ≡ refusal_of why }
{
    match why {
        FileRefusal::ReadFault => Refusal::ReadFault,
        FileRefusal::Short { need, reusable } => Refusal::Full {
            need,
            left: reusable,
        },
        FileRefusal::Scattered { runs } => Refusal::Scattered {
            runs: runs.min(u64::from(u32::MAX)) as u32,
        },
        FileRefusal::DiskFault => Refusal::DiskFault,
        FileRefusal::NoMemory => Refusal::NoMemory,
    }
}
