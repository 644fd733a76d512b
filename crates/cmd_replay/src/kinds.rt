//! Of which kind a command or a reply is, where the walk over a trace goes by it. Each helper answers what the
//! definition of its name answers.

ghost use Rattle.std.specs.Prelude.{◌≡◌};
ghost use Rattle.lang_tree.specs.Points.{is_refusal, is_sync, may_have_written};

use lang_tree::{Cmd, Refusal, Reply};

/// Whether the command makes a sync point where something changed.
pub(crate) fn is_sync(cmd: &Cmd) -> bool
    ensures { result ≡ is_sync cmd.now }
{
    match cmd {
        Cmd::Osync | Cmd::Dsync => true,
        Cmd::Mkdir(_)
        | Cmd::Create(_)
        | Cmd::Write(_, _, _)
        | Cmd::Fill(_, _, _, _)
        | Cmd::Read(_, _, _)
        | Cmd::Truncate(_, _)
        | Cmd::Link(_, _)
        | Cmd::Unlink(_)
        | Cmd::Rmdir(_)
        | Cmd::Rename(_, _)
        | Cmd::Stat(_)
        | Cmd::List(_)
        | Cmd::Snap(_)
        | Cmd::Unsnap(_)
        | Cmd::Snaps
        | Cmd::At(_, _)
        | Cmd::Durable
        | Cmd::Dwait(_)
        | Cmd::Poll
        | Cmd::Bad => false,
    }
}

/// Whether the reply is a refusal.
pub(crate) fn is_refusal(reply: &Reply) -> bool
    ensures { result ≡ is_refusal reply.now }
{
    match reply {
        Reply::Refused(_) => true,
        Reply::Ok
        | Reply::Bytes(_)
        | Reply::Stat(_)
        | Reply::Names(_)
        | Reply::Synced(_)
        | Reply::DurableAt(_)
        | Reply::Known(_)
        | Reply::Bad => false,
    }
}

/// Whether a sync that was answered so may have written its tree.
pub(crate) fn may_have_written(reply: &Reply) -> bool
    ensures { result ≡ may_have_written reply.now }
{
    match reply {
        Reply::Refused(Refusal::DiskFault) => true,
        Reply::Refused(
            Refusal::NotFound
            | Refusal::Exists
            | Refusal::NotDir
            | Refusal::IsDir
            | Refusal::NotEmpty
            | Refusal::BelowItself
            | Refusal::TooLarge
            | Refusal::TooManyLinks
            | Refusal::NoNode
            | Refusal::Full { .. }
            | Refusal::TooBig { .. }
            | Refusal::Scattered { .. }
            | Refusal::ReadFault
            | Refusal::Stopped
            | Refusal::Spent
            | Refusal::NoMemory
            | Refusal::NameTooLong
            | Refusal::NoPoint { .. }
            | Refusal::NoSnap,
        ) => false,
        Reply::Ok
        | Reply::Bytes(_)
        | Reply::Stat(_)
        | Reply::Names(_)
        | Reply::Synced(_)
        | Reply::DurableAt(_)
        | Reply::Known(_)
        | Reply::Bad => true,
    }
}
