//! Of which kind a command, a refusal or a reply is, where the replay goes by it, and which numbers of a session a
//! reply tells. Each helper answers what the definition of its name answers.

ghost use Rattle.std.specs.Prelude.{◌≡◌};
ghost use Rattle.cmd_trace_reader.specs.Replies.{is_bad, is_durable, is_stopped, is_disk_fault, is_no_memory, is_out_of_memory, points_by, durable_by};

use lang_tree::{Cmd, Refusal, Reply};

/// Whether the command is a bad line.
pub fn is_bad(cmd: &Cmd) -> bool
    ensures { result ≡ is_bad cmd.now }
{
    match cmd {
        Cmd::Bad => true,
        Cmd::Mkdir(_)
        | Cmd::Create(_)
        | Cmd::Write(_, _, _)
        | Cmd::Fill(_, _, _, _)
        | Cmd::Read(_, _, _)
        | Cmd::Truncate(_, _)
        | Cmd::Link(_, _)
        | Cmd::Unlink(_)
        | Cmd::Rmdir(_)
        | Cmd::Rename(_, _)
        | Cmd::Stat(_)
        | Cmd::List(_)
        | Cmd::Snap(_)
        | Cmd::Unsnap(_)
        | Cmd::Snaps
        | Cmd::At(_, _)
        | Cmd::Osync
        | Cmd::Dsync
        | Cmd::Durable
        | Cmd::Dwait(_)
        | Cmd::Poll => false,
    }
}

/// Whether the command asks which point is known to be on the disk.
pub fn is_durable(cmd: &Cmd) -> bool
    ensures { result ≡ is_durable cmd.now }
{
    match cmd {
        Cmd::Durable => true,
        Cmd::Mkdir(_)
        | Cmd::Create(_)
        | Cmd::Write(_, _, _)
        | Cmd::Fill(_, _, _, _)
        | Cmd::Read(_, _, _)
        | Cmd::Truncate(_, _)
        | Cmd::Link(_, _)
        | Cmd::Unlink(_)
        | Cmd::Rmdir(_)
        | Cmd::Rename(_, _)
        | Cmd::Stat(_)
        | Cmd::List(_)
        | Cmd::Snap(_)
        | Cmd::Unsnap(_)
        | Cmd::Snaps
        | Cmd::At(_, _)
        | Cmd::Osync
        | Cmd::Dsync
        | Cmd::Dwait(_)
        | Cmd::Poll
        | Cmd::Bad => false,
    }
}

/// Whether the refusal is that of a session that has ended.
pub fn is_stopped(why: Refusal) -> bool
    ensures { result ≡ is_stopped why }
{
    match why {
        Refusal::Stopped => true,
        Refusal::NotFound
        | Refusal::Exists
        | Refusal::NotDir
        | Refusal::IsDir
        | Refusal::NotEmpty
        | Refusal::BelowItself
        | Refusal::TooLarge
        | Refusal::TooManyLinks
        | Refusal::NoNode
        | Refusal::Full { .. }
        | Refusal::TooBig { .. }
        | Refusal::Scattered { .. }
        | Refusal::ReadFault
        | Refusal::DiskFault
        | Refusal::Spent
        | Refusal::NoMemory
        | Refusal::NameTooLong
        | Refusal::NoPoint { .. }
        | Refusal::NoSnap => false,
    }
}

/// Whether the refusal is that of a fault of the disk, which ends the session.
pub fn is_disk_fault(why: Refusal) -> bool
    ensures { result ≡ is_disk_fault why }
{
    match why {
        Refusal::DiskFault => true,
        Refusal::NotFound
        | Refusal::Exists
        | Refusal::NotDir
        | Refusal::IsDir
        | Refusal::NotEmpty
        | Refusal::BelowItself
        | Refusal::TooLarge
        | Refusal::TooManyLinks
        | Refusal::NoNode
        | Refusal::Full { .. }
        | Refusal::TooBig { .. }
        | Refusal::Scattered { .. }
        | Refusal::ReadFault
        | Refusal::Stopped
        | Refusal::Spent
        | Refusal::NoMemory
        | Refusal::NameTooLong
        | Refusal::NoPoint { .. }
        | Refusal::NoSnap => false,
    }
}

/// Whether the reply says that no memory was found.
pub fn is_out_of_memory(reply: &Reply) -> bool
    ensures { result ≡ is_out_of_memory reply.now }
{
    match reply {
        Reply::Refused(why) => is_no_memory(*why),
        Reply::Ok
        | Reply::Bytes(_)
        | Reply::Stat(_)
        | Reply::Names(_)
        | Reply::Synced(_)
        | Reply::DurableAt(_)
        | Reply::Known(_)
        | Reply::Bad => false,
    }
}

fn is_no_memory(why: Refusal) -> bool
    ensures { result ≡ is_no_memory why }
{
    match why {
        Refusal::NoMemory => true,
        Refusal::NotFound
        | Refusal::Exists
        | Refusal::NotDir
        | Refusal::IsDir
        | Refusal::NotEmpty
        | Refusal::BelowItself
        | Refusal::TooLarge
        | Refusal::TooManyLinks
        | Refusal::NoNode
        | Refusal::Full { .. }
        | Refusal::TooBig { .. }
        | Refusal::Scattered { .. }
        | Refusal::ReadFault
        | Refusal::DiskFault
        | Refusal::Stopped
        | Refusal::Spent
        | Refusal::NameTooLong
        | Refusal::NoPoint { .. }
        | Refusal::NoSnap => false,
    }
}

/// The last point, and the greatest one that a dsync or a dwait answered, behind a reply, where these are those before it.
pub fn numbers_by(reply: &Reply, points: u64, durable: u64) -> (u64, u64)
    ensures points { result.0 ≡ points_by reply.now points }
    ensures durable { result.1 ≡ durable_by reply.now durable }
{
    match reply {
        Reply::Synced(point) => (*point, durable),
        Reply::DurableAt(point) => (points.max(*point), durable.max(*point)),
        Reply::Ok
        | Reply::Bytes(_)
        | Reply::Stat(_)
        | Reply::Names(_)
        | Reply::Known(_)
        | Reply::Bad
        | Reply::Refused(_) => (points, durable),
    }
}
