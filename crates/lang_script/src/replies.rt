//! From a reply to its text, built piece by piece: each helper's clause names what it adds.

ghost use Rattle.std.specs.Prelude.{◌≡◌, ◌++◌, OnOk, IfOk, true, nat_lt, codes, decimal};
ghost use Rattle.std.specs.List.{list_all};
ghost use Rattle.base_types.specs.Name.{is_name};
ghost use Rattle.lang_tree.specs.Listing.{digits_behind_blank};
ghost use Rattle.lang_tree.specs.Refusals.{refusal_number, refusal_name};
ghost use Rattle.lang_tree.specs.declared.command.Reply.TheVariants.{Bytes, Stat as StatReply};
ghost use Rattle.lang_script.specs.Text.{kind_text, names_behind_blanks, refusal_text, text_of_reply};
ghost use Rattle.lang_script.specs.Values.{IsReply, HasFigures};

use crate::pieces::{push, push_behind_blank, push_digits, push_number};
use base_types::{Name, NoMemory};
use lang_tree::{Kind, Refusal, Reply, Stat};
use std::alloc::Global;

/// For how many bytes a reply has room before it grows.
const SHORT_REPLY: usize = 32;

/// How this reply is written, without a line feed. Its type sees to it that the reply is a lawful one.
///
/// # Errors
/// Out of memory.
pub fn reply_text(alloc: Global, reply: &Reply) -> Result<Vec<u8>, NoMemory>
    ensures text { IfOk result (λ text. text.items ≡ text_of_reply reply.now) }
    ensures lawful { IfOk result (λ text. IsReply reply.now) }
{
    let mut text = Vec::with_capacity(alloc, SHORT_REPLY)?;
    push_reply(&mut text, reply)?;
    Ok(text)
}

/// How a reply with these bytes is written, without a line feed.
///
/// # Errors
/// Out of memory.
pub fn bytes_text(alloc: Global, bytes: &[u8]) -> Result<Vec<u8>, NoMemory>
    ensures { IfOk result (λ text. text.items ≡ text_of_reply (Bytes bytes.now)) }
{
    let mut text = Vec::new(alloc);
    push(&mut text, b"hex")?;
    push_found(&mut text, bytes)?;
    Ok(text)
}

fn push_reply(text: &mut Vec<u8>, reply: &Reply) -> Result<(), NoMemory>
    ensures told { OnOk result (text.new.items ≡ text.old.items ++ text_of_reply reply.now) }
    ensures lawful { OnOk result (IsReply reply.now) }
{
    match reply {
        Reply::Ok => {
            push(text, b"ok")?;
            Ok(())
        }
        Reply::Bytes(bytes) => {
            push(text, b"hex")?;
            push_found(text, bytes.as_slice())?;
            Ok(())
        }
        Reply::Stat(stat) => {
            push_stat(text, stat)?;
            Ok(())
        }
        Reply::Names(names) => {
            push(text, b"names")?;
            push_names(text, names.names())?;
            Ok(())
        }
        Reply::Synced(point) => {
            push(text, b"synced")?;
            push_number(text, *point)?;
            Ok(())
        }
        Reply::DurableAt(point) => {
            push(text, b"durable")?;
            push_number(text, *point)?;
            Ok(())
        }
        Reply::Known(point) => {
            push(text, b"known")?;
            push_number(text, *point)?;
            Ok(())
        }
        Reply::Bad => {
            push(text, b"bad")?;
            Ok(())
        }
        Reply::Refused(why) => {
            push_refusal(text, *why)?;
            Ok(())
        }
    }
}

fn push_found(text: &mut Vec<u8>, bytes: &[u8]) -> Result<(), NoMemory>
    ensures told { OnOk result (text.new.items ≡ text.old.items ++ digits_behind_blank bytes.now) }
    ensures lawful { OnOk result (list_all (λ b. nat_lt b 256) bytes.now ≡ true) }
{
    match bytes {
        [] => {}
        [_, ..] => push_digits(text, bytes)?,
    }
    Ok(())
}

fn push_stat(text: &mut Vec<u8>, stat: &Stat) -> Result<(), NoMemory>
    ensures told { OnOk result (text.new.items ≡ text.old.items ++ text_of_reply (StatReply stat.now)) }
    ensures lawful { OnOk result (IsReply (StatReply stat.now)) }
{
    push(text, b"stat")?;
    push_behind_blank(text, kind_name(stat.kind))?;
    push_number(text, u64::from(stat.number))?;
    push_number(text, stat.size)?;
    push_number(text, stat.links)?;
    Ok(())
}

fn kind_name(kind: Kind) -> &'static [u8]
    ensures { result.now ≡ kind_text kind }
{
    match kind {
        Kind::Dir => b"dir",
        Kind::File => b"file",
    }
}

// A blank and the name, for each name.
fn push_names(text: &mut Vec<u8>, names: &[Name]) -> Result<(), NoMemory>
    ensures told { OnOk result (text.new.items ≡ text.old.items ++ names_behind_blanks names.now) }
    ensures lawful { OnOk result (list_all is_name names.now ≡ true) }
{
    for name in names {
        push_behind_blank(text, name.as_bytes())?;
    }
    Ok(())
}

fn push_refusal(text: &mut Vec<u8>, why: Refusal) -> Result<(), NoMemory>
    ensures told { OnOk result (text.new.items ≡ text.old.items ++ refusal_text why) }
    ensures lawful { OnOk result (HasFigures why) }
{
    match why {
        Refusal::Full { need, left } => {
            push(text, b"full")?;
            push_number(text, u64::from(need))?;
            push_number(text, u64::from(left))?;
        }
        Refusal::TooBig { weight, cost, room } => {
            push(text, b"toobig")?;
            push_number(text, u64::from(weight))?;
            push_number(text, u64::from(cost))?;
            push_number(text, u64::from(room))?;
        }
        Refusal::Scattered { runs } => {
            push(text, b"scattered")?;
            push_number(text, u64::from(runs))?;
        }
        Refusal::NoPoint { last } => {
            push(text, b"nopoint")?;
            push_number(text, last)?;
        }
        Refusal::NotFound
        | Refusal::Exists
        | Refusal::NotDir
        | Refusal::IsDir
        | Refusal::NotEmpty
        | Refusal::BelowItself
        | Refusal::TooLarge
        | Refusal::TooManyLinks
        | Refusal::NoNode
        | Refusal::ReadFault
        | Refusal::DiskFault
        | Refusal::Stopped
        | Refusal::Spent
        | Refusal::NoMemory
        | Refusal::NameTooLong
        | Refusal::NoSnap => push_reason(text, why)?,
    }
    Ok(())
}

fn push_reason(text: &mut Vec<u8>, why: Refusal) -> Result<(), NoMemory>
    ensures { OnOk result (text.new.items ≡ text.old.items ++ (codes "refused " ++ decimal (refusal_number why) ++ codes " " ++ refusal_name why)) }
{
    push(text, b"refused")?;
    push_number(text, u64::from(why.number()))?;
    push_behind_blank(text, why.name().as_bytes())?;
    Ok(())
}
