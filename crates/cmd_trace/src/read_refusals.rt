//! From the text of a reply to what it says where the tree alone doesn't decide it: a refusal from outside the
//! tree, or a point that is known to be on the disk. Each helper answers what the definition of its name answers.

ghost use Rattle.std.specs.Prelude.{◌≡◌};
ghost use Rattle.cmd_trace.specs.ReadFields.{cut};
ghost use Rattle.cmd_trace.specs.ReadLines.{refusal_of, refusal_by, full_of, too_big_of, too_big_with, scattered_of, reason_of, known_of, known_by};

use crate::read_fields::{cut, small_number_of};
use lang_script::number_of;
use lang_tree::Refusal;

/// The refusal that the text is, of those that may come from outside the tree.
pub fn refusal_of(text: &[u8]) -> Option<Refusal>
    ensures { result ≡ refusal_of text.now }
{
    match cut(text) {
        Some((word, rest)) => refusal_by(word, rest),
        None => None,
    }
}

fn refusal_by(word: &[u8], text: &[u8]) -> Option<Refusal>
    ensures { result ≡ refusal_by word.now text.now }
{
    if word == b"full".as_slice() {
        return full_of(text);
    }
    if word == b"toobig".as_slice() {
        return too_big_of(text);
    }
    if word == b"scattered".as_slice() {
        return scattered_of(text);
    }
    if word == b"refused".as_slice() {
        return reason_of(text);
    }
    None
}

fn full_of(text: &[u8]) -> Option<Refusal>
    ensures { result ≡ full_of text.now }
{
    let Some((need, left)) = cut(text) else {
        return None;
    };
    let Some(need) = small_number_of(need) else {
        return None;
    };
    match small_number_of(left) {
        Some(left) => Some(Refusal::Full { need, left }),
        None => None,
    }
}

fn too_big_of(text: &[u8]) -> Option<Refusal>
    ensures { result ≡ too_big_of text.now }
{
    match cut(text) {
        Some((weight, rest)) => too_big_with(weight, rest),
        None => None,
    }
}

fn too_big_with(weight: &[u8], rest: &[u8]) -> Option<Refusal>
    ensures { result ≡ too_big_with weight.now (cut rest.now) }
{
    let Some((cost, room)) = cut(rest) else {
        return None;
    };
    let Some(weight) = small_number_of(weight) else {
        return None;
    };
    let Some(cost) = small_number_of(cost) else {
        return None;
    };
    match small_number_of(room) {
        Some(room) => Some(Refusal::TooBig { weight, cost, room }),
        None => None,
    }
}

fn scattered_of(text: &[u8]) -> Option<Refusal>
    ensures { result ≡ scattered_of text.now }
{
    match small_number_of(text) {
        Some(runs) => Some(Refusal::Scattered { runs }),
        None => None,
    }
}

fn reason_of(text: &[u8]) -> Option<Refusal>
    ensures { result ≡ reason_of text.now }
{
    if text == b"13 ReadFault".as_slice() {
        return Some(Refusal::ReadFault);
    }
    if text == b"14 DiskFault".as_slice() {
        return Some(Refusal::DiskFault);
    }
    if text == b"15 Stopped".as_slice() {
        return Some(Refusal::Stopped);
    }
    if text == b"16 Spent".as_slice() {
        return Some(Refusal::Spent);
    }
    if text == b"17 NoMemory".as_slice() {
        return Some(Refusal::NoMemory);
    }
    None
}

/// The point that is known to be on the disk, where the text says one.
pub fn known_of(text: &[u8]) -> Option<u64>
    ensures { result ≡ known_of text.now }
{
    match cut(text) {
        Some((word, rest)) => known_by(word, rest),
        None => None,
    }
}

fn known_by(word: &[u8], text: &[u8]) -> Option<u64>
    ensures { result ≡ known_by word.now text.now }
{
    if word == b"known".as_slice() {
        return number_of(text);
    }
    None
}
