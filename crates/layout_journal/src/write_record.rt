//! Writing a record's own blocks: its commit block and its descriptors, each in its one spelling, the seal
//! included. Which entries a descriptor has isn't its matter.

ghost use Rattle.std.specs.Prelude.{◌≡◌, ◌≤◌, ◌+◌, ◌*◌, ◌++◌, length};
ghost use Rattle.arrayvec.specs.ArrayVec.{array_vec_len};
ghost use Rattle.base_types.specs.Seal.{sha256};
ghost use Rattle.layout_journal.specs.Spelling.{commit_body, commit_block, kind_number, entry_bytes, all_entry_bytes, descriptor_body, descriptor_block};

use crate::entry::ENTRY_LENGTH;
use crate::write::Text;
use crate::{Commit, Descriptor, Entry, EntryKind};
use arrayvec::ArrayVec;
use base_types::Block;
use layout_bytes::{put, put_4, put_8, put_zeros};
use sha2::{Digest, Sha256};

/// The bytes of a commit block between what it says and its seal.
const SPARE: usize = 956;

/// The bytes of a descriptor that entries may take.
const ENTRY_ROOM: usize = 960;

/// Writes the block of this commit block, in place of all the bytes there.
pub fn write_commit(commit: &Commit, into: &mut Block)
    ensures { into.new ≡ commit_block commit.now }
{
    let text = commit_body(commit);
    seal_into(&text, into);
}

/// Writes the block of this descriptor, in place of all the bytes there.
pub fn write_descriptor(descriptor: &Descriptor, into: &mut Block)
    ensures { into.new ≡ descriptor_block descriptor.now }
{
    let text = descriptor_body(descriptor);
    seal_into(&text, into);
}

/// Writes the text and its seal behind it.
fn seal_into(text: &Text, into: &mut Block)
    requires { array_vec_len text.now ≡ 992 }
    ensures { into.new ≡ text.now.items ++ sha256 text.now.items }
{
    let seal = Sha256::digest(text.as_slice());
    let mut whole: Text = ArrayVec::new();
    put(&mut whole, text.as_slice());
    put(&mut whole, seal.as_slice());
    into.copy_from_slice(whole.as_slice());
}

/// The bytes of this commit block before its seal.
fn commit_body(commit: &Commit) -> Text
    ensures body { result.items ≡ commit_body commit.now }
    ensures size { array_vec_len result ≡ 992 }
{
    let mut text = ArrayVec::new();
    put(&mut text, b"OPTC0001".as_slice());
    put_8(&mut text, commit.epoch);
    put_8(&mut text, commit.number);
    put_4(&mut text, commit.descriptors);
    put_4(&mut text, commit.payloads);
    put_4(&mut text, commit.fresh);
    put_zeros(&mut text, SPARE);
    text
}

/// The bytes of this descriptor before its seal.
fn descriptor_body(descriptor: &Descriptor) -> Text
    ensures body { result.items ≡ descriptor_body descriptor.now }
    ensures size { array_vec_len result ≡ 992 }
{
    let entries = descriptor.entries.as_slice();
    let mut text = ArrayVec::new();
    put(&mut text, b"OPTD0001".as_slice());
    put_8(&mut text, descriptor.epoch);
    put_8(&mut text, descriptor.number);
    put_4(&mut text, descriptor.index);
    put_4(&mut text, entries.len() as u32);
    put_entries(&mut text, entries);
    put_zeros(&mut text, ENTRY_ROOM - ENTRY_LENGTH * entries.len());
    text
}

fn put_entries(text: &mut Text, entries: &[Entry])
    requires { array_vec_len text.old + 40 * length entries.now ≤ 1024 }
    ensures bytes { text.new.items ≡ text.old.items ++ all_entry_bytes entries.now }
    ensures size { array_vec_len text.new ≡ array_vec_len text.old + 40 * length entries.now }
{
    for entry in entries {
        put_entry(text, entry);
    }
}

fn put_entry(text: &mut Text, entry: &Entry)
    requires { array_vec_len text.old + 40 ≤ 1024 }
    ensures bytes { text.new.items ≡ text.old.items ++ entry_bytes entry.now }
    ensures size { array_vec_len text.new ≡ array_vec_len text.old + 40 }
{
    put_4(text, entry.block);
    put(text, [kind_number(entry.kind), 0, 0, 0].as_slice());
    put(text, entry.digest.as_slice());
}

fn kind_number(kind: EntryKind) -> u8
    ensures { result ≡ kind_number kind }
{
    match kind {
        EntryKind::Payload => 1,
        EntryKind::Fresh => 2,
        EntryKind::Escaped => 3,
    }
}
