//! The name of a directory entry. What its bytes may be is the definition `is_name`; a path, which is
//! a list of names, is in the crate of the tree.

ghost use Rattle.std.specs.Prelude.{◌≡◌, ℕ, ◌≤◌, ◌<◌, true, List, length, IsTrue, IsSome, IfSome, ◌↔◌, ◌==◌, ⊤};
ghost use Rattle.std.specs.List.{list_all};
ghost use Rattle.base_types.specs.Name.{is_name, is_name_byte, is_dots, is_snapshot_name};

use crate::limits::{LONGEST_NAME, LONGEST_SNAPSHOT_NAME};
use arrayvec::ArrayVec;
use std::alloc::AllocError;
use std::marker::Model;

/// 1 to 255 bytes of printable ASCII without blank and slash, and neither `.` nor `..`.
///
/// A name lies in the value itself, so making and copying one takes no memory. Names are ordered by
/// their bytes.
#[derive(Debug, PartialEq, Eq, PartialOrd, Ord, Drop)]
pub struct Name {
    bytes: ArrayVec<u8, LONGEST_NAME>,
}

impl Model for Name {
    ghost use Rattle.std.specs.Prelude.{◌≡◌, ℕ, true, List};
    ghost use Rattle.base_types.specs.Name.{is_name};

    ghost Value = { List ℕ };

    ghost view = { λ n. n.bytes.items };

    ghost invariant = { λ n. is_name n.bytes.items ≡ true };

    ghost inverse = { λ xs. record { bytes = record { items = xs } } };
}

impl Name {
    /// The name with these bytes, or `None` exactly where they are no name's.
    pub fn new(bytes: &[u8]) -> Option<Name>
        ensures found { IsSome result ↔ (is_name bytes.now ≡ true) }
        ensures value { IfSome result (λ name. name ≡ bytes.now) }
    {
        if !is_name(bytes) {
            return None;
        }
        let bytes = ArrayVec::try_from(bytes).ok()?;
        Some(Name { bytes })
    }

    /// The same name once more. This takes no memory.
    pub fn copy(&self) -> Name
        ensures { result ≡ self.now }
    {
        let mut bytes = ArrayVec::new();
        bytes.try_extend_from_slice(self.bytes.as_slice()).unwrap();
        Name { bytes }
    }

    /// Whether a snapshot may have it.
    pub fn is_snapshot_name(&self) -> bool
        ensures { result ≡ is_snapshot_name self.now }
    {
        let bytes = self.as_bytes();
        bytes.len() <= LONGEST_SNAPSHOT_NAME
    }

    /// The bytes of the name.
    pub fn as_bytes(&self) -> &[u8]
        ensures value { result.now ≡ self.now }
        ensures lawful { is_name result.now ≡ true }
    {
        self.bytes.as_slice()
    }
}

/// A clone is the same name; it takes no memory and never fails.
impl Clone for Name {
    ghost is_clone = { λ name clone. clone ≡ name };

    ghost is_infallible = { λ _. ⊤ };

    fn clone(&self) -> Result<Name, AllocError> {
        Ok(self.copy())
    }
}

fn is_name(bytes: &[u8]) -> bool
    ensures { result ≡ is_name bytes.now }
{
    if bytes.is_empty() {
        return false;
    }
    if bytes.len() > LONGEST_NAME {
        return false;
    }
    if !has_name_bytes(bytes) {
        return false;
    }
    !is_dots(bytes)
}

fn has_name_bytes(bytes: &[u8]) -> bool
    ensures { result ≡ list_all is_name_byte bytes.now }
{
    bytes.iter().all(|byte| is_name_byte(*byte))
}

fn is_name_byte(byte: u8) -> bool
    ensures { result ≡ is_name_byte byte }
{
    33 <= byte && byte <= 126 && byte != b'/'
}

fn is_dots(bytes: &[u8]) -> bool
    ensures { result ≡ is_dots bytes.now }
{
    bytes == b".".as_slice() || bytes == b"..".as_slice()
}
