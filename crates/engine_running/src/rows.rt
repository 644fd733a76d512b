//! Rows of puts, ascending by block: one more put, one less, and the bytes of a block, each found by
//! halving the row. Which row a put belongs to isn't their matter.

ghost use Rattle.std.specs.Prelude.{◌≡◌, ◌≢◌, ◌≤◌, ◌<◌, ◌+◌, ℕ, length, slice_get, slice_index_or, Some, None, IsTrue, IfSome, vec_len, vec_capacity};
ghost use Rattle.engine_running.specs.declared.put.Put.{Put};
ghost use Rattle.engine_running.specs.Rows.{IsRising, with_put, without_put, put_of, LacksBlock};

use crate::Put;
use base_types::Block;
use disk_contract::BoxedBlock;

/// Where the put of this block stands, or would stand.
fn place_of(row: &[Put], block: u32) -> usize
    requires { IsRising row.now }
    ensures bound { result ≤ length row.now }
    ensures below { (k : ℕ) (p : Put) → slice_get row.now k ≡ Some p → k < result → p.block < block }
    ensures above { (k : ℕ) (p : Put) → slice_get row.now k ≡ Some p → result ≤ k → block ≤ p.block }
{
    row.partition_point(|put| put.block < block)
}

/// Whether the put at this place is of this block.
fn is_at(row: &[Put], at: usize, block: u32) -> bool
    ensures there { IsTrue result → (at < length row.now) × ((p : Put) → slice_get row.now at ≡ Some p → p.block ≡ block) }
    ensures other { (p : Put) → slice_get row.now at ≡ Some p → p.block ≡ block → IsTrue result }
{
    match row.get(at) {
        Some(put) => put.block == block,
        None => false,
    }
}

/// Puts a block into the row. The older put of the block comes back, if there was one.
pub(crate) fn put_in(row: &mut Vec<Put>, put: Put) -> Option<Put>
    requires rising { IsRising row.old.items }
    requires room { vec_len row.old < vec_capacity row.old }
    ensures items { row.new.items ≡ with_put put row.old.items }
    ensures none { result ≡ None → vec_len row.new ≡ vec_len row.old + 1 }
    ensures some { IfSome result (λ p. (vec_len row.new ≡ vec_len row.old) × (0 < vec_len row.old)) }
    ensures capacity { vec_capacity row.new ≡ vec_capacity row.old }
{
    let at = place_of(row.as_slice(), put.block);
    if is_at(row.as_slice(), at, put.block) {
        return Some(std::mem::replace(&mut row[at], put));
    }
    row.insert(at, put).unwrap();
    None
}

/// Takes the put of a block out of the row, if there is one.
pub(crate) fn take_out(row: &mut Vec<Put>, block: u32) -> Option<Put>
    requires { IsRising row.old.items }
    ensures items { row.new.items ≡ without_put block row.old.items }
    ensures none { result ≡ None → vec_len row.new ≡ vec_len row.old }
    ensures some { IfSome result (λ p. vec_len row.new + 1 ≡ vec_len row.old) }
    ensures capacity { vec_capacity row.new ≡ vec_capacity row.old }
{
    let at = place_of(row.as_slice(), block);
    if !is_at(row.as_slice(), at, block) {
        return None;
    }
    Some(row.remove(at))
}

/// The bytes that were put for a block.
pub(crate) fn bytes_in(row: &[Put], block: u32) -> Option<&Block>
    requires { IsRising row.now }
    ensures some { IfSome result (λ bytes. put_of block row.now ≡ Some bytes.now) }
    ensures none { result ≡ None → put_of block row.now ≡ None }
{
    let at = place_of(row, block);
    if !is_at(row, at, block) {
        return None;
    }
    Some(row[at].bytes.bytes())
}

/// Gives the box of a put back, if there is one.
pub(crate) fn give_back(spare: &mut Vec<BoxedBlock>, put: Option<Put>)
    requires { IfSome put (λ p. vec_len spare.old < vec_capacity spare.old) }
    ensures more { vec_len spare.old ≤ vec_len spare.new }
    ensures few { vec_len spare.new ≤ vec_len spare.old + 1 }
    ensures none { put ≡ None → vec_len spare.new ≡ vec_len spare.old }
    ensures some { IfSome put (λ p. vec_len spare.new ≡ vec_len spare.old + 1) }
    ensures capacity { vec_capacity spare.old ≤ vec_capacity spare.new }
{
    if let Some(put) = put {
        spare.push(put.bytes).unwrap();
    }
}

/// Puts a block into one row and takes it out of the other. Its bytes lie in a box that is spare; boxes
/// that older puts had are spare then.
pub(crate) fn put_over(
    into: &mut Vec<Put>,
    other: &mut Vec<Put>,
    spare: &mut Vec<BoxedBlock>,
    block: u32,
    from: &Block,
)
    requires into { IsRising into.old.items }
    requires other { IsRising other.old.items }
    requires some { 0 < vec_len spare.old }
    requires room { vec_len into.old < vec_capacity into.old }
    requires back { vec_len into.old + vec_len other.old + vec_len spare.old ≤ vec_capacity spare.old }
    ensures into { into.new.items ≡ with_put (record { block = block; bytes = from.now }) into.old.items }
    ensures other { other.new.items ≡ without_put block other.old.items }
    ensures into_capacity { vec_capacity into.new ≡ vec_capacity into.old }
    ensures other_capacity { vec_capacity other.new ≡ vec_capacity other.old }
    ensures spare_capacity { vec_capacity spare.old ≤ vec_capacity spare.new }
    ensures boxes { vec_len into.new + vec_len other.new + vec_len spare.new ≡ vec_len into.old + vec_len other.old + vec_len spare.old }
    ensures one { vec_len spare.old ≤ vec_len spare.new + 1 }
{
    let mut bytes = spare.pop().unwrap();
    bytes.set(from);
    let older = put_in(into, Put { block, bytes });
    give_back(spare, older);
    let apart = take_out(other, block);
    give_back(spare, apart);
}
