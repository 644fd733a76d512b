//! Writing a node: the one spelling of each. Whether a node fits a disk is described by reading.

ghost use Rattle.std.specs.Prelude.{◌≡◌, ◌≤◌, ◌+◌, ◌*◌, ◌++◌, length};
ghost use Rattle.arrayvec.specs.ArrayVec.{array_vec_len};
ghost use Rattle.layout_bytes.specs.Node.{kind_byte, most_runs, node_size, node_spelling, run_bytes};

use crate::sizes::{RUN_LENGTH, RUNS_AT, SPARE_AT};
use arrayvec::ArrayVec;
use base_types::limits::LONGEST_NODE;
use base_types::{Layout, Run, the_numbers_of_a_layout_go_together};
use layout_bytes::{Node, NodeKind, put, put_2, put_4, put_8, put_zeros};

/// The bytes of a node as far as they are written.
type Text = ArrayVec<u8, LONGEST_NODE>;

/// Writes the bytes of this node in place of all the bytes there, which are as many as a node of this layout
/// has. It must have no more runs than the layout has room for. This takes no memory.
pub fn write_node(node: &Node, into: &mut [u8], layout: Layout)
    requires size { length into.old ≡ node_size layout }
    requires few { length node.now.runs ≤ most_runs layout }
    ensures { into.new ≡ node_spelling layout node.now }
{
    the_numbers_of_a_layout_go_together();
    let mut text = ArrayVec::new();
    let runs = node.runs.as_slice();
    put(&mut text, &[kind_byte(node.kind), 0]);
    put_2(&mut text, runs.len() as u16);
    put_4(&mut text, node.links);
    put_8(&mut text, node.size);
    put_zeros(&mut text, RUNS_AT - SPARE_AT);
    put_runs(&mut text, runs);
    put_zeros(
        &mut text,
        layout.node_length() - RUNS_AT - RUN_LENGTH * runs.len(),
    );
    into.copy_from_slice(text.as_slice());
}

fn kind_byte(kind: NodeKind) -> u8
    ensures { result ≡ kind_byte kind }
{
    match kind {
        NodeKind::Free => 0,
        NodeKind::Dir => 1,
        NodeKind::File => 2,
        NodeKind::Snapshot => 3,
    }
}

/// Writes the runs one behind the other.
fn put_runs(text: &mut Text, runs: &[Run])
    requires { array_vec_len text.old + 8 * length runs.now ≤ 512 }
    ensures bytes { text.new.items ≡ text.old.items ++ run_bytes runs.now }
    ensures size { array_vec_len text.new ≡ array_vec_len text.old + 8 * length runs.now }
{
    for run in runs {
        put_4(text, run.first);
        put_4(text, run.count);
    }
}
