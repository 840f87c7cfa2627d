// One node's edges in the table, an edge's ends, and the walk over a node's edges.
#![tactic(auto)]

ghost use Rattle.std.specs.Prelude.{◌≡◌, ◌+◌, ◌*◌, get_or};
ghost use Rattle.graph.specs.Edges.{far_end};
ghost use Rattle.graph.specs.Stretch.{bounds, stretch};

use graph::{EdgeIndex, NodeIndex};

pub mod table;
pub mod walk;

pub use table::IncidenceTable;
pub use walk::{EdgeWalk, edge_at};

// The edges at a node, as a part of the entries. Starts that do not cover the node, fall, or pass the entries' end give the
// empty part at the front, so no caller has to show that the table is well made.
pub fn edges_at<'a>(starts: &[u16], entries: &'a [u16], node: NodeIndex) -> &'a [u16]
    ensures contents { let starts = starts.entry.now in let entries = entries.entry.now in result.now ≡ stretch starts entries node.0 }
    ensures place { let starts = starts.entry.now in let entries₀ = entries.now in
        (result.ref_ptr.0 ≡ entries.entry.ref_ptr.0)
        × (result.ref_ptr.1 ≡ entries.entry.ref_ptr.1 + 2 * (bounds starts entries₀ node.0).start) }
{
    let k = node.0 as usize;
    let next = k + 1;
    if starts.len() <= next {
        return &entries[0..0];
    }
    let start = starts[k] as usize;
    let end = starts[next] as usize;
    if end < start {
        return &entries[0..0];
    }
    if entries.len() < end {
        return &entries[0..0];
    }
    &entries[start..end]
}

// What stands at a place of the end list, 0 beyond it.
pub fn end_at(ends: &[u16], place: usize) -> NodeIndex
    ensures answer { result.0 ≡ get_or ends.now place 0 }
{
    if place < ends.len() {
        NodeIndex(ends[place])
    } else {
        NodeIndex(0)
    }
}

// The end of an edge that the node is not; for a loop, the node again.
pub fn far_end(ends: &[u16], edge: EdgeIndex, node: NodeIndex) -> NodeIndex
    ensures answer { result.0 ≡ far_end ends.now edge.0 node.0 }
{
    let k = edge.0 as usize;
    let first = end_at(ends, 2 * k);
    if first.0 == node.0 {
        end_at(ends, 2 * k + 1)
    } else {
        first
    }
}
