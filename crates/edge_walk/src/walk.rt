// A walk over one node's edges. Its functions are thin: the work is `step_at`'s, and a caller with plain slices uses `edge_at`.
ghost use Rattle.std.specs.Prelude.{◌≡◌, ◌+◌, ◌*◌};
ghost use Rattle.graph.specs.Stretch.{bounds, stretch};
ghost use Rattle.edge_walk.specs.Walk.{step_at};

use crate::edges_at;
use graph::{EdgeIndex, NodeIndex};

// The walk over one node's edges: the stretch of the entries that it goes over, and the place reached.
#[derive(Clone, Copy)]
pub struct EdgeWalk<'a> {
    pub entries: &'a [u16],
    pub at: usize,
}

// The edge at a place of a stretch and the place after it; none at the end.
pub fn step_at(entries: &[u16], at: usize) -> Option<(EdgeIndex, usize)>
    ensures answer { result ≡ step_at entries.now at }
{
    if at < entries.len() {
        Some((EdgeIndex(entries[at]), at + 1))
    } else {
        None
    }
}

impl<'a> EdgeWalk<'a> {
    // The walk over a node's edges, at its start.
    pub fn of_node(starts: &[u16], entries: &'a [u16], node: NodeIndex) -> EdgeWalk<'a>
        ensures entries { let starts = starts.entry.now in let entries = entries.entry.now in
            result.entries.now ≡ stretch starts entries node.0 }
        ensures place { let starts = starts.entry.now in let entries₀ = entries.now in
            (result.entries.ref_ptr.0 ≡ entries.entry.ref_ptr.0)
            × (result.entries.ref_ptr.1 ≡ entries.entry.ref_ptr.1 + 2 * (bounds starts entries₀ node.0).start) }
        ensures at { result.at ≡ 0 }
    {
        EdgeWalk {
            entries: edges_at(starts, entries, node),
            at: 0,
        }
    }

    // What stands at the walk's place.
    pub fn peek(self) -> Option<(EdgeIndex, usize)>
        ensures answer { result ≡ step_at self.entry.entries.now self.entry.at }
    {
        step_at(self.entries, self.at)
    }

    // The same walk at another place.
    pub fn moved(self, at: usize) -> EdgeWalk<'a>
        ensures answer { (result.entries ≡ self.entry.entries) × (result.at ≡ at) }
    {
        EdgeWalk {
            entries: self.entries,
            at,
        }
    }
}

// What stands at a place of a node's walk.
pub fn edge_at(
    starts: &[u16],
    entries: &[u16],
    node: NodeIndex,
    at: usize,
) -> Option<(EdgeIndex, usize)>
    ensures answer { let starts = starts.entry.now in let entries = entries.entry.now in
        result ≡ step_at (stretch starts entries node.0) at }
{
    EdgeWalk::of_node(starts, entries, node).moved(at).peek()
}
