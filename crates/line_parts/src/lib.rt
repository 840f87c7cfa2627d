// Of the line list, the part of an edge's neighbours that lie at one of its ends, after the edge or before it: those after it at the
// higher end, then at the lower, then those before it, the same way. A loop has one end only.
#![tactic(auto)]

ghost use Rattle.std.specs.Prelude.{◌≡◌, ◌==◌, ◌+◌, ◌*◌, position};
ghost use Rattle.graph.specs.Stretch.{stretch};
ghost use Rattle.line_list.specs.LineNeighbors.{higher_end, lower_end};
ghost use Rattle.greedy.specs.IndependentSet.{place_of};
ghost use Rattle.line_parts.specs.Parts.{part_in, part_from, part_at, part_start};

use edge_walk::{edges_at, end_at};
use graph::{EdgeIndex, NodeIndex};

// Where an edge stands among these.
fn place_of(edges: &[u16], edge: EdgeIndex) -> Option<usize>
    ensures answer { result ≡ position (λ x. x == edge.0) edges.now }
{
    edges.iter().position(|other| *other == edge.0)
}

// Of these edges those after an edge, or those before it.
fn part_of<'a>(edges: &'a [u16], edge: EdgeIndex, later: bool) -> &'a [u16]
    ensures contents { result.now ≡ part_in later edge.0 edges.now }
    ensures place { let edges₀ = edges.now in
        (result.ref_ptr.0 ≡ edges.entry.ref_ptr.0) × (result.ref_ptr.1 ≡ edges.entry.ref_ptr.1 + 2 * part_from later edge.0 edges₀) }
{
    match place_of(edges, edge) {
        Some(at) if later => &edges[at + 1..],
        Some(at) => &edges[..at],
        None if later => &edges[..0],
        None => edges,
    }
}

// An edge's ends in order, equal for a loop.
#[derive(Clone, Copy)]
struct EdgeEnds {
    pub higher: NodeIndex,
    pub lower: NodeIndex,
}

#[tactic(auto, using(crate::proofs::PartsLaws::higher_end_max, crate::proofs::PartsLaws::lower_end_min))]
fn ends_of(ends: &[u16], edge: EdgeIndex) -> EdgeEnds
    ensures answer { let ends = ends.entry.now in (result.higher.0 ≡ higher_end ends edge.0) × (result.lower.0 ≡ lower_end ends edge.0) }
{
    let k = edge.0 as usize;
    let first = end_at(ends, 2 * k);
    let second = end_at(ends, 2 * k + 1);
    EdgeEnds {
        higher: NodeIndex(first.0.max(second.0)),
        lower: NodeIndex(first.0.min(second.0)),
    }
}

// One of the four parts of the edges that share an end with an edge, in the order of the line list; of a turn from 4 on, a part before the edge again.
pub fn part_at<'a>(
    ends: &[u16],
    starts: &[u16],
    entries: &'a [u16],
    edge: EdgeIndex,
    turn: usize,
) -> &'a [u16]
    ensures contents { let starts = starts.entry.now in let entries = entries.entry.now in let ends = ends.entry.now in
        result.now ≡ part_at (stretch starts entries) ends edge.0 turn }
    ensures place { let starts = starts.entry.now in let entries₀ = entries.now in let ends = ends.entry.now in
        (result.ref_ptr.0 ≡ entries.entry.ref_ptr.0)
        × (result.ref_ptr.1 ≡ entries.entry.ref_ptr.1 + 2 * part_start starts entries₀ ends edge.0 turn) }
{
    let both = ends_of(ends, edge);
    // A turn stays a number: a caller counts the four off in order, and two tests tell which part it is, where an enum would take four arms.
    let later = turn < 2;
    if turn % 2 == 0 {
        return part_of(edges_at(starts, entries, both.higher), edge, later);
    }
    if both.higher == both.lower {
        return &entries[..0];
    }
    part_of(edges_at(starts, entries, both.lower), edge, later)
}
