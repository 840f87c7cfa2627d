// Stored colours of the first edges of a list: their number, the greatest, D, and the working list and the edge table made from them. Every function is total: what
// lies outside a slice reads as its default and takes no store.
#![tactic(auto)]

ghost use Rattle.std.specs.Prelude.{◌≡◌, ◌&&◌, ◌-◌, eqb};
ghost use Rattle.vizing.specs.MisraGries.{greatest_color};
ghost use Rattle.repaint.specs.Repaint.{state};
ghost use Rattle.stored_colors.specs.Stored.{longest_stretch, may_take, color_stored};

use edge_table::is_free;
use edge_walk::{edges_at, end_at};
use graph::{Color, EdgeIndex, Graph, NodeIndex};
use repaint::color_edge;

// One stored colour fewer than edges, none for none, and a place for each edge.
pub fn sizes_fit(m: usize, stored: usize, lent: usize) -> bool
    ensures answer { result ≡ (eqb stored (m - 1) && eqb lent m) }
{
    lent == m && stored == m.saturating_sub(1)
}

// The most edges that one of the first n nodes has in the incidence table.
#[tactic(auto, using(crate::proofs::StoredLaws::longest_none, crate::proofs::StoredLaws::longest_next))]
pub fn max_degree(n: u16, starts: &[u16], entries: &[u16]) -> usize
    ensures answer { result ≡ longest_stretch starts.now entries.now n }
{
    let mut most = 0;
    for v in 0..n {
        most = most.max(edges_at(starts, entries, NodeIndex(v)).len());
    }
    most
}

// Whether the colour is not above the limit, and no edge has it at either end of this one.
#[tactic(auto, unfolding(crate::specs::Stored::may_take, graph::specs::Edges::first_end, graph::specs::Edges::second_end))]
fn may_take(ends: &[u16], table: &[u16], edge: EdgeIndex, color: Color, limit: usize) -> bool
    ensures answer { result ≡ may_take ends.now table.now edge.0 color.0 limit }
{
    let k = edge.0 as usize;
    color.0 as usize <= limit
        && is_free(table, end_at(ends, 2 * k), color)
        && is_free(table, end_at(ends, 2 * k + 1), color)
}

// The edges take the stored colours in turn, in the working list and in the table, up to the first that may not take its own: a colour
// above the limit, or one that stands at an end already. The answer is whether all have theirs. More colours than a graph has edges are not
// looked at.
#[tactic(auto, using(crate::proofs::StoredLaws::too_many, crate::proofs::StoredLaws::stored_start, crate::proofs::StoredLaws::stored_stop, crate::proofs::StoredLaws::stored_next, crate::proofs::StoredLaws::stored_end))]
pub fn color_stored(
    ends: &[u16],
    stored: &[u16],
    limit: usize,
    work: &mut [u16],
    table: &mut [u16],
) -> bool
    ensures answer { result ≡ (color_stored ends.now stored.now limit (state work.old table.old)).all }
    ensures state { state work.new table.new ≡ (color_stored ends.now stored.now limit (state work.old table.old)).state }
{
    if stored.len() > Graph::MAX_EDGES {
        return false;
    }
    for (k, color) in stored.iter().enumerate() {
        let edge = EdgeIndex(k as u16);
        let color = Color(*color);
        if !may_take(ends, table, edge, color, limit) {
            return false;
        }
        color_edge(ends, work, table, edge, color);
    }
    true
}

// The greatest of the stored colours, 0 without any. A choice without a branch, so that the compiler can take many at once.
#[tactic(auto, using(crate::proofs::StoredLaws::greatest_mark, crate::proofs::StoredLaws::greatest_next, crate::proofs::StoredLaws::greatest_end))]
pub fn greatest_stored(stored: &[u16]) -> u16
    ensures answer { result ≡ greatest_color stored.now }
{
    let mut greatest = 0;
    for c in stored {
        let color = if *c == Color::NONE { 0 } else { *c };
        greatest = greatest.max(color);
    }
    greatest
}
