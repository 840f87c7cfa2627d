// The candidates of a fan (step 1). The edges in it are those whose mark is the stamp of this step.
ghost use Rattle.std.specs.Prelude.{◌≡◌, ◌+◌, get_or, set, drop};
ghost use Rattle.lists.specs.Search.{first_place, first_that};
ghost use Rattle.edge_table.specs.EdgeTable.{option_of};
ghost use Rattle.fan.specs.Candidates.{may_join, joins_marked};

use edge_table::{color_of, is_free};
use graph::{Color, EdgeIndex, NodeIndex};

// The stamp of the last step whose fan had the edge, 0 if none had.
fn mark_of(marks: &[u16], edge: EdgeIndex) -> u16
    ensures answer { result ≡ get_or marks.now edge.0 0 }
{
    marks.get(edge.0 as usize).copied().unwrap_or(0)
}

pub fn set_mark(marks: &mut [u16], edge: EdgeIndex, stamp: u16)
    ensures marks { marks.new ≡ set marks.old edge.0 stamp }
{
    let k = edge.0 as usize;
    if k < marks.len() {
        marks[k] = stamp;
    }
}

// Whether the edge is coloured and not in the fan yet.
#[tactic(auto, unfolding(crate::specs::Candidates::may_join, graph::specs::Colored::is_colored))]
fn may_join(work: &[u16], marks: &[u16], stamp: u16, edge: EdgeIndex) -> bool
    ensures answer { result ≡ may_join work.now marks.now stamp edge.0 }
{
    mark_of(marks, edge) != stamp && color_of(work, edge) != Color::none()
}

// Whether the edge joins the fan whose last edge has this far end. The mark comes last: most candidates fail at the table.
#[tactic(auto, unfolding(crate::specs::Candidates::may_join, crate::specs::Candidates::joins_marked, graph::specs::Colored::is_colored))]
fn joins(
    work: &[u16],
    table: &[u16],
    marks: &[u16],
    stamp: u16,
    far: NodeIndex,
    edge: EdgeIndex,
) -> bool
    ensures answer { result ≡ joins_marked work.now table.now marks.now stamp far.0 edge.0 }
{
    let color = color_of(work, edge);
    color != Color::none() && is_free(table, far, color) && mark_of(marks, edge) != stamp
}

// The first candidate from this place on that joins.
pub fn first_joining(
    work: &[u16],
    table: &[u16],
    marks: &[u16],
    stamp: u16,
    far: NodeIndex,
    near: &[u16],
    from: usize,
) -> Option<EdgeIndex>
    ensures answer { option_of result ≡ first_that (joins_marked work.now table.now marks.now stamp far.0) (drop from near.now) }
{
    // By place, since a search over near.get(from..) takes up to an eighth longer.
    for i in from..near.len() {
        let edge = EdgeIndex(near[i]);
        if joins(work, table, marks, stamp, far, edge) {
            return Some(edge);
        }
    }
    None
}

// The first place from this one on whose candidate is coloured and not in the fan yet, or the end; from beyond the end, the place itself.
#[tactic(auto, using(crate::proofs::CandidateLaws::place_here, crate::proofs::CandidateLaws::place_next, crate::proofs::CandidateLaws::place_end))]
pub fn skip(work: &[u16], marks: &[u16], stamp: u16, near: &[u16], from: usize) -> usize
    ensures answer { result ≡ from + first_place (may_join work.now marks.now stamp) (drop from near.now) }
{
    for i in from..near.len() {
        if may_join(work, marks, stamp, EdgeIndex(near[i])) {
            return i;
        }
    }
    from.max(near.len())
}
