// Edges lose and take colours, in the working list and in the edge table alike. Every function is total: what lies outside a slice
// reads as its default and takes no store.
#![tactic(auto)]

ghost use Rattle.std.specs.Prelude.{◌≡◌, set};
ghost use Rattle.repaint.specs.Repaint.{entered, entered_at_ends, state, uncolored, colored, all_uncolored, all_colored, repainted};

use edge_table::{EdgeTable, Entry, color_of};
use edge_walk::end_at;
use graph::{Color, EdgeIndex, NodeIndex};

// A node without a place must not be entered in the next row.
#[tactic(auto, using(crate::proofs::RepaintLaws::entered_no_place, crate::proofs::RepaintLaws::entered_past_end, crate::proofs::RepaintLaws::entered_place))]
fn enter(table: &mut [u16], node: NodeIndex, color: Color, entry: Entry)
    ensures table { table.new ≡ entered table.old node.0 color.0 entry.0 }
{
    let v = node.0 as usize;
    if EdgeTable::NODES <= v {
        return;
    }
    let place = color.0 as usize * EdgeTable::NODES + v;
    if place < table.len() {
        table[place] = entry.0;
    }
}

#[tactic(auto, using(crate::proofs::RepaintLaws::enter_both))]
fn enter_at_ends(ends: &[u16], table: &mut [u16], edge: EdgeIndex, color: Color, entry: Entry)
    ensures table { table.new ≡ entered_at_ends ends.now table.old edge.0 color.0 entry.0 }
{
    let k = edge.0 as usize;
    let first = end_at(ends, 2 * k);
    let second = end_at(ends, 2 * k + 1);
    enter(table, first, color, entry);
    enter(table, second, color, entry);
}

fn set_color(work: &mut [u16], edge: EdgeIndex, color: Color)
    ensures work { work.new ≡ set work.old edge.0 color.0 }
{
    let k = edge.0 as usize;
    if k < work.len() {
        work[k] = color.0;
    }
}

// The edge loses its colour. Without one there is nothing to clear: none has no place in the table.
#[tactic(auto, using(crate::proofs::RepaintLaws::uncolor_leaves))]
fn uncolor(ends: &[u16], work: &mut [u16], table: &mut [u16], edge: EdgeIndex)
    ensures state { state work.new table.new ≡ uncolored ends.now (state work.old table.old) edge.0 }
{
    let color = color_of(work, edge);
    enter_at_ends(ends, table, edge, color, Entry::NONE);
    set_color(work, edge, Color::none());
}

// The edge, which has no colour, takes this one.
#[tactic(auto, using(crate::proofs::RepaintLaws::color_leaves))]
pub fn color_edge(ends: &[u16], work: &mut [u16], table: &mut [u16], edge: EdgeIndex, color: Color)
    ensures state { state work.new table.new ≡ colored ends.now (state work.old table.old) edge.0 color.0 }
{
    enter_at_ends(ends, table, edge, color, Entry(edge.0));
    set_color(work, edge, color);
}

#[tactic(auto, using(crate::proofs::RepaintLaws::uncolor_next, crate::proofs::RepaintLaws::uncolor_end))]
fn uncolor_all(ends: &[u16], work: &mut [u16], table: &mut [u16], edges: &[u16])
    ensures state { state work.new table.new ≡ all_uncolored ends.now (state work.old table.old) edges.now }
{
    for edge in edges {
        uncolor(ends, work, table, EdgeIndex(*edge));
    }
}

fn color_all(ends: &[u16], work: &mut [u16], table: &mut [u16], edges: &[u16], colors: &[u16])
    ensures state { state work.new table.new ≡ all_colored ends.now (state work.old table.old) edges.now colors.now }
{
    for (edge, color) in edges.iter().zip(colors) {
        color_edge(ends, work, table, EdgeIndex(*edge), Color(*color));
    }
}

// The edges take these colours in place of their own. All lose theirs first: an edge's new colour may still stand on the next.
#[tactic(auto, using(crate::proofs::RepaintLaws::repaint_leaves))]
pub fn repaint(ends: &[u16], work: &mut [u16], table: &mut [u16], edges: &[u16], colors: &[u16])
    ensures state { state work.new table.new ≡ repainted ends.now (state work.old table.old) edges.now colors.now }
{
    uncolor_all(ends, work, table, edges);
    color_all(ends, work, table, edges, colors);
}
