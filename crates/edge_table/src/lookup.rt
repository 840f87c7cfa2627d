// What the table says of a node and a colour, and the working list of an edge.
ghost use Rattle.std.specs.Prelude.{◌≡◌};
ghost use Rattle.graph.specs.Colored.{color_of};
ghost use Rattle.edge_table.specs.EdgeTable.{option_of, entry_at, table_edge, is_empty, smallest_empty};

use crate::{EdgeTable, Entry};
use graph::{Color, EdgeIndex, NodeIndex};

// A node without a place must not be read from the next row.
#[tactic(auto, unfolding(crate::specs::EdgeTable::entry_at))]
fn entry_at(table: &[u16], node: NodeIndex, color: Color) -> Entry
    ensures answer { result.0 ≡ entry_at table.now node.0 color.0 }
{
    let v = node.0 as usize;
    if EdgeTable::NODES <= v {
        return Entry::NONE;
    }
    let place = color.0 as usize * EdgeTable::NODES + v;
    if table.len() <= place {
        return Entry::NONE;
    }
    Entry(table[place])
}

// The edge of this colour at the node.
#[tactic(auto, using(crate::proofs::EdgeTableLaws::reads_none, crate::proofs::EdgeTableLaws::reads_edge))]
pub fn edge_of_color(table: &[u16], node: NodeIndex, color: Color) -> Option<EdgeIndex>
    ensures answer { option_of result ≡ table_edge table.now node.0 color.0 }
{
    let entry = entry_at(table, node, color);
    if entry == Entry::NONE {
        None
    } else {
        Some(EdgeIndex(entry.0))
    }
}

// Whether no edge at the node has this colour.
#[tactic(auto, using(crate::proofs::EdgeTableLaws::reads_empty))]
pub fn is_free(table: &[u16], node: NodeIndex, color: Color) -> bool
    ensures answer { result ≡ is_empty table.now node.0 color.0 }
{
    entry_at(table, node, color) == Entry::NONE
}

// The smallest colour that no edge at the node has, or the number of colours if each is there.
#[tactic(auto, using(crate::proofs::EdgeTableLaws::empty_start, crate::proofs::EdgeTableLaws::empty_found, crate::proofs::EdgeTableLaws::empty_next, crate::proofs::EdgeTableLaws::empty_none))]
pub fn smallest_free(table: &[u16], node: NodeIndex) -> Color
    ensures answer { result.0 ≡ smallest_empty table.now node.0 }
{
    for c in 0..EdgeTable::COLORS {
        let color = Color(c as u16);
        if is_free(table, node, color) {
            return color;
        }
    }
    Color(EdgeTable::COLORS as u16)
}

// What the working list holds for an edge; none beyond it.
#[tactic(auto, unfolding(graph::specs::Colored::color_of))]
pub fn color_of(work: &[u16], edge: EdgeIndex) -> Color
    ensures answer { result.0 ≡ color_of work.now edge.0 }
{
    let k = edge.0 as usize;
    work.get(k).copied().map_or(Color::none(), Color)
}
