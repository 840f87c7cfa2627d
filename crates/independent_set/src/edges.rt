// The neighbours of an edge, told from the edges at its ends: those after it at the higher end, last first, then at the lower, then
// those before it, the same way. A loop has one end only.
ghost use Rattle.std.specs.Prelude.{◌≡◌, reverse, ℕ, ◌<◌};
ghost use Rattle.lists.specs.Member.{Mem};
ghost use Rattle.graph.specs.Edges.{edge_count};
ghost use Rattle.greedy.specs.IndependentSet.{put_off_all};
ghost use Rattle.items.specs.declared.Kind.TheVariants.{Edges};
ghost use Rattle.items.specs.Items.{neighbors_of};

use crate::list::Lists;
use edge_walk::IncidenceTable;
use graph::EdgeIndex;
use line_graph::node_of_edge;
use line_parts::part_at;

// The listed ones of these edges are put off, last first.
fn put_off_part(edges: &[u16], lists: &mut Lists)
    requires in_bounds { (j : ℕ) → Mem j edges.now → j < 4096 }
    ensures put_off { let edges = edges.entry.now in lists.new ≡ put_off_all lists.old (reverse edges) }
{
    for edge in edges.iter().rev() {
        lists.put_off(node_of_edge(EdgeIndex(*edge)));
    }
}

// The listed edges that share an end with an edge are put off, in the order of the line list.
pub(crate) fn put_off_sharing(table: IncidenceTable, lists: &mut Lists, edge: EdgeIndex)
    requires edge_in_bounds { edge.0 < edge_count table.ends.now }
    ensures put_off { let table = table.entry in lists.new ≡ put_off_all lists.old (neighbors_of Edges table.nodes table.ends.now edge.0) }
{
    for turn in 0..4 {
        let part = part_at(table.ends, table.starts, table.entries, edge, turn);
        put_off_part(part, lists);
    }
}
