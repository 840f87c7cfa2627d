// The neighbours of a node: the far ends of its edges, in incidence order.
ghost use Rattle.std.specs.Prelude.{◌≡◌, ◌<◌};
ghost use Rattle.greedy.specs.IndependentSet.{put_off_all};
ghost use Rattle.items.specs.declared.Kind.TheVariants.{Nodes};
ghost use Rattle.items.specs.Items.{neighbors_of};

use crate::list::Lists;
use edge_walk::IncidenceTable;
use graph::{EdgeIndex, NodeIndex};

// The listed neighbours of a node are put off, in incidence order.
pub(crate) fn put_off_far_ends(table: IncidenceTable, lists: &mut Lists, node: NodeIndex)
    requires node_in_bounds { node.0 < table.nodes }
    ensures put_off { let table = table.entry in lists.new ≡ put_off_all lists.old (neighbors_of Nodes table.nodes table.ends.now node.0) }
{
    for edge in table.edges_at(node) {
        let far = table.far_end(EdgeIndex(*edge), node);
        lists.put_off(far);
    }
}
