// The items of a graph with its incidence table.
ghost use Rattle.std.specs.Prelude.{◌≡◌};
ghost use Rattle.items.specs.Items.{items_of};

use crate::{Kind, across, first_node, free_color, neighbor_count, second_node};
use edge_walk::IncidenceTable;
use graph::{Color, EdgeIndex, NodeIndex};

// Which items of a graph are coloured, the graph with its table, and how many items it has.
#[derive(Clone, Copy)]
pub struct Items<'a> {
    pub kind: Kind,
    pub table: IncidenceTable<'a>,
    pub count: usize,
    pub ghost counted: { count ≡ items_of kind table.nodes table.ends.now },
}

impl<'a> Items<'a> {
    ghost use Rattle.items.specs.Items.{first_node, second_node, across_of, neighbor_count, free_color};

    pub fn new(kind: Kind, table: IncidenceTable<'a>) -> Items<'a>
        ensures count { let table = table.entry in result.count ≡ items_of kind table.nodes table.ends.now }
        ensures same { (result.kind ≡ kind) × (result.table ≡ table.entry) }
    {
        let count = match kind {
            Kind::Nodes => table.nodes,
            Kind::Edges => table.ends.len() / 2,
        };
        Items { kind, table, count }
    }

    // The first node of an item: a node itself, or an edge's first end.
    pub fn first_node(self, item: NodeIndex) -> NodeIndex
        ensures answer { let items = self.entry in result.0 ≡ first_node items.kind items.table.ends.now item.0 }
    {
        first_node(self.kind, self.table.ends, item)
    }

    // The second node of an item: a node itself again, or an edge's second end.
    pub fn second_node(self, item: NodeIndex) -> NodeIndex
        ensures answer { let items = self.entry in result.0 ≡ second_node items.kind items.table.ends.now item.0 }
    {
        second_node(self.kind, self.table.ends, item)
    }

    // The item to which an edge leads from a node: its far end, or the edge itself.
    pub fn across(self, edge: EdgeIndex, node: NodeIndex) -> NodeIndex
        ensures answer { let items = self.entry in result.0 ≡ across_of items.kind items.table.ends.now edge.0 node.0 }
    {
        across(self.kind, self.table.ends, edge, node)
    }

    // How many neighbours the table gives an item.
    pub fn neighbor_count(self, item: NodeIndex) -> usize
        ensures answer { let items = self.entry in
            result ≡ neighbor_count items.kind items.table.ends.now items.table.starts.now items.table.entries.now item.0 }
    {
        neighbor_count(
            self.kind,
            self.table.ends,
            self.table.starts,
            self.table.entries,
            item,
        )
    }

    // The smallest colour at no far end of a node's edges, or on no edge at an edge's ends.
    pub fn free_color(self, colors: &[u16], item: NodeIndex) -> Color
        ensures answer { let items = self.entry in let colors = colors.entry.now in
            result.0 ≡ free_color items.kind items.table.ends.now items.table.starts.now items.table.entries.now colors item.0 }
    {
        free_color(
            self.kind,
            self.table.ends,
            self.table.starts,
            self.table.entries,
            colors,
            item,
        )
    }
}
