// What is coloured: the nodes of a graph, or its edges. A node's neighbours lie across its edges; an edge's are the other edges at its ends.
// An item is a node of the graph that is coloured: of the graph itself, or of its line graph, whose nodes are the edges.
#![tactic(auto)]

ghost use Rattle.std.specs.Prelude.{◌≡◌};
ghost use Rattle.graph.specs.Report.{report_of_checked};
ghost use Rattle.greedy.specs.Call.{check_items};
ghost use Rattle.items.specs.Items.{items_of, first_node, second_node, across_of, count_at, neighbor_count, free_color};

mod table;

use edge_walk::{edges_at, end_at, far_end};
use graph::{Color, EdgeIndex, Graph, NodeIndex, Refusal};
use greedy::{check_edges, check_nodes};
use line_graph::{edge_of_node, node_of_edge};
use smallest_color::{smallest_color, smallest_edge_color};
pub use table::Items;

// Which items are coloured.
#[derive(Clone, Copy, PartialEq, Eq, Debug)]
pub enum Kind {
    Nodes,
    Edges,
}

// The checks of colouring these items, given how many presets and colours are lent.
#[tactic(auto, unfolding(greedy::specs::Call::check_nodes, greedy::specs::Call::check_edges))]
pub fn check_items(
    kind: Kind,
    n: usize,
    ends: &[u16],
    presets: usize,
    colors: usize,
) -> Result<Graph, Refusal>
    ensures report { let ends = ends.entry.now in report_of_checked result ≡ check_items n ends (items_of kind n ends) presets colors }
{
    match kind {
        Kind::Nodes => check_nodes(n, ends, presets, colors),
        Kind::Edges => check_edges(n, ends, presets, colors),
    }
}

// The first node of an item: a node itself, or an edge's first end.
#[tactic(auto, unfolding(crate::specs::Items::first_node, graph::specs::Edges::first_end))]
pub fn first_node(kind: Kind, ends: &[u16], item: NodeIndex) -> NodeIndex
    ensures answer { result.0 ≡ first_node kind ends.now item.0 }
{
    match kind {
        Kind::Nodes => item,
        Kind::Edges => end_at(ends, 2 * edge_of_node(item).0 as usize),
    }
}

// The second node of an item: a node itself again, or an edge's second end.
#[tactic(auto, unfolding(crate::specs::Items::second_node, graph::specs::Edges::second_end))]
pub fn second_node(kind: Kind, ends: &[u16], item: NodeIndex) -> NodeIndex
    ensures answer { result.0 ≡ second_node kind ends.now item.0 }
{
    match kind {
        Kind::Nodes => item,
        Kind::Edges => end_at(ends, 2 * edge_of_node(item).0 as usize + 1),
    }
}

// The item to which an edge leads from a node: its far end, or the edge itself.
#[tactic(auto, unfolding(crate::specs::Items::across_of))]
pub fn across(kind: Kind, ends: &[u16], edge: EdgeIndex, node: NodeIndex) -> NodeIndex
    ensures answer { result.0 ≡ across_of kind ends.now edge.0 node.0 }
{
    match kind {
        Kind::Nodes => far_end(ends, edge, node),
        Kind::Edges => node_of_edge(edge),
    }
}

// How many edges stand at a node of an item, an edge itself not counted.
#[tactic(auto, unfolding(crate::specs::Items::count_at, crate::specs::Items::own_of))]
fn count_at(kind: Kind, starts: &[u16], entries: &[u16], node: NodeIndex) -> usize
    ensures answer { let starts = starts.entry.now in let entries = entries.entry.now in result ≡ count_at kind starts entries node.0 }
{
    let count = edges_at(starts, entries, node).len();
    match kind {
        Kind::Nodes => count,
        Kind::Edges => count.saturating_sub(1),
    }
}

// How many neighbours the table gives an item. Where the graph passed the checks and the table is its own, it has as many (neighbors_counted).
#[tactic(auto, unfolding(crate::specs::Items::neighbor_count))]
pub fn neighbor_count(
    kind: Kind,
    ends: &[u16],
    starts: &[u16],
    entries: &[u16],
    item: NodeIndex,
) -> usize
    ensures answer { let ends = ends.entry.now in let starts = starts.entry.now in let entries = entries.entry.now in
        result ≡ neighbor_count kind ends starts entries item.0 }
{
    let first = first_node(kind, ends, item);
    let second = second_node(kind, ends, item);
    let count = count_at(kind, starts, entries, first);
    if first == second {
        return count;
    }
    count + count_at(kind, starts, entries, second)
}

// The smallest colour at no far end of a node's edges, or on no edge at an edge's ends. Where the graph passed the checks and the table is its
// own, it is for an item without a colour the smallest that no neighbour has (free_smallest).
#[tactic(auto, unfolding(crate::specs::Items::free_color))]
pub fn free_color(
    kind: Kind,
    ends: &[u16],
    starts: &[u16],
    entries: &[u16],
    colors: &[u16],
    item: NodeIndex,
) -> Color
    ensures answer { let ends = ends.entry.now in let starts = starts.entry.now in let entries = entries.entry.now in
        let colors = colors.entry.now in
        result.0 ≡ free_color kind ends starts entries colors item.0 }
{
    match kind {
        Kind::Nodes => smallest_color(ends, starts, entries, colors, item),
        Kind::Edges => smallest_edge_color(ends, starts, entries, colors, edge_of_node(item)),
    }
}
