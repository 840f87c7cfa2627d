// Greedy colouring by falling degree, of a graph's nodes or of its edges: the strategy over the graph or over its line graph, which is
// never stored.
#![tactic(auto)]

ghost use Rattle.std.specs.Prelude.{◌≡◌, ℕ, ◌≤◌, ◌<◌, length, get_or, replicate};
ghost use Rattle.graph.specs.Report.{report_of};
ghost use Rattle.graph.specs.Color.{days_of};
ghost use Rattle.greedy.specs.Degree.{color_in_order, degree_colors};
ghost use Rattle.items.specs.Items.{items_of, neighbors_of, greedy_of};
ghost use Rattle.degree.specs.Color.{Waiting, OrderRoom};

use days::days_of;
use graph::{CheckedGraph, Graph, NodeIndex, Refusal, copy_colors};
use incidence::incidence_table;
use items::{Items, Kind, check_items};
use order::falling_order;

mod order;

// How many neighbours each item has.
fn note_degrees(items: Items<'_>, degrees: &mut [u16])
    requires room { items.count ≤ length degrees.old }
    ensures degrees { let items = items.entry in
        (v : ℕ) → v < items.count → get_or degrees.new v 0 ≡ length (neighbors_of items.kind items.table.nodes items.table.ends.now v) }
{
    for item in 0..items.count {
        degrees[item] = items.neighbor_count(NodeIndex(item as u16)) as u16;
    }
}

// Each item of the order takes the smallest colour that no neighbour has.
fn color_in_order(items: Items<'_>, order: &[u16], colors: &mut [u16])
    requires size { length colors.old ≡ items.count }
    requires waiting { Waiting order.now colors.old }
    ensures colors { let items = items.entry in let order = order.entry.now in let colors₀ = colors.old in
        colors.new ≡ color_in_order (neighbors_of items.kind items.table.nodes items.table.ends.now) order colors₀ }
{
    for &item in order {
        colors[item as usize] = items.free_color(colors, NodeIndex(item)).0;
    }
}

// A graph that passed the checks, with a preset and a colour for each item, at most ITEMS of them with fewer than COUNTS neighbours each. The
// answer is how many days the colours take. Not inlined: the arrays of both kinds would stand on the stack at once.
#[inline(never)]
fn color_checked<const ITEMS: usize, const COUNTS: usize>(
    kind: Kind,
    graph: CheckedGraph<'_>,
    presets: &[u16],
    colors: &mut [u16],
) -> usize
    requires presets_len { (length presets.now ≡ items_of kind graph.nodes graph.ends.now) × (length colors.old ≡ items_of kind graph.nodes graph.ends.now) }
    requires limits { (ITEMS ≤ 4096) × (COUNTS ≤ 8192) }
    requires order_room { OrderRoom kind graph.nodes graph.ends.now (replicate ITEMS 0) (replicate COUNTS 0) (replicate ITEMS 0) }
    ensures answer { result ≡ days_of colors.new }
    ensures colors { let graph = graph.entry in let presets = presets.entry.now in
        colors.new ≡ degree_colors (neighbors_of kind graph.nodes graph.ends.now) (items_of kind graph.nodes graph.ends.now) presets }
{
    let mut starts = [0u16; Graph::STARTS];
    let mut entries = [0u16; Graph::ENTRIES];
    let table = incidence_table(graph, &mut starts, &mut entries);
    let items = Items::new(kind, table);
    let mut degrees = [0u16; ITEMS];
    note_degrees(items, &mut degrees);
    let mut counts = [0u16; COUNTS];
    let mut order = [0u16; ITEMS];
    let count = falling_order(&degrees, presets, &mut counts, &mut order);
    copy_colors(presets, colors);
    color_in_order(items, &order[..count], colors);
    days_of(colors)
}

// The items of this kind: a node has at most 4,096 neighbours, an edge at most 4,095 at each end. With the kind a constant in each arm the
// compiler makes a function for each, which leaves out what the other kind needs; the counts are a multiple of 4, since it takes four in a row.
fn color_items(kind: Kind, graph: CheckedGraph<'_>, presets: &[u16], colors: &mut [u16]) -> usize
    requires presets_len { (length presets.now ≡ items_of kind graph.nodes graph.ends.now) × (length colors.old ≡ items_of kind graph.nodes graph.ends.now) }
    ensures answer { result ≡ days_of colors.new }
    ensures colors { let graph = graph.entry in let presets = presets.entry.now in
        colors.new ≡ degree_colors (neighbors_of kind graph.nodes graph.ends.now) (items_of kind graph.nodes graph.ends.now) presets }
{
    match kind {
        Kind::Nodes => color_checked::<{ Graph::MAX_NODES }, 4100>(
            Kind::Nodes,
            graph,
            presets,
            colors,
        ),
        Kind::Edges => color_checked::<{ Graph::MAX_EDGES }, 8192>(
            Kind::Edges,
            graph,
            presets,
            colors,
        ),
    }
}

// Presets stand as they are; the other items, by falling degree, ties by rising number, each take the smallest colour that no coloured
// neighbour has. An input that is refused leaves the colours as lent.
pub fn color(
    kind: Kind,
    n: usize,
    ends: &[u16],
    presets: &[u16],
    colors: &mut [u16],
) -> Result<usize, Refusal>
    ensures report { let ends = ends.entry.now in let presets = presets.entry.now in let colors = colors.entry.now in
        report_of result ≡ (greedy_of kind degree_colors n ends presets colors).report }
    ensures colors { let ends = ends.entry.now in let presets = presets.entry.now in let colors₀ = colors.old in
        colors.new ≡ (greedy_of kind degree_colors n ends presets colors₀).colors }
{
    check_items(kind, n, ends, presets.len(), colors.len())?;
    let graph = CheckedGraph { nodes: n, ends };
    Ok(color_items(kind, graph, presets, colors))
}
