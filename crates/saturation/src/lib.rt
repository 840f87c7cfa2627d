// Greedy colouring by saturation, of nodes or of edges. The two counts that decide which item is next are kept up to date from turn to turn.
#![tactic(auto)]

ghost use Rattle.std.specs.Prelude.{◌≡◌, length};
ghost use Rattle.graph.specs.Report.{report_of};
ghost use Rattle.graph.specs.Color.{days_of};
ghost use Rattle.greedy.specs.Saturation.{saturation_colors};
ghost use Rattle.items.specs.Items.{items_of, neighbors_of, greedy_of};

use days::days_of;
use graph::{CheckedGraph, Graph, Refusal};
use incidence::incidence_table;
use items::{Items, Kind, check_items};
use turns::run;

mod counts;
mod turns;

// A graph that passed the checks, with a preset and a colour for each item. The answer is how many days the colours take.
fn color_checked(kind: Kind, graph: CheckedGraph<'_>, presets: &[u16], colors: &mut [u16]) -> usize
    requires presets_len { (length presets.now ≡ items_of kind graph.nodes graph.ends.now) × (length colors.old ≡ items_of kind graph.nodes graph.ends.now) }
    ensures answer { result ≡ days_of colors.new }
    ensures colors { let graph = graph.entry in let presets = presets.entry.now in
        colors.new ≡ saturation_colors (neighbors_of kind graph.nodes graph.ends.now) (items_of kind graph.nodes graph.ends.now) presets }
{
    let mut starts = [0u16; Graph::STARTS];
    let mut entries = [0u16; Graph::ENTRIES];
    let table = incidence_table(graph, &mut starts, &mut entries);
    let items = Items::new(kind, table);
    let mut saturations = [0u16; Graph::MAX_EDGES];
    let mut waiting = [0u16; Graph::MAX_EDGES];
    run(items, presets, colors, &mut saturations, &mut waiting);
    days_of(colors)
}

// Presets are set first; then the item with the most different colours on its neighbours is next, among these the one with the most
// uncoloured neighbours, among these the lowest. It takes the smallest colour that no neighbour has.
pub fn color(
    kind: Kind,
    n: usize,
    ends: &[u16],
    presets: &[u16],
    colors: &mut [u16],
) -> Result<usize, Refusal>
    ensures report { let ends = ends.entry.now in let presets = presets.entry.now in let colors = colors.entry.now in
        report_of result ≡ (greedy_of kind saturation_colors n ends presets colors).report }
    ensures colors { let ends = ends.entry.now in let presets = presets.entry.now in let colors₀ = colors.old in
        colors.new ≡ (greedy_of kind saturation_colors n ends presets colors₀).colors }
{
    check_items(kind, n, ends, presets.len(), colors.len())?;
    let graph = CheckedGraph { nodes: n, ends };
    Ok(color_checked(kind, graph, presets, colors))
}
