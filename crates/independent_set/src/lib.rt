// Greedy colouring by independent sets, of nodes and of edges; the edges by the line list, which is never stored.
#![tactic(auto)]

ghost use Rattle.std.specs.Prelude.{◌≡◌, length};
ghost use Rattle.graph.specs.Report.{report_of};
ghost use Rattle.greedy.specs.IndependentSet.{independent_set_colors};
ghost use Rattle.items.specs.Items.{items_of, neighbors_of, greedy_of};

use crate::list::Lists;
use days::days_of;
use graph::{CheckedGraph, Graph, Refusal, copy_colors};
use incidence::incidence_table;
use items::{Items, Kind, check_items};
use rounds::color_rounds;

mod edges;
mod list;
mod nodes;
mod rounds;

// The items of a graph that passed the checks, with a preset and a colour for each. Not inlined: its arrays leave the stack before the days
// are counted.
#[inline(never)]
fn color_checked(kind: Kind, graph: CheckedGraph, presets: &[u16], colors: &mut [u16])
    requires presets_len { (length presets.now ≡ items_of kind graph.nodes graph.ends.now) × (length colors.old ≡ items_of kind graph.nodes graph.ends.now) }
    ensures colors { let graph = graph.entry in let presets = presets.entry.now in
        colors.new ≡ independent_set_colors (neighbors_of kind graph.nodes graph.ends.now) (items_of kind graph.nodes graph.ends.now) presets }
{
    let mut starts = [0u16; Graph::STARTS];
    let mut entries = [0u16; Graph::ENTRIES];
    let table = incidence_table(graph, &mut starts, &mut entries);
    let items = Items::new(kind, table);
    let mut lists = Lists::new();
    lists.list_uncolored(presets);
    copy_colors(presets, colors);
    color_rounds(items, presets, &mut lists, colors);
}

// Presets stand as they are; the other items are coloured by independent sets, round by round. An input that is refused leaves the colours
// as lent.
pub fn color(
    kind: Kind,
    n: usize,
    ends: &[u16],
    presets: &[u16],
    colors: &mut [u16],
) -> Result<usize, Refusal>
    ensures report { let ends = ends.entry.now in let presets = presets.entry.now in let colors = colors.entry.now in
        report_of result ≡ (greedy_of kind independent_set_colors n ends presets colors).report }
    ensures colors { let ends = ends.entry.now in let presets = presets.entry.now in let colors₀ = colors.old in
        colors.new ≡ (greedy_of kind independent_set_colors n ends presets colors₀).colors }
{
    check_items(kind, n, ends, presets.len(), colors.len())?;
    let graph = CheckedGraph { nodes: n, ends };
    color_checked(kind, graph, presets, colors);
    let days = days_of(colors);
    Ok(days)
}
