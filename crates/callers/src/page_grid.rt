// The page grid: boxes that touch differ. Boxes are nodes, or edges, which touch where they share an end.
ghost use Rattle.std.specs.Prelude.{◌≡◌, [], cond, take};
ghost use Rattle.graph.specs.Report.{report_of};
ghost use Rattle.graph.specs.Edges.{edge_count};
ghost use Rattle.days.specs.FewerDays.{fewer_days, FewestDays};
ghost use Rattle.greedy.specs.Degree.{degree_colors};
ghost use Rattle.greedy.specs.Call.{rule_of, greedy_nodes, greedy_nodes_plain, greedy_edges, greedy_edges_plain};
ghost use Rattle.callers.specs.Reliance.{AdjacentNodesDiffer, AdjacentEdgesDiffer, Lent, LentBoth};

use wulgranite::{
    ColoringStrategy, Refusal, fewer_days, greedy_edge_color,
    greedy_edge_color_with_coloring_strategy, greedy_node_color,
    greedy_node_color_with_coloring_strategy,
};

pub fn adjacent_nodes_differ(n: usize, ends: &[u16], colors: &mut [u16]) -> Result<usize, Refusal>
    ensures report { let ends = ends.entry.now in let colors = colors.entry.now in
        report_of result ≡ (greedy_nodes_plain degree_colors n ends colors).report }
    ensures colors { let ends = ends.entry.now in let colors₀ = colors.old in
        colors.new ≡ (greedy_nodes_plain degree_colors n ends colors₀).colors }
    ensures relied { let ends = ends.entry.now in let colors₀ = colors.old in
        AdjacentNodesDiffer n ends [] (Lent n colors₀) (report_of result) colors.new }
{
    greedy_node_color(n, ends, colors)
}

pub fn adjacent_nodes_differ_unless_preset(
    n: usize,
    ends: &[u16],
    presets: &[u16],
    strategy: ColoringStrategy,
    colors: &mut [u16],
) -> Result<usize, Refusal>
    ensures report { let ends = ends.entry.now in let presets = presets.entry.now in let colors = colors.entry.now in
        report_of result ≡ (greedy_nodes (rule_of strategy) n ends presets colors).report }
    ensures colors { let ends = ends.entry.now in let presets = presets.entry.now in let colors₀ = colors.old in
        colors.new ≡ (greedy_nodes (rule_of strategy) n ends presets colors₀).colors }
    ensures relied { let ends = ends.entry.now in let presets = presets.entry.now in let colors₀ = colors.old in
        AdjacentNodesDiffer n ends presets (LentBoth n presets colors₀) (report_of result) colors.new }
{
    greedy_node_color_with_coloring_strategy(n, ends, presets, strategy, colors)
}

pub fn adjacent_edges_differ(n: usize, ends: &[u16], colors: &mut [u16]) -> Result<usize, Refusal>
    ensures report { let ends = ends.entry.now in let colors = colors.entry.now in
        report_of result ≡ (greedy_edges_plain degree_colors n ends colors).report }
    ensures colors { let ends = ends.entry.now in let colors₀ = colors.old in
        colors.new ≡ (greedy_edges_plain degree_colors n ends colors₀).colors }
    ensures relied { let ends = ends.entry.now in let colors₀ = colors.old in
        AdjacentEdgesDiffer n ends [] (Lent (edge_count ends) colors₀) (report_of result) colors.new }
{
    greedy_edge_color(n, ends, colors)
}

pub fn adjacent_edges_differ_unless_preset(
    n: usize,
    ends: &[u16],
    presets: &[u16],
    strategy: ColoringStrategy,
    colors: &mut [u16],
) -> Result<usize, Refusal>
    ensures report { let ends = ends.entry.now in let presets = presets.entry.now in let colors = colors.entry.now in
        report_of result ≡ (greedy_edges (rule_of strategy) n ends presets colors).report }
    ensures colors { let ends = ends.entry.now in let presets = presets.entry.now in let colors₀ = colors.old in
        colors.new ≡ (greedy_edges (rule_of strategy) n ends presets colors₀).colors }
    ensures relied { let ends = ends.entry.now in let presets = presets.entry.now in let colors₀ = colors.old in
        AdjacentEdgesDiffer n ends presets (LentBoth (edge_count ends) presets colors₀) (report_of result) colors.new }
{
    greedy_edge_color_with_coloring_strategy(n, ends, presets, strategy, colors)
}

// Of two lists of days the one that has fewer.
pub fn fewest_days<'a>(first: &'a [u16], second: &'a [u16], m: usize) -> &'a [u16]
    ensures contents { let first = first.entry.now in let second = second.entry.now in let part = fewer_days first second m in
        result.now ≡ take part.length (cond part.second second first) }
    ensures place { let part = fewer_days first.now second.now m in
        (result.ref_ptr.0 ≡ cond part.second second.entry.ref_ptr.0 first.entry.ref_ptr.0)
        × (result.ref_ptr.1 ≡ cond part.second second.entry.ref_ptr.1 first.entry.ref_ptr.1) }
    ensures relied { FewestDays first.now second.now m result.now }
{
    fewer_days(first, second, m)
}
