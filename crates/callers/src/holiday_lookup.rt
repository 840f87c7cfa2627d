// The holiday lookup: no preset moved, of nodes and of edges, by every strategy.
ghost use Rattle.std.specs.Prelude.{◌≡◌};
ghost use Rattle.graph.specs.Report.{report_of};
ghost use Rattle.graph.specs.Edges.{edge_count};
ghost use Rattle.greedy.specs.Degree.{degree_colors};
ghost use Rattle.greedy.specs.Call.{rule_of, greedy_nodes, greedy_edges};
ghost use Rattle.callers.specs.Reliance.{NoPresetMoved};

use wulgranite::{
    ColoringStrategy, Refusal, greedy_edge_color_with_coloring_strategy,
    greedy_node_color_with_coloring_strategy, greedy_node_color_with_preset_colors,
};

pub fn no_preset_node_moved(
    n: usize,
    ends: &[u16],
    presets: &[u16],
    strategy: ColoringStrategy,
    colors: &mut [u16],
) -> Result<usize, Refusal>
    ensures report { let ends = ends.entry.now in let presets = presets.entry.now in let colors = colors.entry.now in
        report_of result ≡ (greedy_nodes (rule_of strategy) n ends presets colors).report }
    ensures colors { let ends = ends.entry.now in let presets = presets.entry.now in let colors₀ = colors.old in
        colors.new ≡ (greedy_nodes (rule_of strategy) n ends presets colors₀).colors }
    ensures relied { let ends = ends.entry.now in let presets = presets.entry.now in let colors₀ = colors.old in
        NoPresetMoved n ends n presets colors₀ (report_of result) colors.new }
{
    greedy_node_color_with_coloring_strategy(n, ends, presets, strategy, colors)
}

pub fn no_preset_node_moved_by_degree(
    n: usize,
    ends: &[u16],
    presets: &[u16],
    colors: &mut [u16],
) -> Result<usize, Refusal>
    ensures report { let ends = ends.entry.now in let presets = presets.entry.now in let colors = colors.entry.now in
        report_of result ≡ (greedy_nodes degree_colors n ends presets colors).report }
    ensures colors { let ends = ends.entry.now in let presets = presets.entry.now in let colors₀ = colors.old in
        colors.new ≡ (greedy_nodes degree_colors n ends presets colors₀).colors }
    ensures relied { let ends = ends.entry.now in let presets = presets.entry.now in let colors₀ = colors.old in
        NoPresetMoved n ends n presets colors₀ (report_of result) colors.new }
{
    greedy_node_color_with_preset_colors(n, ends, presets, colors)
}

pub fn no_preset_edge_moved(
    n: usize,
    ends: &[u16],
    presets: &[u16],
    strategy: ColoringStrategy,
    colors: &mut [u16],
) -> Result<usize, Refusal>
    ensures report { let ends = ends.entry.now in let presets = presets.entry.now in let colors = colors.entry.now in
        report_of result ≡ (greedy_edges (rule_of strategy) n ends presets colors).report }
    ensures colors { let ends = ends.entry.now in let presets = presets.entry.now in let colors₀ = colors.old in
        colors.new ≡ (greedy_edges (rule_of strategy) n ends presets colors₀).colors }
    ensures relied { let ends = ends.entry.now in let presets = presets.entry.now in let colors₀ = colors.old in
        NoPresetMoved n ends (edge_count ends) presets colors₀ (report_of result) colors.new }
{
    greedy_edge_color_with_coloring_strategy(n, ends, presets, strategy, colors)
}
