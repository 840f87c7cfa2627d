// Greedy colouring: the three public calls for nodes, and the calls for edges.
#![tactic(auto)]

ghost use Rattle.std.specs.Prelude.{◌≡◌, [], length};
ghost use Rattle.graph.specs.Report.{report_of, Accepted};
ghost use Rattle.graph.specs.Check.{Passed};
ghost use Rattle.graph.specs.Edges.{edge_count};
ghost use Rattle.greedy.specs.Degree.{degree_colors};
ghost use Rattle.greedy.specs.Call.{rule_of, greedy_nodes, greedy_nodes_plain, greedy_edges, greedy_edges_plain, PrecoloringKept, ProperNodeColoring, ProperEdgeColoring};

use graph::{Color, Graph, Refusal};
use greedy::ColoringStrategy;
use items::Kind;

// Degree without presets. The local list stands for as many empty presets as there are colours; where there are more colours
// than a graph may have nodes, the length is refused whatever the presets.
pub fn greedy_node_color(n: usize, ends: &[u16], colors: &mut [u16]) -> Result<usize, Refusal>
    ensures report { let ends = ends.entry.now in let colors = colors.entry.now in
        report_of result ≡ (greedy_nodes_plain degree_colors n ends colors).report }
    ensures colors { let ends = ends.entry.now in let colors₀ = colors.old in
        colors.new ≡ (greedy_nodes_plain degree_colors n ends colors₀).colors }
    ensures accepts { let ends = ends.entry.now in let colors = colors.entry.now in
        (Passed n ends → length colors ≡ n → Accepted (report_of result)) }
    ensures proper { ProperNodeColoring n ends.now [] (report_of result) colors.new }
{
    let presets = [Color::NONE; Graph::MAX_NODES];
    let lent = colors.len();
    if lent <= Graph::MAX_NODES {
        degree::color(Kind::Nodes, n, ends, &presets[..lent], colors)
    } else {
        degree::color(Kind::Nodes, n, ends, &presets, colors)
    }
}

// Degree with presets.
pub fn greedy_node_color_with_preset_colors(
    n: usize,
    ends: &[u16],
    presets: &[u16],
    colors: &mut [u16],
) -> Result<usize, Refusal>
    ensures report { let ends = ends.entry.now in let presets = presets.entry.now in let colors = colors.entry.now in
        report_of result ≡ (greedy_nodes degree_colors n ends presets colors).report }
    ensures colors { let ends = ends.entry.now in let presets = presets.entry.now in let colors₀ = colors.old in
        colors.new ≡ (greedy_nodes degree_colors n ends presets colors₀).colors }
    ensures accepts { let ends = ends.entry.now in let presets = presets.entry.now in let colors = colors.entry.now in
        (Passed n ends → length presets ≡ n → length colors ≡ n → Accepted (report_of result)) }
    ensures precoloring { PrecoloringKept n presets.now (report_of result) colors.new }
    ensures proper { let ends = ends.entry.now in let presets = presets.entry.now in
        ProperNodeColoring n ends presets (report_of result) colors.new }
{
    degree::color(Kind::Nodes, n, ends, presets, colors)
}

// Any strategy with presets.
pub fn greedy_node_color_with_coloring_strategy(
    n: usize,
    ends: &[u16],
    presets: &[u16],
    strategy: ColoringStrategy,
    colors: &mut [u16],
) -> Result<usize, Refusal>
    ensures report { let ends = ends.entry.now in let presets = presets.entry.now in let colors = colors.entry.now in
        report_of result ≡ (greedy_nodes (rule_of strategy) n ends presets colors).report }
    ensures colors { let ends = ends.entry.now in let presets = presets.entry.now in let colors₀ = colors.old in
        colors.new ≡ (greedy_nodes (rule_of strategy) n ends presets colors₀).colors }
    ensures accepts { let ends = ends.entry.now in let presets = presets.entry.now in let colors = colors.entry.now in
        (Passed n ends → length presets ≡ n → length colors ≡ n → Accepted (report_of result)) }
    ensures precoloring { PrecoloringKept n presets.now (report_of result) colors.new }
    ensures proper { let ends = ends.entry.now in let presets = presets.entry.now in
        ProperNodeColoring n ends presets (report_of result) colors.new }
{
    let nodes = Kind::Nodes;
    match strategy {
        ColoringStrategy::Degree => degree::color(nodes, n, ends, presets, colors),
        ColoringStrategy::Saturation => saturation::color(nodes, n, ends, presets, colors),
        ColoringStrategy::IndependentSet => independent_set::color(nodes, n, ends, presets, colors),
    }
}

// The edges by Degree without presets, in the same way.
pub fn greedy_edge_color(n: usize, ends: &[u16], colors: &mut [u16]) -> Result<usize, Refusal>
    ensures report { let ends = ends.entry.now in let colors = colors.entry.now in
        report_of result ≡ (greedy_edges_plain degree_colors n ends colors).report }
    ensures colors { let ends = ends.entry.now in let colors₀ = colors.old in
        colors.new ≡ (greedy_edges_plain degree_colors n ends colors₀).colors }
    ensures accepts { let ends = ends.entry.now in let colors = colors.entry.now in
        (Passed n ends → length colors ≡ edge_count ends → Accepted (report_of result)) }
    ensures proper { ProperEdgeColoring ends.now [] (report_of result) colors.new }
{
    let presets = [Color::NONE; Graph::MAX_EDGES];
    let lent = colors.len();
    if lent <= Graph::MAX_EDGES {
        degree::color(Kind::Edges, n, ends, &presets[..lent], colors)
    } else {
        degree::color(Kind::Edges, n, ends, &presets, colors)
    }
}

// The edges by any strategy with presets.
pub fn greedy_edge_color_with_coloring_strategy(
    n: usize,
    ends: &[u16],
    presets: &[u16],
    strategy: ColoringStrategy,
    colors: &mut [u16],
) -> Result<usize, Refusal>
    ensures report { let ends = ends.entry.now in let presets = presets.entry.now in let colors = colors.entry.now in
        report_of result ≡ (greedy_edges (rule_of strategy) n ends presets colors).report }
    ensures colors { let ends = ends.entry.now in let presets = presets.entry.now in let colors₀ = colors.old in
        colors.new ≡ (greedy_edges (rule_of strategy) n ends presets colors₀).colors }
    ensures accepts { let ends = ends.entry.now in let presets = presets.entry.now in let colors = colors.entry.now in
        (Passed n ends → length presets ≡ edge_count ends → length colors ≡ edge_count ends → Accepted (report_of result)) }
    ensures precoloring { let ends = ends.entry.now in let presets = presets.entry.now in
        PrecoloringKept (edge_count ends) presets (report_of result) colors.new }
    ensures proper { let ends = ends.entry.now in let presets = presets.entry.now in
        ProperEdgeColoring ends presets (report_of result) colors.new }
{
    let edges = Kind::Edges;
    match strategy {
        ColoringStrategy::Degree => degree::color(edges, n, ends, presets, colors),
        ColoringStrategy::Saturation => saturation::color(edges, n, ends, presets, colors),
        ColoringStrategy::IndependentSet => independent_set::color(edges, n, ends, presets, colors),
    }
}
