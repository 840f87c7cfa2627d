// Two colours for the nodes of a graph, so that neighbours differ, or a plain no.
#![tactic(auto)]

ghost use Rattle.std.specs.Prelude.{◌≡◌, ℕ, ◌≤◌, ◌<◌, length, get_or};
ghost use Rattle.graph.specs.Report.{report_of};
ghost use Rattle.two_color.specs.TwoColor.{two_color, sides_outcome, side_days, Bipartition};

use graph::{CheckedGraph, Graph, Refusal};

mod components;

// The colours as bytes.
fn copy_out(sides: &[u16], colors: &mut [u8])
    requires { (length colors.old ≡ length sides.now) × ((i : ℕ) → i < length sides.now → get_or sides.now i 0 ≤ 1) }
    ensures colors { colors.new ≡ sides.now }
{
    for (i, side) in sides.iter().enumerate() {
        colors[i] = *side as u8;
    }
}

// The days without counting: the ends of an edge have both colours; without edges every node has 1.
#[tactic(auto, unfolding(crate::specs::TwoColor::side_days))]
fn days_of_sides(n: usize, m: usize) -> usize
    ensures answer { result ≡ side_days n m }
{
    if 0 < m {
        2
    } else if 0 < n {
        1
    } else {
        0
    }
}

// A graph that passed the checks, and a place for each node.
fn color_checked(graph: CheckedGraph<'_>, colors: &mut [u8]) -> Result<usize, Refusal>
    requires colors_len { length colors.old ≡ graph.nodes }
    ensures report { let graph = graph.entry in let colors = colors.entry.now in
        report_of result ≡ (sides_outcome graph.nodes graph.ends.now colors).report }
    ensures colors { let graph = graph.entry in let colors₀ = colors.old in
        colors.new ≡ (sides_outcome graph.nodes graph.ends.now colors₀).colors }
{
    let mut up = [0u16; Graph::MAX_NODES];
    let mut flips = [false; Graph::MAX_NODES];
    let mut sides = [0u16; Graph::MAX_NODES];
    if components::color_nodes(graph, &mut up, &mut flips, &mut sides) {
        copy_out(&sides[..graph.nodes], colors);
        let days = days_of_sides(graph.nodes, graph.edges());
        Ok(days)
    } else {
        Err(Refusal::OddClosedWalk)
    }
}

// The lowest node of each component gets 1, neighbours get the other of 0 and 1.
pub fn two_color(n: usize, ends: &[u16], colors: &mut [u8]) -> Result<usize, Refusal>
    ensures report { let ends = ends.entry.now in let colors = colors.entry.now in
        report_of result ≡ (two_color n ends colors).report }
    ensures colors { let ends = ends.entry.now in let colors₀ = colors.old in
        colors.new ≡ (two_color n ends colors₀).colors }
    ensures bipartition { let ends = ends.entry.now in let colors₀ = colors.old in
        Bipartition n ends colors₀ (report_of result) colors.new }
{
    let graph = CheckedGraph::new(n, ends)?;
    if colors.len() != graph.nodes {
        return Err(Refusal::WrongLength);
    }
    color_checked(graph, colors)
}
