// Greedy colouring: the strategies, and the checks of node and edge colouring.
#![tactic(auto)]

ghost use Rattle.std.specs.Prelude.{◌≡◌};
ghost use Rattle.graph.specs.Report.{report_of_checked};
ghost use Rattle.greedy.specs.Call.{check_items, check_nodes, check_edges};

use graph::{Graph, Refusal, check_graph};

// Which of the strategies colours.
#[derive(Clone, Copy, PartialEq, Eq, Debug)]
pub enum ColoringStrategy {
    Degree,
    Saturation,
    IndependentSet,
}

// The checks, given how many items, presets and colours there are.
fn check_items(
    n: usize,
    ends: &[u16],
    items: usize,
    presets: usize,
    colors: usize,
) -> Result<Graph, Refusal>
    ensures report { report_of_checked result ≡ check_items n ends.now items presets colors }
{
    let graph = check_graph(n, ends)?;
    if colors != items || presets != items {
        return Err(Refusal::WrongLength);
    }
    Ok(graph)
}

// The checks of node colouring, given how many presets and colours are lent.
#[tactic(auto, unfolding(crate::specs::Call::check_nodes))]
pub fn check_nodes(n: usize, ends: &[u16], presets: usize, colors: usize) -> Result<Graph, Refusal>
    ensures report { report_of_checked result ≡ check_nodes n ends.now presets colors }
{
    check_items(n, ends, n, presets, colors)
}

// The same of edge colouring.
#[tactic(auto, unfolding(crate::specs::Call::check_edges))]
pub fn check_edges(n: usize, ends: &[u16], presets: usize, colors: usize) -> Result<Graph, Refusal>
    ensures report { report_of_checked result ≡ check_edges n ends.now presets colors }
{
    check_items(n, ends, ends.len() / 2, presets, colors)
}
