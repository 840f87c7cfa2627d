// A graph that passed the checks, as a value of a type of its own.
ghost use Rattle.graph.specs.Check.{Passed};

use crate::{Refusal, check_graph};

// The node count and the end list of a graph that passed the graph checks.
#[derive(Clone, Copy)]
pub struct CheckedGraph<'a> {
    pub nodes: usize,
    pub ends: &'a [u16],
    pub ghost passed: { Passed nodes ends.now },
}

impl<'a> CheckedGraph<'a> {
    ghost use Rattle.std.specs.Prelude.{◌≡◌, IfOk};
    ghost use Rattle.graph.specs.Check.{check_graph};
    ghost use Rattle.graph.specs.Checked.{report_of_graph};
    ghost use Rattle.graph.specs.Edges.{edge_count};

    // The graph, or what the checks refuse it for.
    pub fn new(nodes: usize, ends: &'a [u16]) -> Result<CheckedGraph<'a>, Refusal>
        ensures report { report_of_graph result ≡ check_graph nodes ends.now }
        ensures same { IfOk result (λ graph. (graph.nodes ≡ nodes) × (graph.ends ≡ ends.entry)) }
    {
        check_graph(nodes, ends)?;
        Ok(CheckedGraph { nodes, ends })
    }

    // How many edges it has.
    pub fn edges(self) -> usize
        ensures answer { let graph = self.entry in result ≡ edge_count graph.ends.now }
    {
        self.ends.len() / 2
    }
}
