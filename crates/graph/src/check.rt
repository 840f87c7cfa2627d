// The graph checks.
ghost use Rattle.std.specs.Prelude.{◌≡◌};
ghost use Rattle.lists.specs.Search.{all_below};
ghost use Rattle.graph.specs.Report.{report_of_checked};
ghost use Rattle.graph.specs.Check.{check_graph};

use crate::{Graph, Refusal};

// Whether each end is below n. It goes on where one is not, so that the compiler can take many ends at once.
fn all_below(n: u16, ends: &[u16]) -> bool
    ensures answer { result ≡ all_below n ends.now }
{
    let mut all = true;
    for end in ends {
        if n <= *end {
            all = false;
        }
    }
    all
}

// The graph checks, in order, over the whole input.
#[tactic(auto, using(crate::proofs::CheckLaws::too_many_nodes, crate::proofs::CheckLaws::odd_ends, crate::proofs::CheckLaws::too_many_ends, crate::proofs::CheckLaws::end_outside, crate::proofs::CheckLaws::graph_passes))]
pub fn check_graph(n: usize, ends: &[u16]) -> Result<Graph, Refusal>
    ensures report { report_of_checked result ≡ check_graph n ends.now }
{
    if n > Graph::MAX_NODES {
        return Err(Refusal::TooManyNodes);
    }
    if ends.len() % 2 == 1 {
        return Err(Refusal::OddEnds);
    }
    if ends.len() > 2 * Graph::MAX_EDGES {
        return Err(Refusal::TooManyEnds);
    }
    if all_below(n as u16, ends) {
        Ok(Graph::new(n, ends.len() / 2))
    } else {
        Err(Refusal::EndOutside)
    }
}
