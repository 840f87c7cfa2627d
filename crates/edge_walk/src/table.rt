// A graph beside its incidence table.
ghost use Rattle.graph.specs.Check.{Passed};
ghost use Rattle.graph.specs.Stretch.{Table};

use crate::{edges_at, end_at, far_end};
use graph::{EdgeIndex, NodeIndex};

// A graph that passed the checks, with its incidence table: the starts say where each node's stretch of the entries begins.
#[derive(Clone, Copy)]
pub struct IncidenceTable<'a> {
    pub nodes: usize,
    pub ends: &'a [u16],
    pub starts: &'a [u16],
    pub entries: &'a [u16],
    pub ghost passed: { Passed nodes ends.now },
    pub ghost table: { Table ends.now nodes starts.now entries.now },
}

impl<'a> IncidenceTable<'a> {
    ghost use Rattle.std.specs.Prelude.{◌≡◌, ◌+◌, ◌*◌};
    ghost use Rattle.graph.specs.Edges.{first_end, second_end, far_end};
    ghost use Rattle.graph.specs.Stretch.{bounds, stretch};

    // The edges at a node.
    pub fn edges_at(self, node: NodeIndex) -> &'a [u16]
        ensures contents { let table = self.entry in result.now ≡ stretch table.starts.now table.entries.now node.0 }
        ensures place { let table = self.entry in
            (result.ref_ptr.0 ≡ table.entries.ref_ptr.0)
            × (result.ref_ptr.1 ≡ table.entries.ref_ptr.1 + 2 * (bounds table.starts.now table.entries.now node.0).start) }
    {
        edges_at(self.starts, self.entries, node)
    }

    // An edge's first end.
    #[tactic(auto, unfolding(graph::specs::Edges::first_end))]
    pub fn first_end(self, edge: EdgeIndex) -> NodeIndex
        ensures answer { let table = self.entry in result.0 ≡ first_end table.ends.now edge.0 }
    {
        end_at(self.ends, 2 * edge.0 as usize)
    }

    // An edge's second end.
    #[tactic(auto, unfolding(graph::specs::Edges::second_end))]
    pub fn second_end(self, edge: EdgeIndex) -> NodeIndex
        ensures answer { let table = self.entry in result.0 ≡ second_end table.ends.now edge.0 }
    {
        end_at(self.ends, 2 * edge.0 as usize + 1)
    }

    // The end of an edge that the node is not; for a loop, the node again.
    pub fn far_end(self, edge: EdgeIndex, node: NodeIndex) -> NodeIndex
        ensures answer { let table = self.entry in result.0 ≡ far_end table.ends.now edge.0 node.0 }
    {
        far_end(self.ends, edge, node)
    }
}
