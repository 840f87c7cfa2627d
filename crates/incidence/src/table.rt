// A graph with its incidence table, in lent slices.
ghost use Rattle.std.specs.Prelude.{◌≡◌, [], ◌≤◌, ◌<◌, length};
ghost use Rattle.incidence.specs.Front.{incidence_front};

use crate::incidence_front;
use edge_walk::IncidenceTable;
use graph::CheckedGraph;

// The graph beside its table, which is made at the front of these slices. Slices without room for it stay as lent, and the table is
// then that of the graph without nodes; so it asks for nothing.
pub fn incidence_table<'a>(
    graph: CheckedGraph<'a>,
    starts: &'a mut [u16],
    entries: &'a mut [u16],
) -> IncidenceTable<'a>
    ensures slices { let graph = graph.entry in let starts₀ = starts.old in let entries₀ = entries.old in
        let front = incidence_front graph.nodes graph.ends.now starts₀ entries₀ in
        (result.starts.now ≡ front.starts) × (result.entries.now ≡ front.entries) }
    ensures graph { let graph = graph.entry in let starts₀ = starts.old in let entries₀ = entries.old in
        (graph.nodes < length starts₀ → length graph.ends.now ≤ length entries₀
        → (result.nodes ≡ graph.nodes) × (result.ends ≡ graph.ends)) }
    ensures few_starts { let graph = graph.entry in let starts₀ = starts.old in
        (length starts₀ ≤ graph.nodes → (result.nodes ≡ 0) × (result.ends.now ≡ [])) }
    ensures few_entries { let graph = graph.entry in let entries₀ = entries.old in
        (length entries₀ < length graph.ends.now → (result.nodes ≡ 0) × (result.ends.now ≡ [])) }
{
    incidence_front(graph.nodes, graph.ends, starts, entries);
    if starts.len() <= graph.nodes || entries.len() < graph.ends.len() {
        return IncidenceTable {
            nodes: 0,
            ends: &graph.ends[..0],
            starts,
            entries,
        };
    }
    IncidenceTable {
        nodes: graph.nodes,
        ends: graph.ends,
        starts,
        entries,
    }
}
