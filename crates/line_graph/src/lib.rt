// The line list of a graph: its edges as nodes, and a pair for each two edges at a node.
#![tactic(auto)]

ghost use Rattle.std.specs.Prelude.{◌≡◌, ◌≤◌, ◌<◌, length};
ghost use Rattle.graph.specs.Report.{report_of};
ghost use Rattle.line_list.specs.LineList.{line_graph};

use edge_walk::IncidenceTable;
use graph::{CheckedGraph, EdgeIndex, Graph, NodeIndex, Refusal};
use incidence::incidence_table;

mod pairs;

// The node of the line graph that an edge becomes. A `NodeIndex` is made of an `EdgeIndex` by this function alone, and the other way by the
// next; slices hold plain numbers.
pub fn node_of_edge(edge: EdgeIndex) -> NodeIndex
    ensures answer { result.0 ≡ edge.0 }
{
    NodeIndex(edge.0)
}

// The edge that became a node of the line graph.
pub fn edge_of_node(node: NodeIndex) -> EdgeIndex
    ensures answer { result.0 ≡ node.0 }
{
    EdgeIndex(node.0)
}

// The pairs, by the table. The list's length is known before anything is written, so a list that is too short stays as lent. Inlined at
// both sizes: where the compiler sees the table's arrays it need not ask at each edge whether they lie in the list.
#[inline(always)]
fn list_by_table(table: IncidenceTable<'_>, list: &mut [u16]) -> Result<usize, Refusal>
    ensures report { let table = table.entry in let list = list.entry.now in report_of result ≡ (line_graph table.nodes table.ends.now list).report }
    ensures list { let table = table.entry in let list₀ = list.old in list.new ≡ (line_graph table.nodes table.ends.now list₀).list }
{
    let total = pairs::list_length(table);
    if list.len() < total {
        return Err(Refusal::ShortList);
    }
    pairs::write_pairs(table, list);
    Ok(total / 2)
}

// The same, with the table in arrays of these lengths. Not inlined: a small graph's call takes the short arrays' stack alone.
#[inline(never)]
fn list_in<const STARTS: usize, const ENTRIES: usize>(
    graph: CheckedGraph<'_>,
    list: &mut [u16],
) -> Result<usize, Refusal>
    requires room { (graph.nodes < STARTS) × (length graph.ends.now ≤ ENTRIES) }
    requires limits { (STARTS ≤ 513) × (ENTRIES ≤ 8192) }
    ensures report { let graph = graph.entry in let list = list.entry.now in report_of result ≡ (line_graph graph.nodes graph.ends.now list).report }
    ensures list { let graph = graph.entry in let list₀ = list.old in list.new ≡ (line_graph graph.nodes graph.ends.now list₀).list }
{
    let mut starts = [0u16; STARTS];
    let mut entries = [0u16; ENTRIES];
    let table = incidence_table(graph, &mut starts, &mut entries);
    list_by_table(table, list)
}

// Short arrays where they suffice: clearing the others costs more than a small graph's pairs.
fn list_pairs(graph: CheckedGraph<'_>, list: &mut [u16]) -> Result<usize, Refusal>
    ensures report { let graph = graph.entry in let list = list.entry.now in report_of result ≡ (line_graph graph.nodes graph.ends.now list).report }
    ensures list { let graph = graph.entry in let list₀ = list.old in list.new ≡ (line_graph graph.nodes graph.ends.now list₀).list }
{
    if graph.nodes <= Graph::SMALL_NODES && graph.ends.len() <= Graph::SMALL_ENTRIES {
        return list_in::<{ Graph::SMALL_STARTS }, { Graph::SMALL_ENTRIES }>(graph, list);
    }
    list_in::<{ Graph::STARTS }, { Graph::ENTRIES }>(graph, list)
}

// For nodes rising, each edge at the node is paired with those after it there; numbers beyond the pairs stay as lent.
pub fn line_graph(n: usize, ends: &[u16], list: &mut [u16]) -> Result<usize, Refusal>
    ensures report { let ends = ends.entry.now in let list = list.entry.now in report_of result ≡ (line_graph n ends list).report }
    ensures list { let ends = ends.entry.now in let list₀ = list.old in list.new ≡ (line_graph n ends list₀).list }
{
    let graph = CheckedGraph::new(n, ends)?;
    list_pairs(graph, list)
}
