// The pairs of edges at each node: how many numbers they take, and writing them.
ghost use Rattle.std.specs.Prelude.{◌≡◌, ℕ, ◌+◌, ◌*◌, ◌≤◌, ◌<◌, length};
ghost use Rattle.graph.specs.Stretch.{stretch};
ghost use Rattle.graph.specs.Table.{over};
ghost use Rattle.line_list.specs.LineList.{pairs_with, pairs_of};
ghost use Rattle.line_graph.specs.WrittenPairs.{placed, pairs_below};

use edge_walk::IncidenceTable;
use graph::{EdgeIndex, NodeIndex};

// The length of the whole list, from the degrees: d edges at a node have d * (d - 1) / 2 pairs.
pub(crate) fn list_length(table: IncidenceTable<'_>) -> usize
    ensures answer { let table = table.entry in result ≡ length (pairs_below table.starts.now table.entries.now table.nodes) }
{
    let mut total = 0;
    for v in 0..table.nodes {
        let degree = table.edges_at(NodeIndex(v as u16)).len();
        total += degree * degree - degree;
    }
    total
}

// The pairs of an edge with each of the later ones, from place `at` on; the answer is the place behind them.
fn write_pairs_with(edge: EdgeIndex, later: &[u16], list: &mut [u16], at: usize) -> usize
    requires { at + 2 * length later.now ≤ length list.old }
    ensures answer { result ≡ at + 2 * length later.now }
    ensures list { let list₀ = list.old in let later = later.entry.now in
        list.new ≡ placed list₀ at (pairs_with edge.0 later) }
{
    for (i, other) in later.iter().enumerate() {
        let first = edge.0;
        let second = *other;
        let place = at + 2 * i;
        list[place] = first;
        list[place + 1] = second;
    }
    at + 2 * later.len()
}

// The pairs of one node's edges, from place `at` on; the answer is the place behind them.
fn write_pairs_of(edges: &[u16], list: &mut [u16], at: usize) -> usize
    requires { at + length (pairs_of edges.now) ≤ length list.old }
    ensures answer { result ≡ at + length (pairs_of edges.now) }
    ensures list { let list₀ = list.old in let edges = edges.entry.now in list.new ≡ placed list₀ at (pairs_of edges) }
{
    let mut place = at;
    for (i, edge) in edges.iter().enumerate() {
        place = write_pairs_with(EdgeIndex(*edge), &edges[i + 1..], list, place);
    }
    place
}

// The pairs at the nodes below n, from the front of the list on.
pub(crate) fn write_pairs(table: IncidenceTable<'_>, list: &mut [u16])
    requires { length (pairs_below table.starts.now table.entries.now table.nodes) ≤ length list.old }
    ensures list { let table = table.entry in let list₀ = list.old in
        list.new ≡ over (pairs_below table.starts.now table.entries.now table.nodes) list₀ }
{
    let mut place = 0;
    for v in 0..table.nodes {
        let edges = table.edges_at(NodeIndex(v as u16));
        place = write_pairs_of(edges, list, place);
    }
}
