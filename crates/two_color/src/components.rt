// Components and sides, one edge after the other: disjoint sets, as trees in which each node hangs under a lower one.
ghost use Rattle.std.specs.Prelude.{◌≡◌, Bool, false, cond, ℕ, ◌-◌, ◌≤◌, ◌<◌, length, get_or, replicate};
ghost use Rattle.graph.specs.Check.{Passed};
ghost use Rattle.graph.specs.Edges.{edge_count};
ghost use Rattle.two_color.specs.Components.{Forest, Holds, Joined, Finds, Joins, Taken, Sided, NodesColored};

use graph::{CheckedGraph, NodeIndex};

// The lowest node of a component, and whether the node that it was asked for is on the odd side.
#[derive(Clone, Copy)]
pub struct Root {
    pub node: NodeIndex,
    pub odd: bool,
}

// Every node by itself.
fn start(up: &mut [u16])
    requires { length up.old ≤ 512 }
    ensures up { (v : ℕ) → v < length up.old → get_or up.new v 0 ≡ v }
{
    for (v, above) in up.iter_mut().enumerate() {
        *above = v as u16;
    }
}

// The root of a node's tree. On the way up each node passed is hung under the one above the next, with the side that it has to that one.
fn root_of(up: &mut [u16], flips: &mut [bool], node: NodeIndex) -> Root
    requires forest { Forest up.old flips.old }
    requires node_in_bounds { node.0 < length up.old }
    ensures finds { let up₀ = up.old in let flips₀ = flips.old in
        Finds up₀ flips₀ node.0 result up.new flips.new }
{
    let mut x = node.0 as usize;
    let mut odd = false;
    // No iterator climbs a tree that is changed on the way.
    loop {
        let next = up[x] as usize;
        let above = up[next];
        let to_next = flips[x];
        if above as usize == next {
            return Root {
                node: NodeIndex(above),
                odd: odd != to_next,
            };
        }
        let to_above = to_next != flips[next];
        up[x] = above;
        flips[x] = to_above;
        odd = odd != to_above;
        x = above as usize;
    }
}

// Takes in an edge with these ends: of two roots the higher is hung under the lower. False where the ends are on the same side of one component.
#[tactic(auto, using(crate::proofs::ComponentsLaws::join_room, crate::proofs::ComponentsLaws::join_apart))]
fn join(up: &mut [u16], flips: &mut [bool], first: NodeIndex, second: NodeIndex) -> bool
    requires forest { Forest up.old flips.old }
    requires first_in_bounds { (first.0 < length up.old) × (second.0 < length up.old) }
    ensures joins { let up₀ = up.old in let flips₀ = flips.old in
        Joins up₀ flips₀ first.0 second.0 up.new flips.new result }
{
    let a = root_of(up, flips, first);
    let b = root_of(up, flips, second);
    let same = a.odd == b.odd;
    if a.node == b.node {
        return !same;
    }
    let low = a.node.0.min(b.node.0);
    let high = a.node.0.max(b.node.0) as usize;
    up[high] = low;
    flips[high] = same;
    true
}

// Takes in all edges, up to the first that is inside one side.
fn join_edges(ends: &[u16], up: &mut [u16], flips: &mut [bool]) -> bool
    requires passed { Passed (length up.old) ends.now }
    requires joined { Joined ends.now 0 up.old flips.old }
    ensures taken { let ends = ends.entry.now in Taken ends (edge_count ends) up.new flips.new result }
{
    for k in 0..ends.len() / 2 {
        let first = NodeIndex(ends[2 * k]);
        let second = NodeIndex(ends[2 * k + 1]);
        if !join(up, flips, first, second) {
            return false;
        }
    }
    true
}

// The other of 0 and 1, as two cases. A match must cover every number; no other is asked, so `_` is never met.
fn other(side: u16) -> u16
    requires { side ≤ 1 }
    ensures answer { result ≡ 1 - side }
{
    match side {
        1 => 0,
        0 | _ => 1,
    }
}

// The side of a node that hangs under one of this side.
fn side_under(side: u16, flip: bool) -> u16
    requires { side ≤ 1 }
    ensures answer { result ≡ cond flip (1 - side) side }
{
    if flip { other(side) } else { side }
}

// A root gets 1, each other node its side from the one that it hangs under.
fn write_sides(n: usize, up: &[u16], flips: &[bool], sides: &mut [u16])
    requires forest { Forest up.now flips.now }
    requires n_in_bounds { (n ≤ length up.now) × (n ≤ length sides.old) }
    ensures sides { let up = up.entry.now in let flips = flips.entry.now in
        ((low : ℕ → ℕ) (odd : ℕ → Bool) → Holds low odd up flips → Sided odd n sides.new) }
{
    for v in 0..n {
        let above = up[v] as usize;
        if above == v {
            sides[v] = 1;
        } else {
            sides[v] = side_under(sides[above], flips[v]);
        }
    }
}

// Where the answer is true the first n colours are those of `sides`; where it is false an odd closed walk exists.
pub(crate) fn color_nodes(
    graph: CheckedGraph<'_>,
    up: &mut [u16],
    flips: &mut [bool],
    colors: &mut [u16],
) -> bool
    requires up_len { (length up.old ≡ 512) × (flips.old ≡ replicate 512 false) × (length colors.old ≡ 512) }
    ensures nodes_colored { let graph = graph.entry in NodesColored graph.ends.now (edge_count graph.ends.now) graph.nodes result colors.new }
{
    start(up);
    if !join_edges(graph.ends, up, flips) {
        return false;
    }
    write_sides(graph.nodes, up, flips, colors);
    true
}
