// The smallest free colour of a node and of an edge, by marks: one pass over the neighbours' colours, one over the marks.
#![tactic(auto)]

ghost use Rattle.std.specs.Prelude.{◌≡◌, List, [], ◌++◌, ℕ, ◌≤◌, true, length, set};
ghost use Rattle.graph.specs.Color.{smallest_from};
ghost use Rattle.graph.specs.Colored.{color_of};
ghost use Rattle.graph.specs.Edges.{first_end, second_end};
ghost use Rattle.graph.specs.Stretch.{stretch};
ghost use Rattle.smallest_color.specs.EdgeMarks.{colors_of};
ghost use Rattle.smallest_color.specs.Marks.{far_colors, Marked, FirstUnmarked};

use edge_walk::{edges_at, end_at, far_end};
use graph::{Color, EdgeIndex, Graph, NodeIndex};

// So many marks are cleared where fewer edges stand at an item: most items of most graphs have few.
const FEW: usize = 64;

// The same for an edge with more.
const MORE: usize = 512;

// Marks a colour, if there is a place for it.
fn mark(marks: &mut [bool], color: Color)
    ensures marks { marks.new ≡ set marks.old color.0 true }
{
    let c = color.0 as usize;
    if c < marks.len() {
        marks[c] = true;
    }
}

// The colour at a place, none beyond the list.
#[tactic(auto, unfolding(graph::specs::Colored::color_of))]
fn color_of(colors: &[u16], place: usize) -> Color
    ensures answer { result.0 ≡ color_of colors.now place }
{
    Color(colors.get(place).copied().unwrap_or(Color::NONE))
}

// Marks the colours at the far ends of the node's edges.
fn mark_far_colors(
    ends: &[u16],
    starts: &[u16],
    entries: &[u16],
    colors: &[u16],
    node: NodeIndex,
    marks: &mut [bool],
)
    requires { Marked marks.old [] }
    ensures marked { let ends = ends.entry.now in let colors = colors.entry.now in let starts = starts.entry.now in
        let entries = entries.entry.now in
        Marked marks.new (far_colors ends colors node.0 (stretch starts entries node.0)) }
    ensures marks_length { length marks.new ≡ length marks.old }
{
    let edges = edges_at(starts, entries, node);
    for &edge in edges {
        let far = far_end(ends, EdgeIndex(edge), node);
        mark(marks, color_of(colors, far.0 as usize));
    }
}

// The first place without a mark, or the end.
fn first_unmarked(marks: &[bool]) -> usize
    ensures first_unmarked { FirstUnmarked marks.now result }
{
    marks.iter().position(|mark| !*mark).unwrap_or(marks.len())
}

// The smallest colour that no neighbour has, of as many as there are marks.
fn first_free_of<const MARKS: usize>(
    ends: &[u16],
    starts: &[u16],
    entries: &[u16],
    colors: &[u16],
    node: NodeIndex,
) -> Color
    requires { MARKS ≤ 4096 }
    ensures answer { let ends = ends.entry.now in let colors = colors.entry.now in let starts = starts.entry.now in
        let entries = entries.entry.now in
        result.0 ≡ smallest_from MARKS (far_colors ends colors node.0 (stretch starts entries node.0)) 0 }
{
    let mut marks = [false; MARKS];
    mark_far_colors(ends, starts, entries, colors, node, &mut marks);
    Color(first_unmarked(&marks) as u16)
}

// The smallest colour that no neighbour has, of the first 512: a node has fewer different other neighbours. Clearing the marks is most of the
// work where few edges stand at the node, so there are fewer then.
pub fn smallest_color(
    ends: &[u16],
    starts: &[u16],
    entries: &[u16],
    colors: &[u16],
    node: NodeIndex,
) -> Color
    ensures answer { let ends = ends.entry.now in let colors = colors.entry.now in let starts = starts.entry.now in
        let entries = entries.entry.now in
        result.0 ≡ smallest_from 512 (far_colors ends colors node.0 (stretch starts entries node.0)) 0 }
{
    if edges_at(starts, entries, node).len() < FEW {
        first_free_of::<FEW>(ends, starts, entries, colors, node)
    } else {
        first_free_of::<{ Graph::MAX_NODES }>(ends, starts, entries, colors, node)
    }
}

// Marks the colours of these edges.
fn mark_colors(edges: &[u16], colors: &[u16], marks: &mut [bool])
    ensures marks { let marks₀ = marks.old in let colors = colors.entry.now in let edges = edges.entry.now in
        ((cs : List ℕ) → Marked marks₀ cs → Marked marks.new (cs ++ colors_of colors edges)) }
    ensures marks_length { length marks.new ≡ length marks.old }
{
    for &edge in edges {
        mark(marks, color_of(colors, edge as usize));
    }
}

// The smallest colour that none of these edges has, of as many as there are marks.
fn first_unused_of<const MARKS: usize>(first: &[u16], second: &[u16], colors: &[u16]) -> Color
    requires { MARKS ≤ 4096 }
    ensures answer { let colors = colors.entry.now in let first = first.entry.now in let second = second.entry.now in
        result.0 ≡ smallest_from MARKS (colors_of colors first ++ colors_of colors second) 0 }
{
    let mut marks = [false; MARKS];
    mark_colors(first, colors, &mut marks);
    mark_colors(second, colors, &mut marks);
    Color(first_unmarked(&marks) as u16)
}

// The smallest colour that none of these edges has, of the first 4,096, with as many marks as their number asks for: there are no more edges.
fn smallest_unused(first: &[u16], second: &[u16], colors: &[u16]) -> Color
    ensures answer { let colors = colors.entry.now in let first = first.entry.now in let second = second.entry.now in
        result.0 ≡ smallest_from 4096 (colors_of colors first ++ colors_of colors second) 0 }
{
    let count = first.len() + second.len();
    if count < FEW {
        first_unused_of::<FEW>(first, second, colors)
    } else if count < MORE {
        first_unused_of::<MORE>(first, second, colors)
    } else {
        first_unused_of::<{ Graph::MAX_EDGES }>(first, second, colors)
    }
}

// The smallest colour that no edge at either end has, of the first 4,096.
pub fn smallest_edge_color(
    ends: &[u16],
    starts: &[u16],
    entries: &[u16],
    colors: &[u16],
    edge: EdgeIndex,
) -> Color
    ensures answer { let colors = colors.entry.now in let starts = starts.entry.now in let entries = entries.entry.now in
        let ends = ends.entry.now in
        result.0 ≡ smallest_from 4096 (colors_of colors (stretch starts entries (first_end ends edge.0))
        ++ colors_of colors (stretch starts entries (second_end ends edge.0))) 0 }
{
    let place = 2 * edge.0 as usize;
    let first = edges_at(starts, entries, end_at(ends, place));
    let second = edges_at(starts, entries, end_at(ends, place + 1));
    smallest_unused(first, second, colors)
}
