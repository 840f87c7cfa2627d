// The items to which a colour is not new: it stands at one of their nodes. Of the items only those around the one that takes the
// colour are marked, and each node is asked once.
#![tactic(auto)]

ghost use Rattle.std.specs.Prelude.{◌≡◌, ℕ, ◌<◌, true, false, MatchBool, length, get_or};
ghost use Rattle.items.specs.Items.{across_of};
ghost use Rattle.lists.specs.Member.{elem};
ghost use Rattle.graph.specs.Stretch.{stretch};
ghost use Rattle.color_marks.specs.Marks.{has_color, stands_at, across_all, around, stored, stands, mark_of, Asked, used_marks};

use edge_walk::edges_at;
use graph::{Color, EdgeIndex, Graph, NodeIndex};
use items::{Kind, across, first_node, second_node};

// What is noted of a node in a turn: that it was not asked yet, or whether the colour stands there.
#[derive(Clone, Copy)]
enum Note {
    NotAsked,
    Absent,
    Stands,
}

// Whether the item has the colour; one that has no place in the list has none.
#[tactic(auto, unfolding(crate::specs::Marks::has_color))]
fn has_color(colors: &[u16], item: NodeIndex, color: Color) -> bool
    ensures answer { result ≡ has_color colors.now color.0 item.0 }
{
    let v = item.0 as usize;
    v < colors.len() && colors[v] == color.0
}

// Whether one of these edges leads from the node to an item that has the colour. In each of its two groups a node's edges stand newest first,
// and among equals the lowest item is coloured first: so the colour is mostly found sooner from the back.
fn stands_at(
    kind: Kind,
    ends: &[u16],
    edges: &[u16],
    colors: &[u16],
    node: NodeIndex,
    color: Color,
) -> bool
    ensures cases { let ends = ends.entry.now in let edges = edges.entry.now in let colors = colors.entry.now in
        MatchBool result
        ((i : ℕ) × (i < length edges) × (has_color colors color.0 (across_of kind ends (get_or edges i 0) node.0) ≡ true))
        ((i : ℕ) → i < length edges → has_color colors color.0 (across_of kind ends (get_or edges i 0) node.0) ≡ false) }
{
    edges.iter().rev().any(|&edge| has_color(
        colors,
        across(kind, ends, EdgeIndex(edge), node),
        color,
    ))
}

// Whether the colour stands at the node, and a note of the answer.
fn ask(
    kind: Kind,
    ends: &[u16],
    starts: &[u16],
    entries: &[u16],
    colors: &[u16],
    color: Color,
    at: &mut [Note],
    node: NodeIndex,
) -> bool
    requires { Asked kind ends.now starts.now entries.now colors.now color.0 at.old }
    ensures answer { let ends = ends.entry.now in let starts = starts.entry.now in let entries = entries.entry.now in let colors = colors.entry.now in
        (result ≡ stands kind ends starts entries colors color.0 node.0) × Asked kind ends starts entries colors color.0 at.new }
{
    let w = node.0 as usize;
    if w < at.len() {
        match at[w] {
            Note::Stands => return true,
            Note::Absent => return false,
            Note::NotAsked => {}
        }
    }
    let stands = stands_at(
        kind,
        ends,
        edges_at(starts, entries, node),
        colors,
        node,
        color,
    );
    if w < at.len() {
        at[w] = if stands { Note::Stands } else { Note::Absent };
    }
    stands
}

// The mark of an item: 1 if it has no colour and the colour stands at one of its nodes.
fn item_mark(
    kind: Kind,
    ends: &[u16],
    starts: &[u16],
    entries: &[u16],
    colors: &[u16],
    color: Color,
    at: &mut [Note],
    item: NodeIndex,
) -> u8
    requires { Asked kind ends.now starts.now entries.now colors.now color.0 at.old }
    ensures answer { let ends = ends.entry.now in let starts = starts.entry.now in let entries = entries.entry.now in let colors = colors.entry.now in
        (result ≡ mark_of kind ends starts entries colors color.0 item.0) × Asked kind ends starts entries colors color.0 at.new }
{
    if !has_color(colors, item, Color(Color::NONE)) {
        return 0;
    }
    let first = first_node(kind, ends, item);
    let second = second_node(kind, ends, item);
    u8::from(
        ask(kind, ends, starts, entries, colors, color, at, first)
            || ask(kind, ends, starts, entries, colors, color, at, second),
    )
}

// The items to which these edges of the node lead get their marks.
fn mark_along(
    kind: Kind,
    ends: &[u16],
    starts: &[u16],
    entries: &[u16],
    edges: &[u16],
    colors: &[u16],
    color: Color,
    at: &mut [Note],
    marks: &mut [u8],
    node: NodeIndex,
)
    requires { Asked kind ends.now starts.now entries.now colors.now color.0 at.old }
    ensures marks { let ends = ends.entry.now in let starts = starts.entry.now in let entries = entries.entry.now in let colors = colors.entry.now in let edges = edges.entry.now in let marks₀ = marks.old in
        marks.new ≡ stored (mark_of kind ends starts entries colors color.0) (across_all kind ends node.0 edges) marks₀ }
    ensures asked { let ends = ends.entry.now in let starts = starts.entry.now in let entries = entries.entry.now in let colors = colors.entry.now in
        Asked kind ends starts entries colors color.0 at.new }
{
    for &edge in edges {
        let item = across(kind, ends, EdgeIndex(edge), node);
        let mark = item_mark(kind, ends, starts, entries, colors, color, at, item);
        let v = item.0 as usize;
        if v < marks.len() {
            marks[v] = mark;
        }
    }
}

// The items around the item get their marks, each where it has a place: 1 to those without a colour that have this one on a neighbour.
fn mark_known(
    kind: Kind,
    ends: &[u16],
    starts: &[u16],
    entries: &[u16],
    colors: &[u16],
    color: Color,
    marks: &mut [u8],
    item: NodeIndex,
)
    ensures marks { let ends = ends.entry.now in let starts = starts.entry.now in let entries = entries.entry.now in let colors = colors.entry.now in let marks₀ = marks.old in
        marks.new ≡ stored (mark_of kind ends starts entries colors color.0) (around kind ends starts entries item.0) marks₀ }
{
    let mut at = [Note::NotAsked; Graph::MAX_NODES];
    let first = first_node(kind, ends, item);
    let second = second_node(kind, ends, item);
    let edges = edges_at(starts, entries, first);
    mark_along(
        kind, ends, starts, entries, edges, colors, color, &mut at, marks, first,
    );
    if first != second {
        let others = edges_at(starts, entries, second);
        mark_along(
            kind, ends, starts, entries, others, colors, color, &mut at, marks, second,
        );
    }
}

// The same if an item has the colour. One that none has is new to all, so no mark is set.
pub fn mark_used(
    kind: Kind,
    ends: &[u16],
    starts: &[u16],
    entries: &[u16],
    colors: &[u16],
    color: Color,
    marks: &mut [u8],
    item: NodeIndex,
)
    ensures marks { let ends = ends.entry.now in let starts = starts.entry.now in let entries = entries.entry.now in let colors = colors.entry.now in let marks₀ = marks.old in
        marks.new ≡ used_marks kind ends starts entries colors color.0 item.0 marks₀ }
{
    if colors.contains(&color.0) {
        mark_known(kind, ends, starts, entries, colors, color, marks, item);
    }
}
