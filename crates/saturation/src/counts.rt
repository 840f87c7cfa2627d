// The two counts of each item without a colour: the different colours on its neighbours, and the neighbours that wait for a colour.
// When an item takes a colour, the items to which that colour is not new are marked, and then its neighbours note it.
ghost use Rattle.std.specs.Prelude.{◌≡◌, [], ◌∷◌, ℕ, ◌≤◌, ◌<◌, length, get_or, set};
ghost use Rattle.graph.specs.Color.{no_color};
ghost use Rattle.graph.specs.Colored.{color_of};
ghost use Rattle.items.specs.Items.{across_of};
ghost use Rattle.color_marks.specs.Marks.{across_all, around};
ghost use Rattle.saturation.specs.Counts.{Noted, NotesRoom, neighbors_in, CountsReady, Started};

use color_marks::mark_used;
use graph::{Color, EdgeIndex, Graph, NodeIndex};
use items::Items;

// Before any item has a colour: each waits for all its neighbours.
pub(crate) fn start(items: Items<'_>, colors: &mut [u16], waiting: &mut [u16])
    requires size { length colors.old ≡ items.count }
    requires colors_in_bounds { length colors.old ≤ length waiting.old }
    ensures started { let items = items.entry in let colors₀ = colors.old in
        Started (neighbors_in items) (length colors₀) colors.new waiting.new }
{
    for v in 0..items.count {
        let count = items.neighbor_count(NodeIndex(v as u16));
        colors[v] = Color::NONE;
        waiting[v] = count as u16;
    }
}

// An item without a colour notes that a neighbour has taken one: it counts as different once.
fn note(
    colors: &[u16],
    saturations: &mut [u16],
    waiting: &mut [u16],
    marks: &mut [u8],
    item: NodeIndex,
)
    requires item_in_bounds { (item.0 < length colors.now) × (item.0 < length saturations.old) × (item.0 < length waiting.old) × (item.0 < length marks.old) }
    requires nonzero { get_or colors.now item.0 0 ≡ no_color → (0 < get_or waiting.old item.0 0) × (get_or marks.old item.0 0 ≡ 0 → get_or saturations.old item.0 0 < 65535) }
    ensures noted { let colors = colors.entry.now in let saturations₀ = saturations.old in let waiting₀ = waiting.old in
        let marks₀ = marks.old in
        Noted colors (item.0 ∷ []) saturations₀ waiting₀ marks₀ saturations.new waiting.new marks.new }
{
    let w = item.0 as usize;
    if colors[w] != Color::NONE {
        return;
    }
    waiting[w] -= 1;
    if marks[w] == 0 {
        saturations[w] += 1;
        marks[w] = 1;
    }
}

// The items to which these edges of the node lead note the colour.
fn note_all(
    items: Items<'_>,
    edges: &[u16],
    colors: &[u16],
    saturations: &mut [u16],
    waiting: &mut [u16],
    marks: &mut [u8],
    node: NodeIndex,
)
    requires by_index { (i : ℕ) → i < length edges.now → across_of items.kind items.table.ends.now (get_or edges.now i 0) node.0 < length colors.now }
    requires notes_room { NotesRoom colors.now (across_all items.kind items.table.ends.now node.0 edges.now) saturations.old waiting.old marks.old }
    requires colors_in_bounds { (length colors.now ≤ length saturations.old) × (length colors.now ≤ length waiting.old) × (length colors.now ≤ length marks.old) }
    ensures noted { let colors = colors.entry.now in let items = items.entry in let edges = edges.entry.now in
        let saturations₀ = saturations.old in let waiting₀ = waiting.old in let marks₀ = marks.old in
        Noted colors (across_all items.kind items.table.ends.now node.0 edges) saturations₀ waiting₀ marks₀ saturations.new waiting.new marks.new }
{
    for edge in edges {
        let item = items.across(EdgeIndex(*edge), node);
        note(colors, saturations, waiting, marks, item);
    }
}

// The neighbours of the item note the colour. An edge stands among the edges at its own ends, but it has its colour by then.
fn note_neighbors(
    items: Items<'_>,
    colors: &[u16],
    saturations: &mut [u16],
    waiting: &mut [u16],
    marks: &mut [u8],
    item: NodeIndex,
)
    requires size { length colors.now ≡ items.count }
    requires item_in_bounds { item.0 < length colors.now }
    requires notes_room { NotesRoom colors.now (around items.kind items.table.ends.now items.table.starts.now items.table.entries.now item.0) saturations.old waiting.old marks.old }
    requires colors_in_bounds { (length colors.now ≤ length saturations.old) × (length colors.now ≤ length waiting.old) × (length colors.now ≤ length marks.old) }
    ensures noted { let colors = colors.entry.now in let items = items.entry in let saturations₀ = saturations.old in let waiting₀ = waiting.old in
        let marks₀ = marks.old in
        Noted colors (around items.kind items.table.ends.now items.table.starts.now items.table.entries.now item.0) saturations₀ waiting₀ marks₀ saturations.new waiting.new marks.new }
{
    let first = items.first_node(item);
    let second = items.second_node(item);
    let edges = items.table.edges_at(first);
    note_all(items, edges, colors, saturations, waiting, marks, first);
    if first == second {
        return;
    }
    let others = items.table.edges_at(second);
    note_all(items, others, colors, saturations, waiting, marks, second);
}

// An item without a colour takes this one, and its neighbours note it. With a colour it has no counts, so that it goes before no other.
fn note_color(
    items: Items<'_>,
    colors: &mut [u16],
    saturations: &mut [u16],
    waiting: &mut [u16],
    item: NodeIndex,
    color: Color,
)
    requires counts_ready { CountsReady items colors.old saturations.old waiting.old }
    requires item_in_bounds { (item.0 < length colors.old) × (color_of colors.old item.0 ≡ no_color) }
    requires fact { color.0 ≡ no_color → ⊥ }
    ensures colors { colors.new ≡ set colors.old item.0 color.0 }
    ensures ready { let items = items.entry in
        CountsReady items colors.new saturations.new waiting.new }
{
    let mut marks = [0u8; Graph::MAX_EDGES];
    let table = items.table;
    mark_used(
        items.kind,
        table.ends,
        table.starts,
        table.entries,
        colors,
        color,
        &mut marks,
        item,
    );
    let v = item.0 as usize;
    colors[v] = color.0;
    note_neighbors(items, colors, saturations, waiting, &mut marks, item);
    saturations[v] = 0;
    waiting[v] = 0;
}

// An item without a colour takes one, or stays without. Where no neighbour waits for a colour there is none to note it.
pub(crate) fn take_color(
    items: Items<'_>,
    colors: &mut [u16],
    saturations: &mut [u16],
    waiting: &mut [u16],
    item: NodeIndex,
    color: Color,
)
    requires counts_ready { CountsReady items colors.old saturations.old waiting.old }
    requires item_in_bounds { (item.0 < length colors.old) × (color_of colors.old item.0 ≡ no_color) }
    ensures colors { colors.new ≡ set colors.old item.0 color.0 }
    ensures ready { let items = items.entry in
        CountsReady items colors.new saturations.new waiting.new }
{
    if color.0 == Color::NONE {
        return;
    }
    let v = item.0 as usize;
    if waiting[v] == 0 {
        colors[v] = color.0;
        saturations[v] = 0;
        return;
    }
    note_color(items, colors, saturations, waiting, item, color);
}
