// The rounds: in the round of a colour each listed item gets it whose neighbours have not got it before.
ghost use Rattle.std.specs.Prelude.{◌≡◌, ◌<◌, length, []};
ghost use Rattle.greedy.specs.IndependentSet.{put_off_all, put_off_presets, color_listed, rounds};
ghost use Rattle.items.specs.Items.{neighbors_of};
ghost use Rattle.independent_set.specs.Rounds.{ListedBelow};

use crate::edges::put_off_sharing;
use crate::list::Lists;
use crate::nodes::put_off_far_ends;
use graph::{Color, NodeIndex};
use items::{Items, Kind};
use line_graph::edge_of_node;

// The listed neighbours of an item are put off, in incidence order.
fn put_off_neighbors(items: Items, lists: &mut Lists, item: NodeIndex)
    requires item_in_bounds { item.0 < items.count }
    ensures put_off { let items = items.entry in
        lists.new ≡ put_off_all lists.old (neighbors_of items.kind items.table.nodes items.table.ends.now item.0) }
{
    match items.kind {
        Kind::Nodes => put_off_far_ends(items.table, lists, item),
        Kind::Edges => put_off_sharing(items.table, lists, edge_of_node(item)),
    }
}

// The listed neighbours of the presets of a colour are put off.
fn put_off_presets(items: Items, presets: &[u16], lists: &mut Lists, color: Color)
    requires presets_len { length presets.now ≡ items.count }
    ensures put_off { let items = items.entry in let presets = presets.entry.now in
        lists.new ≡ put_off_presets (neighbors_of items.kind items.table.nodes items.table.ends.now) presets color.0 items.count lists.old }
{
    for (item, preset) in presets.iter().enumerate() {
        if *preset == color.0 {
            put_off_neighbors(items, lists, NodeIndex(item as u16));
        }
    }
}

// The front item gets the colour and is taken out, and its listed neighbours are put off, until the list is empty.
fn color_listed(items: Items, lists: &mut Lists, colors: &mut [u16], color: Color)
    requires listed_below { ListedBelow items.count lists.old }
    requires colors_len { length colors.old ≡ items.count }
    ensures round { let items = items.entry in let lists₀ = lists.old in let colors₀ = colors.old in
        let after = color_listed (neighbors_of items.kind items.table.nodes items.table.ends.now) color.0 (length lists₀.listed) lists₀ colors₀ in
        (lists.new ≡ record { listed = []; next = after.next }) × (colors.new ≡ after.colors) }
    ensures listed_below { let items = items.entry in ListedBelow items.count lists.new }
{
    while let Some(front) = lists.take_front() {
        colors[front.0 as usize] = color.0;
        put_off_neighbors(items, lists, front);
    }
}

// One round after the other, until no item is left.
pub(crate) fn color_rounds(items: Items, presets: &[u16], lists: &mut Lists, colors: &mut [u16])
    requires listed_below { ListedBelow items.count lists.old }
    requires none_put_off { lists.old.next ≡ [] }
    requires presets_len { (length presets.now ≡ items.count) × (length colors.old ≡ items.count) }
    ensures colors { let items = items.entry in let presets = presets.entry.now in let listed = lists.old.listed in
        let colors₀ = colors.old in
        colors.new ≡ rounds (neighbors_of items.kind items.table.nodes items.table.ends.now) items.count presets items.count 0 listed colors₀ }
{
    for r in 0..items.count {
        if lists.is_empty() {
            return;
        }
        let color = Color(r as u16);
        put_off_presets(items, presets, lists, color);
        color_listed(items, lists, colors, color);
        lists.next_round();
    }
}
