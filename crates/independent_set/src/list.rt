// The lists of a round: the uncoloured items that are listed, and those put off to the next round, each an array with a length, and each
// item's place in its list. Places are never cleared: an item is listed if its place is below the length and the item stands there. An
// item is a node of the graph that is coloured: the graph itself, or its line graph.
ghost use Rattle.std.specs.Prelude.{◌≡◌, ◌-◌, ◌≤◌, ◌<◌, [], ◌∷◌, length, get_or, set, take, MatchOption, IsTrue, ◌↔◌};
ghost use Rattle.greedy.specs.Turn.{uncolored};
ghost use Rattle.greedy.specs.IndependentSet.{put_off, take_out};

use graph::{Color, Graph, NodeIndex, copy_colors};
use std::marker::Model;

// The two counts stand before the arrays, and what changes them reads both before its first store: so the compiler keeps them in registers
// over a loop.
#[derive(Drop)]
pub(crate) struct Lists {
    len: usize,
    end: usize,
    listed: [u16; Graph::MAX_EDGES],
    place: [u16; Graph::MAX_EDGES],
    next: [u16; Graph::MAX_EDGES],
}

// Clauses see the items of both lists, in their order.
impl Model for Lists {
    ghost use Rattle.greedy.specs.IndependentSet as definition;
    ghost use Rattle.independent_set.specs.Listing.{ListsHeld, lists_at};

    ghost Value = { definition.Lists };

    ghost view = { λ s. lists_at s.listed s.next s.len s.end };

    ghost invariant = { λ s. ListsHeld 4096 s.listed s.place s.next s.len s.end (lists_at s.listed s.next s.len s.end) };
}

// Takes a listed item out: the last of the list goes to its place.
fn take_out(listed: &mut [u16], place: &mut [u16], len: usize, item: NodeIndex)
    requires { (item.0 < length place.old) × (get_or place.old item.0 0 < len) × (len ≤ length listed.old) × (get_or listed.old (len - 1) 0 < length place.old) }
    ensures listed_and_place { let listed₀ = listed.old in let place₀ = place.old in
        (listed.new ≡ set listed₀ (get_or place₀ item.0 0) (get_or listed₀ (len - 1) 0))
        × (place.new ≡ set place₀ (get_or listed₀ (len - 1) 0) (get_or place₀ item.0 0)) }
{
    let hole = place[item.0 as usize];
    let last = listed[len - 1];
    listed[hole as usize] = last;
    place[last as usize] = hole;
}

impl Lists {
    pub(crate) fn new() -> Lists
        ensures empty { result ≡ record { listed = []; next = [] } }
    {
        Lists {
            len: 0,
            end: 0,
            listed: [0; Graph::MAX_EDGES],
            place: [0; Graph::MAX_EDGES],
            next: [0; Graph::MAX_EDGES],
        }
    }

    pub(crate) fn is_empty(&self) -> bool
        ensures answer { IsTrue result ↔ (self.now.listed ≡ []) }
    {
        self.len == 0
    }

    // Lists the items without a colour, rising; none is put off.
    pub(crate) fn list_uncolored(&mut self, presets: &[u16])
        requires { length presets.now ≤ 4096 }
        ensures listed { let presets = presets.entry.now in self.new ≡ record { listed = uncolored presets (length presets); next = [] } }
    {
        let mut len = 0;
        for (item, preset) in presets.iter().enumerate() {
            if *preset == Color::NONE {
                self.listed[len] = item as u16;
                self.place[item] = len as u16;
                len += 1;
            }
        }
        self.len = len;
        self.end = 0;
    }

    // A listed item is taken out and goes to the end of the next list.
    pub(crate) fn put_off(&mut self, item: NodeIndex)
        requires { item.0 < 4096 }
        ensures put_off { self.new ≡ put_off self.old item.0 }
    {
        let len = self.len;
        let end = self.end;
        let here = self.place[item.0 as usize] as usize;
        if here < len && self.listed[here] == item.0 {
            take_out(&mut self.listed, &mut self.place, len, item);
            self.next[end] = item.0;
            self.place[item.0 as usize] = end as u16;
            self.len = len - 1;
            self.end = end + 1;
        }
    }

    // Takes the front item out, if one is listed.
    pub(crate) fn take_front(&mut self) -> Option<NodeIndex>
        ensures taken { let s = self.old in let t = self.new in
            MatchOption result ((s.listed ≡ []) × (t ≡ s)) (λ item. (take 1 s.listed ≡ item.0 ∷ []) × (t ≡ record { listed = take_out item.0 s.listed; next = s.next })) }
    {
        if self.len == 0 {
            return None;
        }
        let front = NodeIndex(self.listed[0]);
        take_out(&mut self.listed, &mut self.place, self.len, front);
        self.len -= 1;
        Some(front)
    }

    // The next list takes the list's place.
    pub(crate) fn next_round(&mut self)
        ensures turned { self.new ≡ record { listed = self.old.next; next = [] } }
    {
        let end = self.end;
        copy_colors(&self.next[..end], &mut self.listed);
        self.len = end;
        self.end = 0;
    }
}
