// The edge table: beside a working list of colours, the edge of each colour at each node. Every function is total: what lies
// outside a slice reads as its default.
#![tactic(auto)]

mod lookup;

pub use lookup::{color_of, edge_of_color, is_free, smallest_free};

// The table's sizes: a row for each colour, in it a place for each node, so that the few colours of a sparse graph stand close together.
// A simple graph of so many nodes has no degree of so many colours, so one is always free.
#[derive(Clone, Copy)]
pub struct EdgeTable;

impl EdgeTable {
    pub const NODES: usize = 512;

    pub const COLORS: usize = 576;

    pub const PLACES: usize = Self::NODES * Self::COLORS;
}

// What a place of the table holds: an edge's number, or none.
#[derive(Clone, Copy, PartialEq, Eq, Debug)]
pub struct Entry(pub u16);

impl Entry {
    pub const NONE: Self = Entry(65535);
}
