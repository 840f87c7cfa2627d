// Graphs as a node count and a list of ends: the checks, colours.
#![tactic(auto)]

ghost use Rattle.std.specs.Prelude.{◌≡◌};
ghost use Rattle.graph.specs.Report.{number};

mod check;
pub mod checked;
mod colors;

pub use check::check_graph;
pub use checked::CheckedGraph;
pub use colors::copy_colors;

// A node's number; never taken for an edge's.
#[derive(Clone, Copy, PartialEq, Eq, Debug)]
pub struct NodeIndex(pub u16);

// An edge's number; never taken for a node's.
#[derive(Clone, Copy, PartialEq, Eq, Debug)]
pub struct EdgeIndex(pub u16);

// A colour, 0 to 65,534, or none.
#[derive(Clone, Copy, PartialEq, Eq, Debug)]
pub struct Color(pub u16);

impl Color {
    // The mark of what has no colour.
    pub const NONE: u16 = 65535;

    pub fn none() -> Self
        ensures answer { result.0 ≡ 65535 }
    {
        Color(Self::NONE)
    }
}

// The sizes of a graph that passed the checks.
#[derive(Clone, Copy, PartialEq, Eq, Debug)]
pub struct Graph {
    pub nodes: usize,
    pub edges: usize,
}

impl Graph {
    pub const MAX_NODES: usize = 512;

    pub const MAX_EDGES: usize = 4096;

    // A start for each node, and one more.
    pub const STARTS: usize = 513;

    // Two for each edge: the ends of a list, and the entries of a table.
    pub const ENTRIES: usize = 8192;

    // A small graph has at most so many nodes and edges: its lists take short arrays, which are cleared sooner.
    pub const SMALL_NODES: usize = 64;

    pub const SMALL_EDGES: usize = 256;

    pub const SMALL_STARTS: usize = 65;

    pub const SMALL_ENTRIES: usize = 512;

    pub fn new(nodes: usize, edges: usize) -> Self
        ensures answer { (result.nodes ≡ nodes) × (result.edges ≡ edges) }
    {
        Graph { nodes, edges }
    }
}

// What is wrong with an input.
#[derive(Clone, Copy, PartialEq, Eq, Debug)]
pub enum Refusal {
    TooManyNodes,
    OddEnds,
    TooManyEnds,
    EndOutside,
    WrongLength,
    Loop,
    DoubleEdge,
    OddClosedWalk,
    ShortList,
    BadFile,
    BadStoredColors,
}

impl Refusal {
    // The number by which the refusal is reported.
    pub fn number(self) -> u32
        ensures answer { result ≡ number self }
    {
        match self {
            Refusal::TooManyNodes => 1,
            Refusal::OddEnds => 2,
            Refusal::TooManyEnds => 3,
            Refusal::EndOutside => 4,
            Refusal::WrongLength => 5,
            Refusal::Loop => 6,
            Refusal::DoubleEdge => 7,
            Refusal::OddClosedWalk => 8,
            Refusal::ShortList => 9,
            Refusal::BadFile => 10,
            Refusal::BadStoredColors => 11,
        }
    }
}
