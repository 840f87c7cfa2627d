// The words that begin a line. A new call has its name here and its branch in replay_calls or replay.
use std::fmt;

#[derive(Clone, Copy, PartialEq, Eq, Debug)]
pub enum Name {
    Graph,
    Presets,
    Incidence,
    EdgesAt,
    EdgeWalk,
    TwoColor,
    LineGraph,
    GreedyNodeColor,
    GreedyNodeColorWithPresetColors,
    GreedyNodeColorWithColoringStrategy,
    GreedyEdgeColor,
    GreedyEdgeColorWithColoringStrategy,
    MisraGriesEdgeColor,
    MisraGriesAddEdge,
    FewerDays,
    File,
    ReadGraphFile,
    WriteGraphFile,
    Matchdays,
    Unknown,
}

impl Name {
    const KNOWN: [Name; 19] = [
        Name::Graph,
        Name::Presets,
        Name::Incidence,
        Name::EdgesAt,
        Name::EdgeWalk,
        Name::TwoColor,
        Name::LineGraph,
        Name::GreedyNodeColor,
        Name::GreedyNodeColorWithPresetColors,
        Name::GreedyNodeColorWithColoringStrategy,
        Name::GreedyEdgeColor,
        Name::GreedyEdgeColorWithColoringStrategy,
        Name::MisraGriesEdgeColor,
        Name::MisraGriesAddEdge,
        Name::FewerDays,
        Name::File,
        Name::ReadGraphFile,
        Name::WriteGraphFile,
        Name::Matchdays,
    ];

    fn word(self) -> &'static str {
        match self {
            Name::Graph => "graph",
            Name::Presets => "presets",
            Name::Incidence => "incidence",
            Name::EdgesAt => "edges_at",
            Name::EdgeWalk => "edge_walk",
            Name::TwoColor => "two_color",
            Name::LineGraph => "line_graph",
            Name::GreedyNodeColor => "greedy_node_color",
            Name::GreedyNodeColorWithPresetColors => "greedy_node_color_with_preset_colors",
            Name::GreedyNodeColorWithColoringStrategy => "greedy_node_color_with_coloring_strategy",
            Name::GreedyEdgeColor => "greedy_edge_color",
            Name::GreedyEdgeColorWithColoringStrategy => "greedy_edge_color_with_coloring_strategy",
            Name::MisraGriesEdgeColor => "misra_gries_edge_color",
            Name::MisraGriesAddEdge => "misra_gries_add_edge",
            Name::FewerDays => "fewer_days",
            Name::File => "file",
            Name::ReadGraphFile => "read_graph_file",
            Name::WriteGraphFile => "write_graph_file",
            Name::Matchdays => "matchdays",
            Name::Unknown => "unknown",
        }
    }
}

impl From<&[u8]> for Name {
    fn from(word: &[u8]) -> Name {
        Name::KNOWN
            .into_iter()
            .find(|name| name.word().as_bytes() == word)
            .unwrap_or(Name::Unknown)
    }
}

impl fmt::Display for Name {
    fn fmt<W: fmt::Write>(&self, f: &mut fmt::Formatter<W>) -> fmt::Result {
        f.write_str(self.word())
    }
}
