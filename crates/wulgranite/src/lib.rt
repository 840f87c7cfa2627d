// Graph colouring for calendars: the calls and types for users, in one place. Left out are the functions that the crates have for
// one another, each a part of a call here: the checks (`check_nodes`, `check_edges`, `check_items`, `check_simple`), the strategies one by one,
// among which `ColoringStrategy` chooses, the smallest free colour of a node and of an edge (smallest_color), nodes or edges as
// items (items) and their marks (color_marks), Saturation's next item (`choose`), a part of an edge's neighbours (`part_at`), the steps of Misra-Gries
// (edge_table, repaint, fan, recolor, stored_colors), the layout of a file and its numbers (`layout_of`, `copy_numbers`), `incidence_front`, `days_of`, `fewer_days_part`, `copy_colors`,
// `end_at` and `step_at`.
// `matchday_text` is left out too: its text is the program's, not a colouring.
#![tactic(auto)]

pub use days::fewer_days;
pub use edge_walk::{EdgeWalk, edge_at, edges_at, far_end};
pub use file_fields::{FileSummary, Method};
pub use graph::{Color, EdgeIndex, Graph, NodeIndex, Refusal, check_graph};
pub use graph_file::read_graph_file;
pub use greedy::ColoringStrategy;
pub use greedy_color::{
    greedy_edge_color, greedy_edge_color_with_coloring_strategy, greedy_node_color,
    greedy_node_color_with_coloring_strategy, greedy_node_color_with_preset_colors,
};
pub use incidence::incidence;
pub use line_graph::{edge_of_node, line_graph, node_of_edge};
pub use misra_gries::{misra_gries_add_edge, misra_gries_edge_color};
pub use two_color::two_color;
pub use write_graph_file::write_graph_file;
