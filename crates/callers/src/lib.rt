// What each of the four callers relies on, as functions over the public calls, proved from the calls' contracts alone.
#![tactic(auto)]

mod date_table;
mod holiday_lookup;
mod page_grid;
mod proof_printer;

pub use date_table::{edges_properly_colored, late_match_properly_colored};
pub use holiday_lookup::{
    no_preset_edge_moved, no_preset_node_moved, no_preset_node_moved_by_degree,
};
pub use page_grid::{
    adjacent_edges_differ, adjacent_edges_differ_unless_preset, adjacent_nodes_differ,
    adjacent_nodes_differ_unless_preset,
};
pub use proof_printer::bipartition_or_none;
