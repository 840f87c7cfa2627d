// What a Misra-Gries step recolours: the path, and the new colours of path and fan. Every function is total: what lies outside a slice
// reads as its default, and what has no room is not written.
#![tactic(auto)]

mod new_colors;
mod path;

pub use new_colors::{shift_colors, swap_colors};
pub use path::follow;
