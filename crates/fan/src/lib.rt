// The fan of a Misra-Gries step: which edge joins it next, and its places up to w. Every function is total: what lies outside a slice
// reads as its default, and what has no room is not written.
#![tactic(auto)]

mod candidates;
mod places;

pub use candidates::{first_joining, set_mark, skip};
pub use places::places_to;
