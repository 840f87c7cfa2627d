// How an answer is handed to C: a number, 0 where the call accepted, and the report behind a pointer, which is unchanged on a refusal.
// The strategies by number, too.
#![tactic(auto)]

mod count;
mod file;
mod strategy;

pub use count::answer_count;
pub use file::{FileNumbers, answer_file, numbers_of};
pub use strategy::{strategy_of, unknown_strategy};
