// The printing side of the program `replay`: what a line lends to a call, and the text that goes to standard output. Part of a
// test program; its contracts say what its own proofs need.
#![tactic(auto)]

mod lent;
mod output;

pub use lent::{Number, front, lend, lend_front};
pub use output::Output;
