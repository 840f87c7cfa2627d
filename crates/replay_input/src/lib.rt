// The reading side of the program `replay`: the lines of standard input, a name and numbers each. Part of a test program; its
// contracts say what its own proofs need.
#![tactic(auto)]

mod lines;
mod names;
mod reader;

pub use lines::{Case, Given, Lent, Line, Sizes};
pub use names::Name;
pub use reader::Reader;
