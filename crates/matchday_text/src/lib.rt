// The text that the program prints for a graph and for a file.
#![tactic(auto)]

ghost use Rattle.std.specs.Prelude.{◌≡◌, length};
ghost use Rattle.lists.specs.Parts.{copied_over};
ghost use Rattle.vizing.specs.MisraGries.{misra_gries};
ghost use Rattle.matchday_text.specs.Text.{outcome_text, colored_text, file_text, PassesOver};

use graph::{Color, Graph};
use graph_file::read_graph_file;
use lines::{put_days, put_refused};
use misra_gries::misra_gries_edge_color;

mod lines;
mod put;

// The text of a call that is lent these colour places.
fn outcome_text(n: usize, ends: &[u16], colors: &mut [u16], text: &mut [u8]) -> usize
    ensures answer { let ends = ends.entry.now in let colors = colors.entry.now in
        result ≡ length (outcome_text ends (misra_gries n ends colors)) }
    ensures text { let ends = ends.entry.now in let colors = colors.entry.now in let text₀ = text.old in
        text.new ≡ copied_over (outcome_text ends (misra_gries n ends colors)) text₀ }
{
    match misra_gries_edge_color(n, ends, colors) {
        Err(refusal) => put_refused(text, refusal.number() as usize),
        Ok(days) => put_days(text, days, ends, colors),
    }
}

// The text of a graph: as much of it as there is room for, and its whole length.
fn graph_text(n: usize, ends: &[u16], text: &mut [u8]) -> usize
    ensures answer { result ≡ length (colored_text n ends.now) }
    ensures text { let ends = ends.entry.now in let text₀ = text.old in
        text.new ≡ copied_over (colored_text n ends) text₀ }
{
    let mut colors = [Color::NONE; Graph::MAX_EDGES];
    // A list with more edges is refused whatever is lent.
    let m = (ends.len() / 2).min(Graph::MAX_EDGES);
    outcome_text(n, ends, &mut colors[..m], text)
}

// The text of a file: as much of it as there is room for, and its whole length.
pub fn matchday_text(bytes: &[u8], text: &mut [u8]) -> usize
    ensures answer { result ≡ length (file_text bytes.now) }
    ensures text { let bytes = bytes.entry.now in let text₀ = text.old in
        text.new ≡ copied_over (file_text bytes) text₀ }
    ensures passes_over { let bytes = bytes.entry.now in let text₀ = text.old in
        PassesOver bytes text₀ result text.new }
{
    let mut ends = [0u16; Graph::ENTRIES];
    let mut saved = [Color::NONE; Graph::MAX_EDGES];
    match read_graph_file(bytes, &mut ends, &mut saved) {
        Err(refusal) => put_refused(text, refusal.number() as usize),
        Ok(file) => {
            let count = 2 * file.edges;
            graph_text(file.nodes, &ends[..count], text)
        }
    }
}
