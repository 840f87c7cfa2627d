// Writing a graph file.
#![tactic(auto)]

ghost use Rattle.std.specs.Prelude.{◌≡◌};
ghost use Rattle.file_layout.specs.Outcomes.{write_file};
ghost use Rattle.file_layout.specs.Reliance.{FileWriter};
ghost use Rattle.graph.specs.Report.{report_of};

use graph::{Refusal, check_graph};

mod put;
mod told;

// Bit 2 of `tags` tells to put tag 3, the colours, bit 3 to put tag 4, the method; the other bits are not looked at,
// and neither are colours or a method that are not told.
pub fn write_graph_file(
    n: usize,
    ends: &[u16],
    colors: &[u16],
    tags: u8,
    method: u8,
    output: &mut [u8],
) -> Result<usize, Refusal>
    ensures report { let ends = ends.entry.now in let colors = colors.entry.now in let output₀ = output.old in
        report_of result ≡ (write_file n ends colors tags method output₀).report }
    ensures output { let ends = ends.entry.now in let colors = colors.entry.now in let output₀ = output.old in
        output.new ≡ (write_file n ends colors tags method output₀).output }
    ensures layout { let ends = ends.entry.now in let colors = colors.entry.now in let output₀ = output.old in
        FileWriter n ends colors tags method output₀ (report_of result) output.new }
{
    let edges = check_graph(n, ends)?.edges;
    if told::misnamed(tags, method) {
        return Err(Refusal::BadFile);
    }
    if told::wrong_colors(tags, colors.len(), edges) {
        return Err(Refusal::WrongLength);
    }
    let length = told::file_length(tags, edges);
    if output.len() < length {
        return Err(Refusal::WrongLength);
    }
    put::put_graph(output, n, ends);
    put::put_told(output, 8 + 4 * edges, colors, tags, method);
    Ok(length)
}
