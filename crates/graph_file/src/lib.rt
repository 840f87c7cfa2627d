// Reading a graph file.
#![tactic(auto)]

ghost use Rattle.std.specs.Prelude.{◌≡◌, ◌+◌, ◌*◌, ◌≤◌, cond, ltb};
ghost use Rattle.file_layout.specs.Outcomes.{read_file};
ghost use Rattle.file_layout.specs.Reliance.{FileReader};
ghost use Rattle.graph_file.specs.Report.{report_of_file};

use file_fields::{FileSummary, copy_numbers, layout_of};
use graph::Refusal;

// Where the colours of a file start, and their number.
#[derive(Clone, Copy, PartialEq, Eq, Debug)]
struct ColorsPlace {
    start: usize,
    count: usize,
}

// Behind the ends and the header of tag 3, one for each edge; no bytes where tag 3 did not stand.
fn colors_place(tags: u8, edges: usize) -> ColorsPlace
    requires { edges ≤ 4096 }
    ensures answer { (result.start ≡ cond (ltb 3 tags) (11 + 4 * edges) 0) × (result.count ≡ cond (ltb 3 tags) edges 0) }
{
    if tags > 3 {
        return ColorsPlace {
            start: 11 + 4 * edges,
            count: edges,
        };
    }
    ColorsPlace { start: 0, count: 0 }
}

// The ends and the colours are copied to the fronts of the lent lists; they are not tested.
pub fn read_graph_file(
    bytes: &[u8],
    ends: &mut [u16],
    colors: &mut [u16],
) -> Result<FileSummary, Refusal>
    ensures report { let bytes = bytes.entry.now in let ends₀ = ends.old in let colors₀ = colors.old in
        report_of_file result ≡ (read_file bytes ends₀ colors₀).report }
    ensures ends { let bytes = bytes.entry.now in let ends₀ = ends.old in let colors₀ = colors.old in
        ends.new ≡ (read_file bytes ends₀ colors₀).ends }
    ensures colors { let bytes = bytes.entry.now in let ends₀ = ends.old in let colors₀ = colors.old in
        colors.new ≡ (read_file bytes ends₀ colors₀).colors }
    ensures layout { let bytes = bytes.entry.now in let ends₀ = ends.old in let colors₀ = colors.old in
        FileReader bytes ends₀ colors₀ (report_of_file result) ends.new colors.new }
{
    let file = layout_of(bytes).ok_or(Refusal::BadFile)?;
    let edges = file.edges;
    if ends.len() < 2 * edges {
        return Err(Refusal::WrongLength);
    }
    let place = colors_place(file.tags, edges);
    let start = place.start;
    let count = place.count;
    if colors.len() < count {
        return Err(Refusal::WrongLength);
    }
    copy_numbers(&bytes[8..8 + 4 * edges], ends);
    copy_numbers(&bytes[start..start + 2 * count], colors);
    Ok(file)
}
