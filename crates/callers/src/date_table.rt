// The date table: clubs are nodes, matches edges, days colours. No club has two matches on one day.
ghost use Rattle.std.specs.Prelude.{◌≡◌};
ghost use Rattle.graph.specs.Report.{report_of};
ghost use Rattle.vizing.specs.MisraGries.{misra_gries};
ghost use Rattle.vizing.specs.AddEdge.{add_edge};
ghost use Rattle.callers.specs.Reliance.{EdgesProperlyColored, LateMatchProperlyColored};

use wulgranite::{Refusal, misra_gries_add_edge, misra_gries_edge_color};

pub fn edges_properly_colored(n: usize, ends: &[u16], colors: &mut [u16]) -> Result<usize, Refusal>
    ensures report { let ends = ends.entry.now in let colors = colors.entry.now in
        report_of result ≡ (misra_gries n ends colors).report }
    ensures colors { let ends = ends.entry.now in let colors₀ = colors.old in
        colors.new ≡ (misra_gries n ends colors₀).colors }
    ensures relied { let ends = ends.entry.now in let colors₀ = colors.old in
        EdgesProperlyColored n ends colors₀ (report_of result) colors.new }
{
    misra_gries_edge_color(n, ends, colors)
}

pub fn late_match_properly_colored(
    n: usize,
    ends: &[u16],
    stored: &[u16],
    colors: &mut [u16],
) -> Result<usize, Refusal>
    ensures report { let ends = ends.entry.now in let stored = stored.entry.now in let colors = colors.entry.now in
        report_of result ≡ (add_edge n ends stored colors).report }
    ensures colors { let ends = ends.entry.now in let stored = stored.entry.now in let colors₀ = colors.old in
        colors.new ≡ (add_edge n ends stored colors₀).colors }
    ensures relied { let ends = ends.entry.now in let stored = stored.entry.now in let colors₀ = colors.old in
        LateMatchProperlyColored n ends stored colors₀ (report_of result) colors.new }
{
    misra_gries_add_edge(n, ends, stored, colors)
}
