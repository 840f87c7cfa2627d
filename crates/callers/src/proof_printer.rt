// The proof printer: two ink passes that part every edge, or a plain no.
ghost use Rattle.std.specs.Prelude.{◌≡◌};
ghost use Rattle.graph.specs.Report.{report_of};
ghost use Rattle.two_color.specs.TwoColor.{two_color};
ghost use Rattle.callers.specs.Reliance.{BipartitionOrNone};

use wulgranite::{Refusal, two_color};

pub fn bipartition_or_none(n: usize, ends: &[u16], colors: &mut [u8]) -> Result<usize, Refusal>
    ensures report { let ends = ends.entry.now in let colors = colors.entry.now in
        report_of result ≡ (two_color n ends colors).report }
    ensures colors { let ends = ends.entry.now in let colors₀ = colors.old in
        colors.new ≡ (two_color n ends colors₀).colors }
    ensures relied { let ends = ends.entry.now in let colors₀ = colors.old in
        BipartitionOrNone n ends colors₀ (report_of result) colors.new }
{
    two_color(n, ends, colors)
}
