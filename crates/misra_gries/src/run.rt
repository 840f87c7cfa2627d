// The run over the edges, all or the last.
ghost use Rattle.std.specs.Prelude.{◌≡◌, cond, ◌-◌, eqb};
ghost use Rattle.graph.specs.Edges.{edge_count};
ghost use Rattle.graph.specs.Color.{days_of};
ghost use Rattle.misra_gries.specs.Step.{Running, held_of, steps_from, tally_days};

use crate::steps::step;
use crate::tally::Tally;
use days::days_of;
use graph::EdgeIndex;

// Colours every edge from this one on in turn, and tallies them beside those before.
pub(crate) fn run(
    tally: Tally,
    from: usize,
    n: usize,
    ends: &[u16],
    starts: &[u16],
    entries: &[u16],
    work: &mut [u16],
    table: &mut [u16],
    marks: &mut [u16],
) -> Tally
    requires { Running n ends.now starts.now entries.now work.old table.old marks.old tally from }
    ensures running { Running n ends.now starts.now entries.now work.new table.new marks.new result (edge_count ends.now) }
    ensures held { held_of work.new result ≡ steps_from ends.now (edge_count ends.now) n (held_of work.old tally) from (edge_count ends.now - from) }
{
    let mut so_far = tally;
    for k in from..ends.len() / 2 {
        let edge = EdgeIndex(k as u16);
        let color = step(n, ends, starts, entries, work, table, marks, edge);
        so_far = so_far.noted(color);
    }
    so_far
}

// Days after a run. From no stored colours it leaves no gap, and the tally tells them; stored colours may have gaps, so the list is counted.
pub(crate) fn days_after(tally: Tally, stored: usize, colors: &[u16]) -> usize
    ensures answer { result ≡ cond (eqb stored 0) (tally_days tally) (days_of colors.now) }
{
    if stored == 0 {
        tally.days()
    } else {
        days_of(colors)
    }
}
