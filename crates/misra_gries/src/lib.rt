// Misra-Gries edge colouring: each edge a colour from 0 to D, edges that share an end different ones. All edges, or one more.
#![tactic(auto)]

ghost use Rattle.std.specs.Prelude.{◌≡◌, ◌≤◌, length};
ghost use Rattle.graph.specs.Report.{report_of};
ghost use Rattle.graph.specs.Edges.{edge_count};
ghost use Rattle.graph.specs.Stretch.{Table};
ghost use Rattle.vizing.specs.MisraGries.{misra_gries};
ghost use Rattle.vizing.specs.Demand3.{Admitted};
ghost use Rattle.vizing.specs.Clause.{VizingColoring};
ghost use Rattle.vizing.specs.AddEdge.{add_edge, EdgeAdded};
ghost use Rattle.misra_gries.specs.Step.{from_stored};

use edge_table::{EdgeTable, Entry};
use graph::{Color, Graph, Refusal, copy_colors};
use run::{days_after, run};
use simple_graph::check_simple;
use stored_colors::{color_stored, max_degree, sizes_fit};
use tally::Tally;

mod grow;
mod run;
mod steps;
mod tally;

// The edges without a stored colour get one, in turn, and all are copied out: all edges where nothing is stored, or the last. Both calls go by this
// one function, so that the compiler merges the run into it and knows the arrays' sizes there. Nothing is written to the lent slice before 11.
fn color_from(
    n: usize,
    ends: &[u16],
    starts: &[u16],
    entries: &[u16],
    stored: &[u16],
    colors: &mut [u16],
) -> Result<usize, Refusal>
    requires admitted { Admitted n ends.now }
    requires table { Table ends.now n starts.now entries.now }
    requires stored_len_bound { length stored.now ≤ edge_count ends.now }
    requires colors_len { length colors.old ≡ edge_count ends.now }
    ensures report { report_of result ≡ (from_stored n ends.now stored.now colors.old).report }
    ensures colors { colors.new ≡ (from_stored n ends.now stored.now colors.old).colors }
{
    let mut work = [Color::NONE; Graph::MAX_EDGES];
    let mut table = [Entry::NONE.0; EdgeTable::PLACES];
    let limit = max_degree(n as u16, starts, entries);
    if !color_stored(ends, stored, limit, &mut work, &mut table) {
        return Err(Refusal::BadStoredColors);
    }
    let mut marks = [0u16; Graph::MAX_EDGES];
    let tally = run(
        Tally::of(stored),
        stored.len(),
        n,
        ends,
        starts,
        entries,
        &mut work,
        &mut table,
        &mut marks,
    );
    let edges = ends.len() / 2;
    copy_colors(&work[..edges], colors);
    Ok(days_after(tally, stored.len(), colors))
}

// Each edge gets a colour, by Misra and Gries 1992. A wrong length is told after the graph checks and before loops and double edges.
pub fn misra_gries_edge_color(n: usize, ends: &[u16], colors: &mut [u16]) -> Result<usize, Refusal>
    ensures report { report_of result ≡ (misra_gries n ends.now colors.old).report }
    ensures colors { colors.new ≡ (misra_gries n ends.now colors.old).colors }
    ensures vizing { VizingColoring n ends.now colors.old (report_of result) colors.new }
{
    let mut starts = [0u16; Graph::STARTS];
    let mut entries = [0u16; Graph::ENTRIES];
    let sized = colors.len() == ends.len() / 2;
    check_simple(n, ends, sized, &mut starts, &mut entries)?;
    color_from(n, ends, &starts, &entries, &[], colors)
}

// The last edge gets a colour too, by the step that it has in the run over all edges, from the stored colours of the others. The step may
// change those, as it does in the run.
pub fn misra_gries_add_edge(
    n: usize,
    ends: &[u16],
    stored: &[u16],
    colors: &mut [u16],
) -> Result<usize, Refusal>
    ensures report { report_of result ≡ (add_edge n ends.now stored.now colors.old).report }
    ensures colors { colors.new ≡ (add_edge n ends.now stored.now colors.old).colors }
    ensures added { EdgeAdded n ends.now stored.now colors.old (report_of result) colors.new }
{
    let mut starts = [0u16; Graph::STARTS];
    let mut entries = [0u16; Graph::ENTRIES];
    let sized = sizes_fit(ends.len() / 2, stored.len(), colors.len());
    check_simple(n, ends, sized, &mut starts, &mut entries)?;
    color_from(n, ends, &starts, &entries, stored, colors)
}
