// The calls of the program `replay` but for the colourings with more than two colours: the table of incidences, a node's edges, two_color,
// the line list, the list with fewer days, the files. Each lends so much of its slices as its line says, calls, and prints the answer. Part
// of a test program; the functions promise nothing but to end.
#![tactic(auto)]

use crate::report::{put_count, put_file, put_leading_part, put_walk};
use days::{fewer_days, fewer_days_part};
use edge_walk::edges_at;
use graph::NodeIndex;
use replay_input::{Case, Lent, Line, Name};
use replay_output::{Number, Output, front, lend_front};

mod report;

pub use report::put_colored;

fn call_incidence(output: &mut Output<impl Print>, case: Case, line: Line, lent: &mut Lent) {
    let starts = lend_front(lent.list, line.first);
    let entries = lend_front(lent.entries, line.second);
    let answer = incidence::incidence(case.nodes, case.ends, starts, entries);
    put_count(output, line.name, "total", answer);
    output.put_list(starts);
    output.put(';');
    output.put_list(entries);
}

// The table is the line's own, and nothing is lent.
fn call_edges_at(output: &mut Output<impl Print>, line: Line, lent: &Lent) {
    let starts = front(lent.list, line.second);
    let entries = front(lent.entries, line.third);
    let edges = edges_at(starts, entries, NodeIndex(u16::narrowed(line.first)));
    output.put("edges_at:");
    output.put_part(edges);
}

// A walk over one node's edges in the graph's own table. A graph that is refused leaves the slices as lent, which give no edges.
fn call_edge_walk(output: &mut Output<impl Print>, case: Case, line: Line, lent: &mut Lent) {
    let starts = lend_front(lent.list, case.nodes.saturating_add(1));
    let entries = lend_front(lent.entries, case.ends.len());
    let _ = incidence::incidence(case.nodes, case.ends, starts, entries);
    output.put("edge_walk:");
    let node = NodeIndex(u16::narrowed(line.first));
    put_walk(output, starts, entries, node, line.second);
}

fn call_two_color(output: &mut Output<impl Print>, case: Case, line: Line, lent: &mut Lent) {
    let colors = lend_front(lent.bytes, line.first);
    let answer = two_color::two_color(case.nodes, case.ends, colors);
    put_colored(output, line.name, answer, colors);
}

fn call_line_graph(output: &mut Output<impl Print>, case: Case, line: Line, lent: &mut Lent) {
    let pairs = lend_front(lent.list, line.first);
    let answer = line_graph::line_graph(case.nodes, case.ends, pairs);
    put_count(output, line.name, "pairs", answer);
    output.put_list(pairs);
}

// Both lists are the line's own. One call says which list and how long the part is, the other hands out its numbers.
fn call_fewer_days(output: &mut Output<impl Print>, line: Line, lent: &Lent) {
    let first = front(lent.list, line.second);
    let second = front(lent.entries, line.third);
    put_leading_part(output, fewer_days_part(first, second, line.first));
    output.put_part(fewer_days(first, second, line.first));
}

fn call_read_file(output: &mut Output<impl Print>, case: Case, line: Line, lent: &mut Lent) {
    let ends = lend_front(lent.list, line.first);
    let colors = lend_front(lent.entries, line.second);
    let answer = graph_file::read_graph_file(case.file, ends, colors);
    put_file(output, answer);
    output.put_list(ends);
    output.put(';');
    output.put_list(colors);
}

// The colours are those of the presets line.
fn call_write_file(output: &mut Output<impl Print>, case: Case, line: Line, lent: &mut Lent) {
    let written = lend_front(lent.bytes, line.third);
    let answer = write_graph_file::write_graph_file(
        case.nodes,
        case.ends,
        case.presets,
        u8::narrowed(line.first),
        u8::narrowed(line.second),
        written,
    );
    put_count(output, line.name, "length", answer);
    output.put_list(written);
}

// The line's call; a line that is none of these prints nothing.
pub fn call(output: &mut Output<impl Print>, case: Case, line: Line, lent: &mut Lent) {
    match line.name {
        Name::Incidence => call_incidence(output, case, line, lent),
        Name::EdgesAt => call_edges_at(output, line, lent),
        Name::EdgeWalk => call_edge_walk(output, case, line, lent),
        Name::TwoColor => call_two_color(output, case, line, lent),
        Name::LineGraph => call_line_graph(output, case, line, lent),
        Name::FewerDays => call_fewer_days(output, line, lent),
        Name::ReadGraphFile => call_read_file(output, case, line, lent),
        Name::WriteGraphFile => call_write_file(output, case, line, lent),
        _ => return,
    }
    output.put('\n');
}
