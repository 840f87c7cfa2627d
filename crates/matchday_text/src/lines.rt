// The lines of the text.
ghost use Rattle.std.specs.Prelude.{◌≡◌, ◌≤◌};
ghost use Rattle.graph.specs.Edges.{edge_count};
ghost use Rattle.graph.specs.Colored.{color_of};
ghost use Rattle.matchday_text.specs.Text.{line, edge_line, edge_lines, days_text, refused_text};
ghost use Rattle.matchday_text.specs.Put.{Put, Room};

use crate::put::{put_bytes, put_number};
use edge_walk::end_at;
use graph::{Color, EdgeIndex, NodeIndex};

// The colour of an edge, 65,535 beyond the list.
#[tactic(auto, unfolding(graph::specs::Colored::color_of))]
fn color_at(colors: &[u16], edge: EdgeIndex) -> usize
    ensures answer { result ≡ color_of colors.now edge.0 }
{
    let k = edge.0 as usize;
    usize::from(colors.get(k).copied().unwrap_or(Color::NONE))
}

// The line of these four numbers.
fn put_line(
    text: &mut [u8],
    at: usize,
    edge: EdgeIndex,
    first: NodeIndex,
    second: NodeIndex,
    color: usize,
) -> usize
    requires { Room at (line edge.0 first.0 second.0 color) }
    ensures put { Put text.old at (line edge.0 first.0 second.0 color) text.new result }
{
    let a = put_number(text, at, edge.0 as usize, b' ');
    let b = put_number(text, a, first.0 as usize, b' ');
    let c = put_number(text, b, second.0 as usize, b' ');
    put_number(text, c, color, b'\n')
}

// The line of one edge.
fn put_edge(text: &mut [u8], at: usize, ends: &[u16], colors: &[u16], edge: EdgeIndex) -> usize
    requires { Room at (edge_line ends.now colors.now edge.0) }
    ensures put { let text₀ = text.old in let ends = ends.entry.now in let colors = colors.entry.now in
        Put text₀ at (edge_line ends colors edge.0) text.new result }
{
    let k = edge.0 as usize;
    let first = end_at(ends, 2 * k);
    let second = end_at(ends, 2 * k + 1);
    let color = color_at(colors, edge);
    put_line(text, at, edge, first, second, color)
}

// A line for each edge.
fn put_edges(text: &mut [u8], at: usize, ends: &[u16], colors: &[u16]) -> usize
    requires ends_bound { edge_count ends.now ≤ 65535 }
    requires room { Room at (edge_lines ends.now colors.now (edge_count ends.now)) }
    ensures put { let text₀ = text.old in let ends = ends.entry.now in let colors = colors.entry.now in
        Put text₀ at (edge_lines ends colors (edge_count ends)) text.new result }
{
    let m = ends.len() / 2;
    let mut next = at;
    for k in 0..m {
        next = put_edge(text, next, ends, colors, EdgeIndex(k as u16));
    }
    next
}

// The text of an accepted call.
pub(crate) fn put_days(text: &mut [u8], days: usize, ends: &[u16], colors: &[u16]) -> usize
    requires ends_bound { edge_count ends.now ≤ 65535 }
    requires room { Room 0 (days_text days ends.now colors.now) }
    ensures put { let text₀ = text.old in let ends = ends.entry.now in let colors = colors.entry.now in
        Put text₀ 0 (days_text days ends colors) text.new result }
{
    let a = put_bytes(text, 0, b"days ");
    let b = put_number(text, a, days, b'\n');
    put_edges(text, b, ends, colors)
}

// The text of a refusal.
pub(crate) fn put_refused(text: &mut [u8], number: usize) -> usize
    requires { Room 0 (refused_text number) }
    ensures put { Put text.old 0 (refused_text number) text.new result }
{
    let a = put_bytes(text, 0, b"refused ");
    put_number(text, a, number, b'\n')
}
