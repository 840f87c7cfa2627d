// The C interface. Each call answers 0 where it accepted, or the refusal's number, and hands its report back through a pointer,
// which is unchanged on a refusal; wg_fewer_days, which refuses nothing, answers which list. include/wulgranite.h declares these functions for C.
#![tactic(auto)]

ghost use Rattle.std.specs.Prelude.{ℕ, ◌≡◌, cond, List};
ghost use Rattle.graph.specs.Table.{incidence_of};
ghost use Rattle.two_color.specs.TwoColor.{two_color};
ghost use Rattle.line_list.specs.LineList.{line_graph};
ghost use Rattle.greedy.specs.Degree.{degree_colors};
ghost use Rattle.greedy.specs.Call.{greedy_nodes, greedy_nodes_plain, greedy_edges_plain};
ghost use Rattle.vizing.specs.MisraGries.{misra_gries};
ghost use Rattle.vizing.specs.AddEdge.{add_edge};
ghost use Rattle.file_layout.specs.Outcomes.{read_file, write_file};
ghost use Rattle.days.specs.FewerDays.{fewer_days};
ghost use Rattle.c_answer.specs.Answer.{Answered};
ghost use Rattle.capi.specs.Strategy.{nodes_by_number, edges_by_number};

use c_answer::{answer_count, answer_file, numbers_of, strategy_of, unknown_strategy};
use days::fewer_days_part;

#[unsafe(no_mangle)]
pub extern "C" fn wg_incidence(
    n: usize,
    ends: &[u16],
    starts: &mut [u16],
    entries: &mut [u16],
    total: &mut usize,
) -> u32
    ensures answered { let ends = ends.entry.now in let starts₀ = starts.old in let entries₀ = entries.old in
        let outcome = incidence_of n ends starts₀ entries₀ in
        Answered {B = List ℕ × List ℕ} outcome.report (outcome.starts, outcome.entries) total.old result
        total.new (starts.new, entries.new) }
{
    answer_count(wulgranite::incidence(n, ends, starts, entries), total)
}

#[unsafe(no_mangle)]
pub extern "C" fn wg_two_color(n: usize, ends: &[u16], colors: &mut [u8], days: &mut usize) -> u32
    ensures answered { let ends = ends.entry.now in let colors₀ = colors.old in let outcome = two_color n ends colors₀ in
        Answered outcome.report outcome.colors days.old result days.new colors.new }
{
    answer_count(wulgranite::two_color(n, ends, colors), days)
}

#[unsafe(no_mangle)]
pub extern "C" fn wg_greedy_node_color(
    n: usize,
    ends: &[u16],
    colors: &mut [u16],
    days: &mut usize,
) -> u32
    ensures answered { let ends = ends.entry.now in let colors₀ = colors.old in
        let outcome = greedy_nodes_plain degree_colors n ends colors₀ in
        Answered outcome.report outcome.colors days.old result days.new colors.new }
{
    answer_count(wulgranite::greedy_node_color(n, ends, colors), days)
}

#[unsafe(no_mangle)]
pub extern "C" fn wg_greedy_node_color_with_preset_colors(
    n: usize,
    ends: &[u16],
    presets: &[u16],
    colors: &mut [u16],
    days: &mut usize,
) -> u32
    ensures answered { let ends = ends.entry.now in let presets = presets.entry.now in let colors₀ = colors.old in
        let outcome = greedy_nodes degree_colors n ends presets colors₀ in
        Answered outcome.report outcome.colors days.old result days.new colors.new }
{
    answer_count(
        wulgranite::greedy_node_color_with_preset_colors(n, ends, presets, colors),
        days,
    )
}

#[unsafe(no_mangle)]
pub extern "C" fn wg_greedy_node_color_with_coloring_strategy(
    n: usize,
    ends: &[u16],
    presets: &[u16],
    strategy: u8,
    colors: &mut [u16],
    days: &mut usize,
) -> u32
    ensures answered { let ends = ends.entry.now in let presets = presets.entry.now in let colors₀ = colors.old in
        let outcome = nodes_by_number strategy n ends presets colors₀ in
        Answered outcome.report outcome.colors days.old result days.new colors.new }
{
    match strategy_of(strategy) {
        Some(known) => answer_count(
            wulgranite::greedy_node_color_with_coloring_strategy(n, ends, presets, known, colors),
            days,
        ),
        None => {
            let checked = greedy::check_nodes(n, ends, presets.len(), colors.len());
            unknown_strategy(checked)
        }
    }
}

#[unsafe(no_mangle)]
pub extern "C" fn wg_greedy_edge_color(
    n: usize,
    ends: &[u16],
    colors: &mut [u16],
    days: &mut usize,
) -> u32
    ensures answered { let ends = ends.entry.now in let colors₀ = colors.old in
        let outcome = greedy_edges_plain degree_colors n ends colors₀ in
        Answered outcome.report outcome.colors days.old result days.new colors.new }
{
    answer_count(wulgranite::greedy_edge_color(n, ends, colors), days)
}

#[unsafe(no_mangle)]
pub extern "C" fn wg_greedy_edge_color_with_coloring_strategy(
    n: usize,
    ends: &[u16],
    presets: &[u16],
    strategy: u8,
    colors: &mut [u16],
    days: &mut usize,
) -> u32
    ensures answered { let ends = ends.entry.now in let presets = presets.entry.now in let colors₀ = colors.old in
        let outcome = edges_by_number strategy n ends presets colors₀ in
        Answered outcome.report outcome.colors days.old result days.new colors.new }
{
    match strategy_of(strategy) {
        Some(known) => answer_count(
            wulgranite::greedy_edge_color_with_coloring_strategy(n, ends, presets, known, colors),
            days,
        ),
        None => {
            let checked = greedy::check_edges(n, ends, presets.len(), colors.len());
            unknown_strategy(checked)
        }
    }
}

#[unsafe(no_mangle)]
pub extern "C" fn wg_line_graph(n: usize, ends: &[u16], list: &mut [u16], pairs: &mut usize) -> u32
    ensures answered { let ends = ends.entry.now in let list₀ = list.old in let outcome = line_graph n ends list₀ in
        Answered outcome.report outcome.list pairs.old result pairs.new list.new }
{
    answer_count(wulgranite::line_graph(n, ends, list), pairs)
}

#[unsafe(no_mangle)]
pub extern "C" fn wg_misra_gries_edge_color(
    n: usize,
    ends: &[u16],
    colors: &mut [u16],
    days: &mut usize,
) -> u32
    ensures answered { let ends = ends.entry.now in let colors₀ = colors.old in let outcome = misra_gries n ends colors₀ in
        Answered outcome.report outcome.colors days.old result days.new colors.new }
{
    answer_count(wulgranite::misra_gries_edge_color(n, ends, colors), days)
}

#[unsafe(no_mangle)]
pub extern "C" fn wg_misra_gries_add_edge(
    n: usize,
    ends: &[u16],
    stored: &[u16],
    colors: &mut [u16],
    days: &mut usize,
) -> u32
    ensures answered { let ends = ends.entry.now in let stored = stored.entry.now in let colors₀ = colors.old in
        let outcome = add_edge n ends stored colors₀ in
        Answered outcome.report outcome.colors days.old result days.new colors.new }
{
    answer_count(
        wulgranite::misra_gries_add_edge(n, ends, stored, colors),
        days,
    )
}

#[unsafe(no_mangle)]
pub extern "C" fn wg_read_graph_file(
    bytes: &[u8],
    ends: &mut [u16],
    colors: &mut [u16],
    nodes: &mut usize,
    edges: &mut usize,
    tags: &mut usize,
    method: &mut usize,
) -> u32
    ensures answered { let bytes = bytes.entry.now in let ends₀ = ends.old in let colors₀ = colors.old in
        let outcome = read_file bytes ends₀ colors₀ in
        Answered {B = List ℕ × List ℕ} outcome.report (outcome.ends, outcome.colors)
        (nodes.old, edges.old, tags.old, method.old) result
        (nodes.new, edges.new, tags.new, method.new) (ends.new, colors.new) }
{
    answer_file(
        numbers_of(wulgranite::read_graph_file(bytes, ends, colors)),
        nodes,
        edges,
        tags,
        method,
    )
}

#[unsafe(no_mangle)]
pub extern "C" fn wg_write_graph_file(
    n: usize,
    ends: &[u16],
    colors: &[u16],
    tags: u8,
    method: u8,
    output: &mut [u8],
    length: &mut usize,
) -> u32
    ensures answered { let ends = ends.entry.now in let colors = colors.entry.now in let output₀ = output.old in
        let outcome = write_file n ends colors tags method output₀ in
        Answered outcome.report outcome.output length.old result length.new output.new }
{
    answer_count(
        wulgranite::write_graph_file(n, ends, colors, tags, method, output),
        length,
    )
}

// Which of two lists has fewer days among its first m numbers: 0 for the first, 1 for the second. `*length` is m, or 0 if a list is shorter.
#[unsafe(no_mangle)]
pub extern "C" fn wg_fewer_days(first: &[u16], second: &[u16], m: usize, length: &mut usize) -> u32
    ensures list { let part = fewer_days first.now second.now m in result ≡ cond part.second 1 0 }
    ensures length { let part = fewer_days first.now second.now m in length.new ≡ part.length }
{
    let part = fewer_days_part(first, second, m);
    *length = part.length;
    if part.second { 1 } else { 0 }
}
