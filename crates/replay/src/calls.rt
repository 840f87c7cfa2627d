// The greedy colourings, Misra-Gries and the match days: each lends so much of its slices as its line says, calls, and prints the
// answer. The other calls are in replay_calls.
use graph::Refusal;
use greedy::ColoringStrategy;
use greedy_color::{
    greedy_edge_color, greedy_edge_color_with_coloring_strategy, greedy_node_color,
    greedy_node_color_with_coloring_strategy, greedy_node_color_with_preset_colors,
};
use misra_gries::{misra_gries_add_edge, misra_gries_edge_color};
use replay_calls::put_colored;
use replay_input::{Case, Lent, Line, Name};
use replay_output::{Output, front, lend_front};

// 0 Degree, 1 Saturation, 2 IndependentSet; the cases have no other.
fn strategy_of(number: usize) -> ColoringStrategy {
    match number {
        0 => ColoringStrategy::Degree,
        1 => ColoringStrategy::Saturation,
        _ => ColoringStrategy::IndependentSet,
    }
}

// The line's colouring, by the strategy that its first number names where it has one. A late match's stored colours are those of the
// presets line.
fn color(case: Case, line: Line, colors: &mut [u16]) -> Result<usize, Refusal> {
    let n = case.nodes;
    let ends = case.ends;
    let presets = case.presets;
    let strategy = strategy_of(line.first);
    match line.name {
        Name::GreedyNodeColor => greedy_node_color(n, ends, colors),
        Name::GreedyNodeColorWithPresetColors => {
            greedy_node_color_with_preset_colors(n, ends, presets, colors)
        }
        Name::GreedyNodeColorWithColoringStrategy => {
            greedy_node_color_with_coloring_strategy(n, ends, presets, strategy, colors)
        }
        Name::GreedyEdgeColor => greedy_edge_color(n, ends, colors),
        Name::GreedyEdgeColorWithColoringStrategy => {
            greedy_edge_color_with_coloring_strategy(n, ends, presets, strategy, colors)
        }
        Name::MisraGriesAddEdge => misra_gries_add_edge(n, ends, presets, colors),
        _ => misra_gries_edge_color(n, ends, colors),
    }
}

// A greedy colouring or Misra-Gries, with so many colours lent.
fn call_coloring(
    output: &mut Output<impl Print>,
    case: Case,
    line: Line,
    count: usize,
    lent: &mut Lent,
) {
    let colors = lend_front(lent.list, count);
    let answer = color(case, line, colors);
    put_colored(output, line.name, answer, colors);
    output.put('\n');
}

// As much of the text as was lent, then an empty line.
fn call_matchdays(output: &mut Output<impl Print>, case: Case, line: Line, lent: &mut Lent) {
    let page = lend_front(lent.bytes, line.first);
    let length = matchday_text::matchday_text(case.file, page);
    output.put_report(line.name, "length", length);
    output.put('\n');
    output.put_bytes(front(page, length));
    output.put('\n');
}

// The line's call. A strategy's number comes before that of the colours.
pub(crate) fn call(output: &mut Output<impl Print>, case: Case, line: Line, lent: &mut Lent) {
    match line.name {
        Name::GreedyNodeColorWithColoringStrategy | Name::GreedyEdgeColorWithColoringStrategy => {
            call_coloring(output, case, line, line.second, lent)
        }
        Name::GreedyNodeColor
        | Name::GreedyNodeColorWithPresetColors
        | Name::GreedyEdgeColor
        | Name::MisraGriesEdgeColor
        | Name::MisraGriesAddEdge => call_coloring(output, case, line, line.first, lent),
        Name::Matchdays => call_matchdays(output, case, line, lent),
        _ => replay_calls::call(output, case, line, lent),
    }
}
