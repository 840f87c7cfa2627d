// The strategies by number.
ghost use Rattle.std.specs.Prelude.{◌≡◌};
ghost use Rattle.graph.specs.Report.{report_of_checked};
ghost use Rattle.c_answer.specs.Strategy.{strategy_of, strategy_named, code_of_unknown};

use graph::{Graph, Refusal};
use greedy::ColoringStrategy;

// What a number names. No `TryFrom`: the strategies are greedy's, and the numbers C's.
pub fn strategy_of(number: u8) -> Option<ColoringStrategy>
    ensures answer { strategy_named result ≡ strategy_of number }
{
    match number {
        0 => Some(ColoringStrategy::Degree),
        1 => Some(ColoringStrategy::Saturation),
        2 => Some(ColoringStrategy::IndependentSet),
        _ => None,
    }
}

// The answer where no strategy has the number: that of the checks comes first.
pub fn unknown_strategy(checked: Result<Graph, Refusal>) -> u32
    ensures answer { result ≡ code_of_unknown (report_of_checked checked) }
{
    match checked {
        Ok(_) => 255,
        Err(refusal) => refusal.number(),
    }
}
