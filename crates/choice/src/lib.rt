// The choice of the next item of Saturation, by the two counts of each item.
#![tactic(auto)]

ghost use Rattle.std.specs.Prelude.{◌≡◌, ℕ, ◌≤◌, length, get_or, cond, eqb};
ghost use Rattle.choice.specs.Choice.{greatest_below, count_with, option_of, choice_of};

use graph::{Color, Graph, NodeIndex};

// The greatest of the counts, 0 without any.
#[tactic(auto, using(crate::proofs::ChoiceLaws::greatest_none, crate::proofs::ChoiceLaws::greatest_more))]
fn greatest(counts: &[u16]) -> u16
    ensures greatest { let counts = counts.entry.now in result ≡ greatest_below (λ (v : ℕ). get_or counts v 0) (length counts) }
{
    let mut best = 0;
    for count in counts {
        best = best.max(*count);
    }
    best
}

// The count of an item that has this saturation, 0 of any other. Both are read already, so that the compiler can take many at once.
fn count_with(own: u16, saturation: u16, count: u16) -> u16
    ensures answer { result ≡ cond (eqb own saturation) count 0 }
{
    if own == saturation { count } else { 0 }
}

// The greatest waiting count of the items that have this saturation, 0 without any.
#[tactic(auto, using(crate::proofs::ChoiceLaws::greatest_none, crate::proofs::ChoiceLaws::greatest_more))]
fn greatest_among(saturations: &[u16], saturation: u16, waiting: &[u16]) -> u16
    requires { length saturations.now ≡ length waiting.now }
    ensures greatest { let saturations = saturations.entry.now in let waiting = waiting.entry.now in
        result ≡ greatest_below (count_with saturations saturation waiting) (length saturations) }
{
    let mut best = 0;
    for item in 0..saturations.len() {
        best = best.max(count_with(saturations[item], saturation, waiting[item]));
    }
    best
}

// The lowest of the items without a colour that have the greatest saturation of all items and the greatest waiting count of those with that
// saturation; none where an item has no count, or there are more than 4,096. Where an item with a colour has both counts 0 it hides none without.
pub fn choose(colors: &[u16], saturations: &[u16], waiting: &[u16]) -> Option<NodeIndex>
    ensures answer { let colors = colors.entry.now in let saturations = saturations.entry.now in let waiting = waiting.entry.now in
        option_of result ≡ choice_of colors saturations waiting }
{
    let count = colors.len();
    if Graph::MAX_EDGES < count || saturations.len() < count || waiting.len() < count {
        return None;
    }
    let most = greatest(&saturations[..count]);
    let longest = greatest_among(&saturations[..count], most, &waiting[..count]);
    for item in 0..count {
        if saturations[item] == most && waiting[item] == longest && colors[item] == Color::NONE {
            return Some(NodeIndex(item as u16));
        }
    }
    None
}
