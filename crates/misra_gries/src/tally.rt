// The tally of a run.
ghost use Rattle.std.specs.Prelude.{◌≡◌, ◌<◌, ◌+◌, ◌^◌, length};
ghost use Rattle.vizing.specs.MisraGries.{greatest_color};
ghost use Rattle.misra_gries.specs.Step.{noted_of, tally_days};

use graph::Color;
use stored_colors::greatest_stored;

// Edges coloured, and the greatest colour that any edge has; both 0 before the first edge.
#[derive(Clone, Copy)]
pub(crate) struct Tally {
    pub edges: usize,
    pub greatest: u16,
}

impl Tally {
    // The tally of stored colours, one for each edge.
    pub(crate) fn of(stored: &[u16]) -> Self
        ensures answer { (result.edges ≡ length stored.now) × (result.greatest ≡ greatest_color stored.now) }
    {
        Tally {
            edges: stored.len(),
            greatest: greatest_stored(stored),
        }
    }

    // One edge more, of this colour.
    pub(crate) fn noted(self, color: Color) -> Self
        requires { self.edges + 1 < 2 ^ 64 }
        ensures answer { result ≡ noted_of self color.0 }
    {
        Tally {
            edges: self.edges + 1,
            greatest: self.greatest.max(color.0),
        }
    }

    // Days from the tally, of colours without a gap: the list is not gone through again.
    pub(crate) fn days(self) -> usize
        ensures answer { result ≡ tally_days self }
    {
        if self.edges == 0 {
            0
        } else {
            self.greatest as usize + 1
        }
    }
}
