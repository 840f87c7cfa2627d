// The colours that the path's edges and the fan's places take (steps 3 and 5). All are read here before `repaint` stores any.
ghost use Rattle.std.specs.Prelude.{◌≡◌};
ghost use Rattle.vizing.specs.MisraGries.{swap};
ghost use Rattle.edge_table.specs.EdgeTable.{exchanged_colors};
ghost use Rattle.recolor.specs.Front.{put_front};
ghost use Rattle.recolor.specs.NewColors.{shifted_colors};

use edge_table::color_of;
use graph::{Color, EdgeIndex};

// The other of c and d, or the colour itself if it is neither.
#[tactic(auto, unfolding(vizing::specs::MisraGries::swap))]
fn swapped(c: Color, d: Color, color: Color) -> Color
    ensures answer { result.0 ≡ swap c.0 d.0 color.0 }
{
    if color == c {
        d
    } else if color == d {
        c
    } else {
        color
    }
}

// The edges' colours with c and d exchanged, to the front of out if it has room for all.
#[tactic(auto, using(crate::proofs::NewColorsLaws::exchanged_short, crate::proofs::NewColorsLaws::exchanged_end))]
pub fn swap_colors(work: &[u16], edges: &[u16], c: Color, d: Color, out: &mut [u16])
    ensures out { out.new ≡ put_front (exchanged_colors work.now c.0 d.0 edges.now) out.old }
{
    if out.len() < edges.len() {
        return;
    }
    for (i, edge) in edges.iter().enumerate() {
        out[i] = swapped(c, d, color_of(work, EdgeIndex(*edge))).0;
    }
}

// For each place of the fan the colour of the next, and for the last place this colour, to the front of out if it has room for all.
#[tactic(auto, using(crate::proofs::NewColorsLaws::shifted_none, crate::proofs::NewColorsLaws::shifted_short))]
pub fn shift_colors(work: &[u16], fan: &[u16], color: Color, out: &mut [u16])
    ensures out { out.new ≡ put_front (shifted_colors work.now fan.now color.0) out.old }
{
    let [_, later @ ..] = fan else {
        return;
    };
    if out.len() < fan.len() {
        return;
    }
    for (i, edge) in later.iter().enumerate() {
        out[i] = color_of(work, EdgeIndex(*edge)).0;
    }
    out[later.len()] = color.0;
}
