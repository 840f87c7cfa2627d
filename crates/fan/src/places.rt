// The fan's places up to w (step 4).
ghost use Rattle.std.specs.Prelude.{◌≡◌, ◌+◌, length, drop};
ghost use Rattle.fan.specs.TablePlaces.{table_places};

use edge_table::is_free;
use edge_walk::far_end;
use graph::{Color, EdgeIndex, NodeIndex};

// How many places the fan at the node has up to w, the first whose far end has the colour free; far is that of place 0. The last
// place is not asked: it is w if no place before it is.
#[tactic(auto, using(crate::proofs::TablePlacesLaws::places_found, crate::proofs::TablePlacesLaws::places_next, crate::proofs::TablePlacesLaws::places_end))]
pub fn places_to(
    ends: &[u16],
    table: &[u16],
    fan: &[u16],
    color: Color,
    node: NodeIndex,
    far: NodeIndex,
) -> usize
    ensures answer { result ≡ 1 + length (table_places ends.now table.now color.0 node.0 far.0 (drop 1 fan.now)) }
{
    let mut end = far;
    for count in 1..fan.len() {
        if is_free(table, end, color) {
            return count;
        }
        end = far_end(ends, EdgeIndex(fan[count]), node);
    }
    fan.len().max(1)
}
