// The path (step 3).
ghost use Rattle.std.specs.Prelude.{◌≡◌, length};
ghost use Rattle.graph.specs.Table.{over};
ghost use Rattle.recolor.specs.TablePath.{table_path};

use edge_table::edge_of_color;
use edge_walk::far_end;
use graph::{Color, NodeIndex};
use std::mem;

// The path from the node along colours first, second, first and so on, as far as it goes and out has room, to the front of
// out; the answer is the number of its edges.
#[tactic(auto, using(crate::proofs::TablePathLaws::follow_start, crate::proofs::TablePathLaws::follow_none, crate::proofs::TablePathLaws::follow_full))]
pub fn follow(
    ends: &[u16],
    table: &[u16],
    node: NodeIndex,
    first: Color,
    second: Color,
    out: &mut [u16],
) -> usize
    ensures answer { result ≡ length (table_path ends.now table.now (length out.old) node.0 first.0 second.0) }
    ensures out { out.new ≡ over (table_path ends.now table.now (length out.old) node.0 first.0 second.0) out.old }
{
    let mut end = node;
    let mut color = first;
    let mut other = second;
    // never full where out has a place for each node: no node comes twice
    for len in 0..out.len() {
        let Some(edge) = edge_of_color(table, end, color) else {
            return len;
        };
        out[len] = edge.0;
        end = far_end(ends, edge, end);
        mem::swap(&mut color, &mut other);
    }
    out.len()
}
