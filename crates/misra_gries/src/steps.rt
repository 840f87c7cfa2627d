// The step of one edge: its fan, the path exchanged, the fan rotated.
ghost use Rattle.std.specs.Prelude.{◌≡◌, ◌≤◌, length};
ghost use Rattle.edge_table.specs.EdgeTable.{exchanged_colors};
ghost use Rattle.repaint.specs.Repaint.{state, repainted};
ghost use Rattle.misra_gries.specs.Step.{Ready, Stepped, Exchanging, Exchanged, Rotating, Rotated, Turning, Turned};

use crate::grow::grow;
use edge_table::{is_free, smallest_free};
use edge_walk::{edges_at, end_at, far_end};
use fan::places_to;
use graph::{Color, EdgeIndex, Graph, NodeIndex};
use recolor::{follow, shift_colors, swap_colors};
use repaint::repaint;

// Short arrays have so many places: they are cleared sooner than those with a place for each node.
const FEW: usize = 32;

// The path's edges exchange c and d. The colours are written to the lent slice first.
fn exchange_edges(
    ends: &[u16],
    work: &mut [u16],
    table: &mut [u16],
    path: &[u16],
    c: Color,
    d: Color,
    colors: &mut [u16],
)
    requires { length path.now ≤ length colors.old }
    ensures exchanged { state work.new table.new ≡ repainted ends.now (state work.old table.old) path.now (exchanged_colors work.old c.0 d.0 path.now) }
{
    swap_colors(work, path, c, d, colors);
    repaint(ends, work, table, path, &colors[..path.len()]);
}

// The path from the node along d, c, d and so on exchanges c and d; the answer is the number of its edges. Where d is free at the node there
// is no path, and no array has to be cleared for it; a path that ends before a short array does takes short ones.
fn exchange_path(
    n: usize,
    ends: &[u16],
    work: &mut [u16],
    table: &mut [u16],
    node: NodeIndex,
    c: Color,
    d: Color,
) -> usize
    requires { Exchanging ends.now n work.old table.old node.0 c.0 d.0 }
    ensures exchanged { Exchanged n ends.now work.old node.0 c.0 d.0 result work.new table.new }
{
    if is_free(table, node, d) {
        return 0;
    }
    if n >= FEW {
        let mut edges = [0u16; FEW];
        let len = follow(ends, table, node, d, c, &mut edges);
        if len < FEW {
            exchange_edges(ends, work, table, &edges[..len], c, d, &mut [0; FEW]);
            return len;
        }
    }
    let mut edges = [0u16; Graph::MAX_NODES];
    let len = follow(ends, table, node, d, c, &mut edges[..n]);
    exchange_edges(
        ends,
        work,
        table,
        &edges[..len],
        c,
        d,
        &mut [0; Graph::MAX_NODES],
    );
    len
}

// Each of the fan's places takes the colour of the next, the last takes d. The colours are written to the lent slice first.
fn rotate_places(
    ends: &[u16],
    work: &mut [u16],
    table: &mut [u16],
    fan: &[u16],
    d: Color,
    colors: &mut [u16],
)
    requires { Rotating ends.now work.old table.old fan.now d.0 (length colors.old) }
    ensures rotated { Rotated ends.now work.old fan.now d.0 work.new table.new }
{
    shift_colors(work, fan, d, colors);
    repaint(ends, work, table, fan, &colors[..fan.len()]);
}

// The same. Where the fan has one place, only that takes d, and no array has to be cleared for it; a few places take a short one.
fn rotate_fan(ends: &[u16], work: &mut [u16], table: &mut [u16], fan: &[u16], d: Color)
    requires { Rotating ends.now work.old table.old fan.now d.0 512 }
    ensures rotated { Rotated ends.now work.old fan.now d.0 work.new table.new }
{
    if fan.len() == 1 {
        repaint(ends, work, table, fan, &[d.0]);
    } else if fan.len() <= FEW {
        rotate_places(ends, work, table, fan, d, &mut [0; FEW]);
    } else {
        rotate_places(ends, work, table, fan, d, &mut [0; Graph::MAX_NODES]);
    }
}

// Steps 2 to 5 for an edge whose fan is given. The answer is the one new colour that may be greater than all before.
fn exchange_and_rotate(
    n: usize,
    ends: &[u16],
    work: &mut [u16],
    table: &mut [u16],
    fan: &[u16],
    edge: EdgeIndex,
    node: NodeIndex,
    far: NodeIndex,
) -> Color
    requires { Turning n ends.now work.old table.old fan.now edge.0 node.0 far.0 }
    ensures turned { Turned n ends.now work.old edge.0 result.0 work.new table.new }
{
    let last = fan.len() - 1;
    let end = far_end(ends, EdgeIndex(fan[last]), node);
    let c = smallest_free(table, node);
    let d = smallest_free(table, end);
    let len = exchange_path(n, ends, work, table, node, c, d);
    let count = places_to(ends, table, fan, d, node, far);
    rotate_fan(ends, work, table, &fan[..count], d);
    if len == 0 { d } else { c }
}

// Colours one edge.
pub(crate) fn step(
    n: usize,
    ends: &[u16],
    starts: &[u16],
    entries: &[u16],
    work: &mut [u16],
    table: &mut [u16],
    marks: &mut [u16],
    edge: EdgeIndex,
) -> Color
    requires { Ready n ends.now starts.now entries.now work.old table.old marks.old edge.0 }
    ensures stepped { Stepped n ends.now starts.now entries.now work.old table.old marks.old edge.0 result.0 work.new table.new marks.new }
{
    let k = edge.0 as usize;
    let node = end_at(ends, 2 * k);
    let far = end_at(ends, 2 * k + 1);
    let near = edges_at(starts, entries, node);
    let mut fan = [0u16; Graph::MAX_NODES];
    let len = grow(
        ends,
        work,
        table,
        marks,
        edge.0 + 1,
        near,
        edge,
        node,
        &mut fan,
    );
    exchange_and_rotate(n, ends, work, table, &fan[..len], edge, node, far)
}
