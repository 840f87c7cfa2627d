// The fan (step 1). The edges in it are those whose mark is the stamp of this step. Marks of earlier steps are lower, so none is
// ever cleared. No candidate before a place `lo` can join any more, so every search starts there.
ghost use Rattle.std.specs.Prelude.{◌≡◌, ℕ, ◌≤◌, length, get_or, take};
ghost use Rattle.graph.specs.Edges.{edge_count};
ghost use Rattle.vizing.specs.MisraGries.{fan_of};
ghost use Rattle.misra_gries.specs.Step.{FanReady};

use edge_walk::far_end;
use fan::{first_joining, set_mark, skip};
use graph::{EdgeIndex, NodeIndex};

// The fan of the edge at its first end, the node, whose edges are `near`. It goes to the front of out; the answer is its length.
pub(crate) fn grow(
    ends: &[u16],
    work: &[u16],
    table: &[u16],
    marks: &mut [u16],
    stamp: u16,
    near: &[u16],
    edge: EdgeIndex,
    node: NodeIndex,
    out: &mut [u16],
) -> usize
    requires fan_ready { FanReady ends.now (edge_count ends.now) work.now table.now marks.old stamp near.now edge.0 node.0 }
    requires in_bounds { 512 ≤ length out.old }
    ensures out { take result out.new ≡ fan_of ends.now (edge_count ends.now) work.now edge.0 }
    ensures bound { result ≤ 512 }
    ensures marks { (j : ℕ) → get_or marks.new j 0 ≤ stamp }
{
    let mut next = edge;
    let mut lo = 0;
    // never full: a fan has at most as many edges as its node
    for len in 0..out.len() {
        out[len] = next.0;
        set_mark(marks, next, stamp);
        let far = far_end(ends, next, node);
        lo = skip(work, marks, stamp, near, lo);
        let Some(joining) = first_joining(work, table, marks, stamp, far, near, lo) else {
            return len + 1;
        };
        next = joining;
    }
    out.len()
}
