// The sides that are live on a sweep line.
ghost use Rattle.std.specs.Prelude.{◌≡◌, ◌≤◌, length, take};
ghost use Rattle.polygon.specs.Live.{edge_at, live_edges};

use edges::side::Edge;
use outline::sweep::Side;

// The side on the sweep line m, as an edge.
fn edge_at(side: &Side, m: i32) -> Edge
    ensures { result ≡ edge_at m side.now }
{
    Edge {
        epoch: m.abs_diff(side.m0),
        total_epoch: side.m1.abs_diff(side.m0),
        slave_begin: side.s0,
        slave_end: side.s1,
    }
}

// Puts the sides that are live on the sweep line m into the pool, in the outline's order, and answers how many they are.
// The pool is lent and as long as the outline, so the live sides are its first ones and their number is told beside it.
// After a `zip` of the pool with the live sides nothing would be known of what was written into it.
pub fn gather(sides: &[Side], m: i32, live: &mut [Edge]) -> usize
    requires { length sides.now ≤ length live.old }
    ensures count { result ≡ length (live_edges m sides.now) }
    ensures edges { take result live.new ≡ live_edges m sides.now }
{
    let mut count = 0;
    for side in sides {
        if side.is_live(m) {
            live[count] = edge_at(side, m);
            count += 1;
        }
    }
    count
}
