// The sides of an outline.
ghost use Rattle.std.specs.Prelude.{◌≡◌, length};
ghost use Rattle.outline.specs.Sweep.{sides};

use outline::sweep::Side;
use plotters_backend::BackendCoord;
use plotters_backend::axis::Axis;

// Puts the sides of an outline into a pool of as many, in the outline's order, each turned round where that is needed.
pub fn put_sides(axis: Axis, vertices: &[BackendCoord], pool: &mut [Side])
    requires { length pool.old ≡ length vertices.now }
    ensures { pool.new ≡ sides axis vertices.now }
{
    // By the slots and their places: after a `zip` of the slots with the corners nothing would be known of the slots.
    for (i, slot) in pool.iter_mut().enumerate() {
        let to = vertices.get(i + 1).unwrap_or(&vertices[0]);
        *slot = Side::between(axis.turn(vertices[i]), axis.turn(*to));
    }
}
