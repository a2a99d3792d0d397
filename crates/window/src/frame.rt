// Where a window stands on a surface of some size.
ghost use Rattle.std.specs.Prelude.{◌≡◌, ◌<◌, ◌≤◌, pos, ◌+ℤ◌, ◌≤ℤ◌, ◌<ℤ◌, None};
ghost use Rattle.window.specs.Window.{begins, corner_on, reaches, window_layer};

use plotters_backend::BackendCoord;
use plotters_backend::size::{SIDE, is_within};

// Where a window begins on a side of the surface below.
fn begin_of(side: u32, at: i32) -> u32
    ensures { result ≡ begins side at }
{
    let from = if at < 0 { 0 } else { at as u32 };
    if side == 0 { 0 } else { from.min(side - 1) }
}

// How far it reaches from there.
fn reach_of(side: u32, at: i32, extent: i32) -> u32
    ensures { result ≡ reaches side at extent }
{
    let want = if extent < 1 { 1 } else { extent as u32 };
    let left = side.saturating_sub(begin_of(side, at));
    want.min(left)
}

// A number of a place, shifted.
fn shift(at: i32, by: u32) -> i32
    requires low { pos 0 ≤ℤ at }
    requires high { at <ℤ pos 16384 }
    requires by { by ≤ 16384 }
    ensures { result ≡ at +ℤ pos by }
{
    at + by as i32
}

// The corner and the extent that a window is asked for.
#[derive(Clone, Copy)]
pub struct Frame {
    pub corner: BackendCoord,
    pub extent: (i32, i32),
}

impl Frame {
    // The corner at which the window begins on a surface of some size.
    fn corner_on(self, size: (u32, u32)) -> (u32, u32)
        ensures { result ≡ corner_on size self }
    {
        (
            begin_of(size.0, self.corner.0),
            begin_of(size.1, self.corner.1),
        )
    }

    // The size that the window shows of a surface, never more than there is.
    pub fn size_shown(self, size: (u32, u32)) -> (u32, u32)
        ensures value { result ≡ (window_layer self).size size }
        ensures part { (result.0 ≤ size.0) × (result.1 ≤ size.1) }
    {
        if size.0 == 0 || size.1 == 0 {
            return (0, 0);
        }
        let width = reach_of(size.0, self.corner.0, self.extent.0);
        let height = reach_of(size.1, self.corner.1, self.extent.1);
        (width, height)
    }

    // Where a place of the window lies below. No surface has a side above 16,384, so nothing lies on a larger one.
    pub fn place_below(self, size: (u32, u32), point: BackendCoord) -> Option<BackendCoord>
        ensures small { size.0 ≤ 16384 → size.1 ≤ 16384 → result ≡ (window_layer self).place size point }
        ensures wide { 16384 < size.0 → result ≡ None }
        ensures high { 16384 < size.1 → result ≡ None }
    {
        if size.0 > SIDE || size.1 > SIDE {
            return None;
        }
        let from = self.corner_on(size);
        if !is_within(self.size_shown(size), point) {
            return None;
        }
        Some((shift(point.0, from.0), shift(point.1, from.1)))
    }
}
