// What is asked of the numbers of a draw before any work.
ghost use Rattle.std.specs.Prelude.{◌≡◌};
ghost use Rattle.rasterizer.specs.Judge.{ends_check, far, within_reach};

use plotters_backend::BackendCoord;
use plotters_backend::error::Refusal;

// The furthest that a coordinate handed in may lie from 0.
pub const FAR: u32 = 16384;

// The furthest that an end of a line that another draw is built on may lie from 0.
pub const NEAR: u32 = 32767;

// Whether both coordinates of the point lie within `reach` of 0.
fn is_within_reach(reach: u32, point: BackendCoord) -> bool
    ensures { result ≡ within_reach reach point }
{
    point.0.unsigned_abs() <= reach && point.1.unsigned_abs() <= reach
}

// Whether a coordinate of the point is too far from 0.
pub fn is_far(point: BackendCoord) -> bool
    ensures { result ≡ far point }
{
    !is_within_reach(FAR, point)
}

// Refused where an end of a line does not lie within `reach` of 0.
pub fn check_ends(reach: u32, from: BackendCoord, to: BackendCoord) -> Result<(), Refusal>
    ensures { result ≡ ends_check reach from to }
{
    if is_within_reach(reach, from) && is_within_reach(reach, to) {
        Ok(())
    } else {
        Err(Refusal::Far)
    }
}
