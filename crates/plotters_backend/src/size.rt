// The sizes of surfaces, and the points that lie in them.
ghost use Rattle.std.specs.Prelude.{◌≡◌};
ghost use Rattle.plotters_backend.specs.Sizes.{index_at, size_check};
ghost use Rattle.plotters_backend.specs.Surface.{within};

use crate::BackendCoord;
use crate::error::Refusal;

// The longest side of a surface.
pub const SIDE: u32 = 16384;

// Refused where a side is 0 or above 16,384.
pub fn check_size(size: (u32, u32)) -> Result<(), Refusal>
    ensures { result ≡ size_check size }
{
    let (width, height) = size;
    if width == 0 || height == 0 || width > SIDE || height > SIDE {
        return Err(Refusal::Size);
    }
    Ok(())
}

// Whether a point lies in a size.
pub fn is_within(size: (u32, u32), point: BackendCoord) -> bool
    ensures { result ≡ within size point }
{
    point.0 >= 0 && point.1 >= 0 && (point.0 as u32) < size.0 && (point.1 as u32) < size.1
}

// How many cells of a size come before a point, row after row; none where the point lies outside.
pub fn index_of(size: (u32, u32), point: BackendCoord) -> Option<usize>
    ensures { result ≡ index_at size point }
{
    if !is_within(size, point) {
        return None;
    }
    Some(point.1 as usize * size.0 as usize + point.0 as usize)
}
