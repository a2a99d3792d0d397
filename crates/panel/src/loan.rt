// Draws on memory that the caller has again afterwards, and then knows byte for byte.
ghost use Rattle.std.specs.Prelude.{◌≡◌, Ok};
ghost use Rattle.plotters_backend.specs.Run.{all, run};
ghost use Rattle.panel.specs.Picture.{handed, inlaid, picture};

use crate::panel::Panel;
use plotters_backend::BackendCoord;
use plotters_backend::backend::DrawingBackend;
use plotters_backend::error::DrawingErrorKind;
use plotters_backend::style::BackendColor;
use std::convert::Infallible;

// One pixel on memory of a size.
pub fn pixel_on_bytes(
    bytes: &mut [u8],
    size: (u32, u32),
    point: BackendCoord,
    color: BackendColor,
) -> Result<(), DrawingErrorKind<Infallible>>
    ensures answer { result ≡ Ok tt }
    ensures memory { bytes.new ≡ (inlaid (handed size bytes.old) point color).bytes }
{
    let mut panel = Panel::new(size, bytes);
    panel.draw_pixel(point, color)
}

// Pixels in turn on any surface, until one is refused.
pub fn draw_pixels<DB: DrawingBackend>(
    back: &mut DB,
    pixels: &[(BackendCoord, BackendColor)],
) -> Result<(), DrawingErrorKind<DB::ErrorType>>
    ensures { (result, DB.held back.new) ≡ run DB.surface (DB.held back.old) (all pixels.now) }
{
    for pixel in pixels {
        back.draw_pixel(pixel.0, pixel.1)?;
    }
    Ok(())
}

// Pixels in turn on memory of a size.
pub fn pixels_on_bytes(
    bytes: &mut [u8],
    size: (u32, u32),
    pixels: &[(BackendCoord, BackendColor)],
) -> Result<(), DrawingErrorKind<Infallible>>
    ensures answer { result ≡ Ok tt }
    ensures memory { bytes.new ≡ (run picture (handed size bytes.old) (all pixels.now)).1.bytes }
{
    let mut panel = Panel::new(size, bytes);
    draw_pixels(&mut panel, pixels)
}
