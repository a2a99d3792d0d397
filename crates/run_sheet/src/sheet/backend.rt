// The sheet as a surface.
ghost use Rattle.std.specs.Prelude.{◌≡◌};
ghost use Rattle.dots.specs.Grid.{grid, ink_of};
ghost use Rattle.dots.specs.GridLaws.{grid_lawful};
ghost use Rattle.run_sheet.specs.Sheets.{grid_of};

use crate::sheet::RunSheet;
use dots::fault::SheetFault;
use plotters_backend::BackendCoord;
use plotters_backend::backend::DrawingBackend;
use plotters_backend::error::DrawingErrorKind;
use plotters_backend::style::BackendColor;

// Whether a colour makes a dot dark (true) or light (false); none where it leaves the dot.
fn ink(color: BackendColor) -> Option<bool>
    ensures { result ≡ ink_of color }
{
    // An `if`, since `then` would only put the sum into a closure.
    if color.alpha >= 0.5 {
        let (red, green, blue) = color.rgb;
        let luma = 299 * u32::from(red) + 587 * u32::from(green) + 114 * u32::from(blue);
        Some(luma < 127500)
    } else {
        None
    }
}

impl DrawingBackend for RunSheet {
    type ErrorType = SheetFault;

    ghost surface = { grid };

    ghost held = { grid_of };

    ghost lawful = { grid_lawful };

    fn get_size(&self) -> (u32, u32) {
        self.size
    }

    fn draw_pixel(
        &mut self,
        point: BackendCoord,
        color: BackendColor,
    ) -> Result<(), DrawingErrorKind<SheetFault>> {
        let Some(offset) = self.offset(point) else {
            return Ok(());
        };
        let Some(dark) = ink(color) else {
            return Ok(());
        };
        self.lay(offset, dark)
            .map_err(DrawingErrorKind::DrawingError)
    }
}
