// The panel as a surface.
ghost use Rattle.std.specs.Prelude.{ℕ};
ghost use Rattle.panel.specs.Lent.{lent, lent_lawful};
ghost use Rattle.panel.specs.Picture.{picture, picture_of};
ghost use Rattle.panel.specs.PictureLaws.{picture_lawful};

use crate::blend::lay;
use crate::panel::{Panel, shown_of};
use plotters_backend::BackendCoord;
use plotters_backend::backend::DrawingBackend;
use plotters_backend::error::DrawingErrorKind;
use plotters_backend::style::BackendColor;
use std::convert::Infallible;

impl<'a> DrawingBackend for Panel<'a> {
    type ErrorType = Infallible;

    ghost surface = { lent ℕ picture };

    ghost held = { λ s. (s.bytes.ghost_name, picture_of s.size s.bytes.now) };

    ghost lawful = { lent_lawful ℕ picture picture_lawful };

    fn get_size(&self) -> (u32, u32) {
        shown_of(self.size, self.bytes.len())
    }

    #[inline]
    fn draw_pixel(
        &mut self,
        point: BackendCoord,
        color: BackendColor,
    ) -> Result<(), DrawingErrorKind<Infallible>> {
        if let Some(at) = self.start(point) {
            lay(self.bytes, at, color);
        }
        Ok(())
    }
}
