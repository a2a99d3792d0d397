// A surface that counts the pixels handed to it, and passes them on.
ghost use Rattle.std.specs.Prelude.{◌≡◌};

use plotters_backend::BackendCoord;
use plotters_backend::backend::DrawingBackend;
use plotters_backend::error::DrawingErrorKind;
use plotters_backend::style::BackendColor;

#[derive(Drop)]
pub struct Counted<S: Drop> {
    below: S,
    count: u64,
}

impl<S: Drop> Counted<S> {
    pub fn new(below: S) -> Counted<S>
        ensures below { result.below ≡ below }
        ensures count { result.count ≡ 0 }
    {
        Counted { below, count: 0 }
    }

    pub fn count(&self) -> u64
        ensures { result ≡ self.now.count }
    {
        self.count
    }
}

impl<S: DrawingBackend + Drop> DrawingBackend for Counted<S> {
    type ErrorType = S::ErrorType;

    ghost surface = { S.DrawingBackend.surface };

    ghost held = { λ c. S.DrawingBackend.held c.below };

    ghost lawful = { S.DrawingBackend.lawful };

    fn get_size(&self) -> (u32, u32) {
        self.below.get_size()
    }

    fn draw_pixel(
        &mut self,
        point: BackendCoord,
        color: BackendColor,
    ) -> Result<(), DrawingErrorKind<S::ErrorType>> {
        self.count = self.count.wrapping_add(1);
        self.below.draw_pixel(point, color)
    }
}
