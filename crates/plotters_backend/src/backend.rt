// A surface, by what it means.
ghost use Rattle.std.specs.Prelude.{◌≡◌};
ghost use Rattle.plotters_backend.specs.Surface.{Surface, Lawful, answer};

use crate::BackendCoord;
use crate::error::DrawingErrorKind;
use crate::style::BackendColor;

pub trait DrawingBackend {
    type ErrorType;

    // what it means: what it holds, its size, its cells, its laying rule and its refusal question
    ghost surface: { Surface Self.ErrorType };

    // what this one holds
    ghost held: { Self → surface.Held };

    // that it keeps the laws of a surface
    ghost lawful: { Lawful surface };

    fn get_size(&self) -> (u32, u32)
        ensures { result ≡ surface.size (held self.now) };

    fn draw_pixel(
        &mut self,
        point: BackendCoord,
        color: BackendColor,
    ) -> Result<(), DrawingErrorKind<Self::ErrorType>>
        ensures answer { result ≡ answer (surface.refuses (held self.old) point color) }
        ensures holds { held self.new ≡ surface.laid (held self.old) point color };
}
