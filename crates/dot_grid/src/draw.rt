// A draw as a value, and what it answers.
ghost use Rattle.std.specs.Prelude.{◌≡◌};
ghost use Rattle.dot_grid.specs.Answers.{answer_number};
ghost use Rattle.dot_grid.specs.Draws.{drawing};
ghost use Rattle.plotters_backend.specs.Run.{run};

use dots::fault::SheetFault;
use plotters_backend::BackendCoord;
use plotters_backend::backend::DrawingBackend;
use plotters_backend::error::{DrawingErrorKind, Refusal, number_of};
use plotters_backend::style::BackendColor;
use rasterizer::draw_line;

// A draw with its arguments.
#[derive(Clone, Copy)]
pub enum Draw {
    Pixel(BackendCoord, BackendColor),
    Line(BackendCoord, BackendCoord, BackendColor),
}

// What a draw on a sheet answers.
pub type Answer = Result<(), DrawingErrorKind<SheetFault>>;

// Carries out a draw on any surface.
pub fn carry_out<DB: DrawingBackend>(
    back: &mut DB,
    draw: Draw,
) -> Result<(), DrawingErrorKind<DB::ErrorType>>
    ensures { (result, DB.held back.new) ≡ run DB.surface (DB.held back.old) (drawing (DB.surface.size (DB.held back.old)) draw) }
{
    match draw {
        Draw::Pixel(point, color) => back.draw_pixel(point, color),
        Draw::Line(from, to, color) => draw_line(back, from, to, &color),
    }
}

// The number of an answer: 0 for success.
pub fn answer_number(answer: Answer) -> u32
    ensures { result ≡ answer_number answer }
{
    number_of(answer.map_err(|kind| Refusal::from(kind)))
}
