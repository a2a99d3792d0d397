//! Draws on memory that is lent: the caller has it back, and knows every byte of it.
#![tactic(auto)]

ghost use Rattle.std.specs.Prelude.{◌≡◌};
ghost use Rattle.lent_chart.specs.Charted.{charted, framed};
ghost use Rattle.panel.specs.Picture.{picture_of};

use dot_grid::draw::{Draw, carry_out};
use panel::panel::Panel;
use plotters_backend::BackendCoord;
use plotters_backend::error::DrawingErrorKind;
use std::convert::Infallible;
use window::Window;

// One draw on a panel over some memory.
pub fn draw_on_bytes(
    bytes: &mut [u8],
    size: (u32, u32),
    draw: Draw,
) -> Result<(), DrawingErrorKind<Infallible>>
    ensures answer { result ≡ (charted size bytes.old draw).0 }
    ensures bytes { bytes.new ≡ (charted size bytes.old draw).1 }
{
    let mut panel = Panel::new(size, bytes);
    carry_out(&mut panel, draw)
}

// One draw through a window on a panel, which is had back.
pub fn draw_in_window<'a>(
    panel: Panel<'a>,
    corner: BackendCoord,
    extent: (i32, i32),
    draw: Draw,
) -> (Result<(), DrawingErrorKind<Infallible>>, Panel<'a>)
    ensures value { (result.0, picture_of result.1.size result.1.bytes.now) ≡ framed (picture_of panel.entry.size panel.entry.bytes.now) (record { corner = corner; extent = extent }) draw }
    ensures loan { result.1.bytes.ghost_name ≡ panel.entry.bytes.ghost_name }
{
    let mut window = Window::new(panel, corner, extent);
    let answer = carry_out(&mut window, draw);
    (answer, window.into_inner())
}
