//! The window that stands on any surface, and where its places lie below.
#![tactic(auto)]

ghost use Rattle.std.specs.Prelude.{◌≡◌};
ghost use Rattle.window.specs.Parts.{below_of, frame_of};
ghost use Rattle.window.specs.Window.{windowed};
ghost use Rattle.window.specs.WindowLaws.{windowed_lawful};

use crate::frame::Frame;
use plotters_backend::BackendCoord;
use plotters_backend::backend::DrawingBackend;
use plotters_backend::error::DrawingErrorKind;
use plotters_backend::style::BackendColor;

pub mod frame;

// A window, and the surface that it stands on.
#[derive(Drop)]
pub struct Window<S> {
    below: S,
    frame: Frame,
}

impl<S> Window<S> {
    // A window at a corner and of an extent, as asked for.
    pub fn new(below: S, corner: BackendCoord, extent: (i32, i32)) -> Window<S>
        ensures stands { below_of result ≡ below }
        ensures asked { frame_of result ≡ record { corner = corner; extent = extent } }
    {
        Window {
            below,
            frame: Frame { corner, extent },
        }
    }

    // The surface below, had back.
    pub fn into_inner(self) -> S
        ensures { result ≡ below_of self }
    {
        self.below
    }

    // The surface below, to look at.
    pub fn below(&self) -> &S
        ensures { result.now ≡ below_of self.now }
    {
        &self.below
    }
}

// The pixels of a window are those of the surface below, shifted by the corner.
impl<S: DrawingBackend> DrawingBackend for Window<S> {
    type ErrorType = S::ErrorType;

    ghost surface = { windowed S.DrawingBackend.surface };

    ghost held = { λ w. (S.DrawingBackend.held (below_of w), frame_of w) };

    ghost lawful = { windowed_lawful S.DrawingBackend.surface S.DrawingBackend.lawful };

    fn get_size(&self) -> (u32, u32) {
        self.frame.size_shown(self.below.get_size())
    }

    fn draw_pixel(
        &mut self,
        point: BackendCoord,
        color: BackendColor,
    ) -> Result<(), DrawingErrorKind<S::ErrorType>> {
        match self.frame.place_below(self.below.get_size(), point) {
            Some(place) => self.below.draw_pixel(place, color),
            None => Ok(()),
        }
    }
}
