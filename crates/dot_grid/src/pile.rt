// Surfaces that are piles of layers on an archive sheet.
ghost use Rattle.std.specs.Prelude.{◌≡◌, List, [], ◌∷◌, refl};
ghost use Rattle.std.proofs.Common.{ap};
ghost use Rattle.dot_grid.specs.Piles.{Stands};
ghost use Rattle.dots.specs.Grid.{Grid};
ghost use Rattle.run_sheet.specs.Sheets.{grid_of};
ghost use Rattle.window.specs.Layer.{Layer};
ghost use Rattle.window.specs.Parts.{below_of, frame_of};
ghost use Rattle.window.specs.Window.{window_layer};
ghost use Rattle.dot_grid.specs.PilesLemmas.{piled_grid, piled_layer};

use dots::fault::SheetFault;
use plotters_backend::backend::DrawingBackend;
use run_sheet::sheet::RunSheet;
use window::Window;

pub trait OnSheet: DrawingBackend<ErrorType = SheetFault> {
    // the layers, the topmost first
    ghost layers: { Self → List Layer };

    // the dots of the sheet at the bottom
    ghost dots: { Self → Grid };

    // The sheet at the bottom, to look at.
    fn sheet(&self) -> &RunSheet
        ensures { grid_of result.now ≡ dots self.now };

    ghost stands: { Stands Self.DrawingBackend.surface Self.DrawingBackend.held layers dots };
}

// A sheet is a pile of no layer.
impl OnSheet for RunSheet {
    ghost layers = { λ _. [] };

    ghost dots = { grid_of };

    ghost stands = { record { held_layers = λ _. []; held_dots = λ g. g; piled = piled_grid; layers_is = λ _. refl; dots_is = λ _. refl } };

    fn sheet(&self) -> &RunSheet {
        self
    }
}

// A window on a pile is a pile with one layer more.
impl<S: OnSheet> OnSheet for Window<S> {
    ghost layers = { λ w. window_layer (frame_of w) ∷ S.OnSheet.layers (below_of w) };

    ghost dots = { λ w. S.OnSheet.dots (below_of w) };

    ghost stands = { let T = S.OnSheet.stands in
        record {
          held_layers = λ h. window_layer h.1 ∷ T.held_layers h.0;
          held_dots = λ h. T.held_dots h.0;
          piled = piled_layer window_layer S.DrawingBackend.surface S.DrawingBackend.lawful T.held_layers T.held_dots T.piled;
          layers_is = λ w. ap (λ (ls : List Layer). window_layer (frame_of w) ∷ ls) (T.layers_is (below_of w));
          dots_is = λ w. T.dots_is (below_of w);
        } };

    fn sheet(&self) -> &RunSheet {
        self.below().sheet()
    }
}
