// The weights, and a worked pixel, as the contracts of calls.
ghost use Rattle.std.specs.Prelude.{◌≡◌};
ghost use Rattle.panel.specs.Exact.{WeightsAreExact};
ghost use Rattle.panel.specs.Worked.{HalfWhiteOnBlack, laid_bytes};

use crate::loan::pixel_on_bytes;
use plotters_backend::style::BackendColor;

// The weight of every alpha is the exact whole part of 256 times it, held between 0 and 256. The call does nothing.
pub fn exact_weights()
    ensures { WeightsAreExact }
{}

// White at alpha 0.5 laid on one black cell gives (127, 127, 127), and the byte beyond the cell stays.
pub fn worked_panel() -> [u8; 4]
    ensures rule { HalfWhiteOnBlack }
    ensures memory { result ≡ laid_bytes }
{
    let mut bytes = [0, 0, 0, 9];
    let _ = pixel_on_bytes(
        &mut bytes,
        (1, 1),
        (0, 0),
        BackendColor {
            alpha: 0.5,
            rgb: (255, 255, 255),
        },
    );
    bytes
}
