// The sides between corners that are turned to the axis.
ghost use Rattle.std.specs.Prelude.{◌≡◌};
ghost use Rattle.outline.specs.Sweep.{live, side};

use crate::sweep::Side;
use plotters_backend::BackendCoord;

impl Side {
    // The side between two turned corners, turned round where that is needed.
    pub fn between(from: BackendCoord, to: BackendCoord) -> Side
        ensures { result ≡ side (from, to) }
    {
        let (first, last) = if from.0 <= to.0 {
            (from, to)
        } else {
            (to, from)
        };
        Side {
            m0: first.0,
            s0: first.1,
            m1: last.0,
            s1: last.1,
        }
    }

    // Whether the side is live on the sweep line m.
    pub fn is_live(&self, m: i32) -> bool
        ensures { result ≡ live m self.now }
    {
        self.m0 <= m && m < self.m1
    }
}
