// The axis along which a line or an outline is drawn.
ghost use Rattle.std.specs.Prelude.{◌≡◌};
ghost use Rattle.plotters_backend.specs.Axis.{turned};

use crate::BackendCoord;

// Whether columns or rows of cells come one after the other.
#[derive(Clone, Copy)]
pub enum Axis {
    Columns,
    Rows,
}

impl Axis {
    // A point with its coordinate along the axis first, and back again.
    pub fn turn(self, point: BackendCoord) -> BackendCoord
        ensures { result ≡ turned self point }
    {
        match self {
            Axis::Columns => point,
            Axis::Rows => (point.1, point.0),
        }
    }
}
