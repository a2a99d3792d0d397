// A sweep line.
ghost use Rattle.std.specs.Prelude.{◌≡◌, ◌≤◌, pos, ◌≤ℤ◌, unsigned_abs};
ghost use Rattle.plotters_backend.specs.Axis.{turned};
ghost use Rattle.polygon.specs.Marking.{index_of};

use plotters_backend::BackendCoord;
use plotters_backend::axis::Axis;

// A sweep line: its axis, where it stands, and the first of its cells.
#[derive(Clone, Copy)]
pub struct SweepLine {
    pub axis: Axis,
    pub at: i32,
    pub low: i32,
    ghost at_near: { unsigned_abs at ≤ 32767 },
    ghost low_near: { unsigned_abs low ≤ 32767 },
}

impl SweepLine {
    // The point of a cell.
    pub fn point(self, cell: i32) -> BackendCoord
        ensures { result ≡ turned self.axis (self.at, cell) }
    {
        self.axis.turn((self.at, cell))
    }

    // Where the mark of a cell stands.
    pub fn index_of(self, cell: i32) -> usize
        requires from { self.low ≤ℤ cell }
        requires near { cell ≤ℤ pos 32768 }
        ensures { result ≡ index_of self.low cell }
    {
        (cell - self.low) as usize
    }
}
