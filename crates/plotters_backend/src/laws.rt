// The laws of drawing on any surface, as the contract of a call.
ghost use Rattle.plotters_backend.specs.Laws.{DrawsJoin, OpaquePixelsStand, SizesStay, UntouchedCellsStay};

use crate::backend::DrawingBackend;

// What every draw on a surface keeps, whatever its pixels are. The call does nothing.
pub fn laws_of<DB: DrawingBackend>(_back: &DB)
    ensures sizes { SizesStay DB.surface }
    ensures joined { DrawsJoin DB.surface }
    ensures untouched { UntouchedCellsStay DB.surface }
    ensures opaque { OpaquePixelsStand DB.surface }
{}
