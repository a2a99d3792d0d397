// What every fill keeps, as the contracts of calls.
ghost use Rattle.outline.specs.Filling.{FillsHaveNoHole, FillsHaveNoSpill, FlatHasNoInside, LiveSidesAreEven};

use plotters_backend::backend::DrawingBackend;

// A closed outline has an even number of live sides on every sweep line, and a flat one has nothing strictly inside. The call does nothing.
pub fn sides_are_even()
    ensures even { LiveSidesAreEven }
    ensures flat { FlatHasNoInside }
{}

// No fill leaves a hole, and no fill of an outline that is not flat spills, on any surface, whatever it holds and by whatever the sides' pixels are mixed. The call does nothing.
pub fn fills_stand<DB: DrawingBackend>(_back: &DB)
    ensures hole { FillsHaveNoHole DB.DrawingBackend.surface }
    ensures spill { FillsHaveNoSpill DB.DrawingBackend.surface }
{}
