// Worked examples, as the contract of a call.
ghost use Rattle.dot_grid.specs.Worked.{WorkedDots};

// What some draws leave on a light sheet of 8 by 8. The call does nothing.
pub fn worked_dots()
    ensures { WorkedDots }
{}
