//! What every draw and every surface shares: points, axes, sizes, colours, styles, refusals, and the meaning of a surface.
#![tactic(auto)]

pub mod axis;
pub mod backend;
pub mod error;
pub mod laws;
pub mod size;
pub mod style;

// A point, x to the right and y down, with (0, 0) at the top left.
pub type BackendCoord = (i32, i32);
