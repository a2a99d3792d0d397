//! Filled outlines.
#![tactic(auto)]

mod bounds;
mod fill;
mod line;
mod live;
mod marks;
mod rims;
mod sides;
mod sweep;
mod walk;

pub use fill::fill_polygon;
