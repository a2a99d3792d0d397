//! The draws: each is a function over any surface.
#![tactic(auto)]

mod judge;
mod line;

pub use judge::is_far;
pub use line::{draw_inner_line, draw_line};
