//! Draws in turn on an archive sheet under any pile of windows, told by a plain grid of dots.
#![tactic(auto)]

pub mod archive;
pub mod draw;
pub mod pile;
pub mod replay;
pub mod worked;
