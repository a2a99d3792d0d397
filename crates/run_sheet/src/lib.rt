//! The archive sheet: dark and light dots, the dark ones held as pairs of offset and length.
#![tactic(auto)]

pub mod sheet;
