//! What a filled outline means, over whole numbers, and what every fill keeps.
#![tactic(auto)]

pub mod promises;
pub mod sides;
pub mod sweep;
