//! Dots and pairs: the plain grid of dots that an archive sheet means, its one form as pairs, and its bytes.
#![tactic(auto)]

pub mod fault;
pub mod pair;
