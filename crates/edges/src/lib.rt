// The sides that a sweep walks along: where each one is, exactly and as a binary64 number, and which comes first.
#![tactic(auto)]

pub mod order;
pub mod side;

pub use self::side::Edge;
