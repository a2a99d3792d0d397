//! A search for the element that comes first, over every kind of element with a total order.
#![tactic(auto)]

pub mod keyed;
pub mod numbers;
pub mod order;
pub mod place;

pub use self::order::TotalOrder;
pub use self::place::{first, first_by, least};
