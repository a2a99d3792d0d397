//! The colour panel: a surface over lent memory, three bytes a cell.
#![tactic(auto)]

mod blend;
pub mod loan;
pub mod panel;
pub mod worked;
