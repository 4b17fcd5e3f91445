//! The lines of operations and of their outcomes.
#![tactic(auto)]

pub mod lines;
pub mod outcome;
