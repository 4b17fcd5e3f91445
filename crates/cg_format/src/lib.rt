//! What tree texts mean: their formats, their faults, and what holds of every text by the definitions alone.
#![tactic(auto)]

pub mod fault;
pub mod format;
pub mod large;
pub mod laws;
