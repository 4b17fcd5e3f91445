//! Laws of guards and of runs, over the definitions alone: what containment stands on.
#![tactic(auto)]

pub mod guards;
pub mod runs;
