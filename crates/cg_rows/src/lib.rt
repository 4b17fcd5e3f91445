//! How a tree of cgroups is kept.
#![tactic(auto)]

pub mod processes;
pub mod rows;
pub mod tables;
