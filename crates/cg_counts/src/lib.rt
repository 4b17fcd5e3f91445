//! Cgroups by path, with kept counts.
#![tactic(auto)]

pub mod cgroups;
