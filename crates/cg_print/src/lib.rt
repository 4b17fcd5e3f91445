//! Tree texts written: from a tree to its document, and to the text of that.
#![tactic(auto)]

mod cgroups;
mod keys;
pub mod laws;
mod processes;
mod told;
pub mod tree;
