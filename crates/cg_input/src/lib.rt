//! The reading of a tree's text.
#![tactic(auto)]

pub mod read;
