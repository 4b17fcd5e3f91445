//! Tree texts.
#![tactic(auto)]

pub mod tree;
