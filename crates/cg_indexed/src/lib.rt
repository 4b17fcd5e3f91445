//! A tree of cgroups kept by places, found through their paths' texts, with kept counts.
#![tactic(auto)]

pub mod indexed;
