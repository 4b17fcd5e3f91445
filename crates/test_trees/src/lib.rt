//! What the crates of tests share: tree texts, changes of them, and random numbers.
#![tactic(auto)]

pub mod changes;
pub mod random;
pub mod texts;
