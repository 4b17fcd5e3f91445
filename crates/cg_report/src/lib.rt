//! The lines of verdicts, of answers and of audits.
#![tactic(auto)]

pub mod answer;
pub mod audit;
pub mod pair;
pub mod verdict;
