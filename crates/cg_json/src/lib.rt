//! Answers as JSON.
#![tactic(auto)]

pub mod advice;
pub mod answer;
pub mod audit;
pub mod entry;
pub mod line;
pub mod members;
pub mod operation;
pub mod outcome;
pub mod verdict;
