//! Runs: what each clause of a verdict is broken by, and what a replay counts.
mod clauses;
mod counted;
pub mod trees;
