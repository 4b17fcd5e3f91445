//! The faults of calls over bytes, and their lines.
#![tactic(auto)]

pub mod fault;
