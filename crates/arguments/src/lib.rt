//! The command line of `zirofen`: its words in, a request out.
#![tactic(auto)]

mod command;
pub mod everyone;
pub mod fault;
pub mod format;
pub mod named_pair;
pub mod named_user;
pub mod request;
pub mod usage;
