//! What stands below the line of a fault: help, from a second look at the words, the files and the input; and what is said to a terminal
//! that is waited for.
//!
//! No answer rests on it. Where the second look fails, or finds nothing, there is no help.
#![tactic(auto)]

pub mod beside;
mod files;
mod given;
pub mod help;
mod input;
mod lines;
pub mod modes;
mod names;
mod paths;
mod trees;
pub mod waiting;
