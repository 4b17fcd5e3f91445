//! The program as a call: the words of a command line and two texts in, its status and what it writes out.
#![tactic(auto)]

pub mod call;
mod memory;
mod version;
mod words;
