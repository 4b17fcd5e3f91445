//! What `check` prints as an escape, replayed: laws of the reports, over the definitions alone.
#![tactic(auto)]

pub mod laws;
