//! Operations that break a subtree, looked for among stated tries.
#![tactic(auto)]

mod asker;
pub mod laws;
mod move_tries;
pub mod plain;
mod probe_tries;
mod write_tries;
