//! What to change where a guard of a subtree fails against users.
#![tactic(auto)]

mod entrants;
pub mod found;
mod gathered;
pub mod laws;
pub mod mend;
pub mod pair;
mod stand;
mod table;
pub mod text;
pub mod ways;
