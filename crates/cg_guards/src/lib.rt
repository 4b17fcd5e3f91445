//! The guards of a subtree: the entries on which they stand, the first that fails, and the users for whom they hold.
#![tactic(auto)]

pub mod asked;
pub mod failed;
pub mod identities;
pub mod table;
pub mod users;
