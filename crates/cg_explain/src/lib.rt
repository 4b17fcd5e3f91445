//! Why a subtree is contained against a user, or why that isn't told: what each row of guards asks, one thing after another, and
//! by what it is so.
#![tactic(auto)]

pub mod counted;
pub mod first;
pub mod laws;
pub mod objects;
pub mod pair;
pub mod second;
pub mod text;
