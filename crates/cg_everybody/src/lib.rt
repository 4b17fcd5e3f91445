//! A subtree against everybody but root, whoever there is: whom the entries let in on which its guards stand.
#![tactic(auto)]

pub mod advice;
pub mod asked;
mod entrance;
pub mod explained;
pub mod laws;
pub mod lines;
pub mod objects;
pub mod premises;
mod walk;
