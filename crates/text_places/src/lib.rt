//! What is found and shown of a text that somebody mistyped: the nearest of some names, a place by line and column, where a key of
//! TOML stands, bytes as a terminal may see them. It stands on no crate of these.
#![tactic(auto)]

pub mod near;
pub mod position;
pub mod scan;
pub mod shown;
