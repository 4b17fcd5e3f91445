//! Places of cgroups: found by the texts of paths, linked to those of the parents, and what lies at each.
#![tactic(auto)]

pub mod links;
pub mod nodes;
pub mod path_index;
pub mod uses;
