//! What one cgroup is made of: its path, owners and modes, limit files, and the processes that stand in it.
#![tactic(auto)]

pub mod brought;
pub mod cgroup;
pub mod controllers;
pub mod files;
pub mod memory;
pub mod other_file;
pub mod others;
pub mod path;
pub mod process;
pub mod told;
pub mod user;
pub mod value;
