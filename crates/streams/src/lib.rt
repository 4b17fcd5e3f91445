//! Input and output: who opens files, and readers and writers that keep, try again, read whole and write whole.
#![tactic(auto)]

pub mod again;
pub mod files;
pub mod kept;
pub mod line;
pub mod read;
pub mod write;
