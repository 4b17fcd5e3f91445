//! The two ways to keep a tree: whatever is done to both, they answer alike.
pub mod alike;
mod counts;
mod random;
mod runs;
