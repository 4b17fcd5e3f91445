//! Limit files beyond `LimitFile`.
mod guards;
mod operations;
mod runs;
mod trees;
