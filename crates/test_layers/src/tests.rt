//! The tests, by what they are of.
mod cgroups;
mod explained;
mod files;
mod guards;
mod indexed;
mod operations;
mod ops;
mod others;
mod paths;
mod processes;
mod runs;
mod texts;
mod told;
mod trees;
mod users;
