//! The guards: which one fails first, and what each of them stops.
mod each_alone;
mod first_guard;
mod identities;
mod premises;
pub mod trees;
