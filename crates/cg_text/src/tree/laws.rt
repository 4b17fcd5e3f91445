//! What holds of every tree text.
pub use cg_format::laws::{states_are_named, texts_are_of_states, texts_are_read};
