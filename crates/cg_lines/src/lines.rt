//! Operation lines: an operation as one line of text, and back.
mod fault;
pub mod laws;
mod operations;
mod read;
mod short;
mod words;
mod write;

pub use fault::LineFault;
pub use read::{LONGEST_LINE, read_op, read_op_in};
pub use short::has_short_line;
pub use words::{LONGEST_VALUE, is_line_value};
pub use write::op_text;
