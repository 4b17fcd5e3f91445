//! Which version this is: the program's, of whose sources it is made.

pub const VERSION: &str = "0.3.0 (library)";
