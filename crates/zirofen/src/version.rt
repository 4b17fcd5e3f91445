//! Which version this is, and of which sources: the first digits of their sum, which leaves this file out, and the version not. Written by
//! tools/build.

pub const VERSION: &str = "0.3.0 (99576506ecbc)";
