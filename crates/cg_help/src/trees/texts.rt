//! Values of limit files beyond `LimitFile`: lines.
use std::alloc::{AllocError, Global};
use text_places::shown::quoted;

/// How many bytes a line has at most.
const LONGEST_LINE: usize = 4095;

/// That a text is no line of a file's value.
pub(super) fn line_said(alloc: Global, name: &str, line: &str) -> Result<String, AllocError> {
    let shown = quoted(alloc, line)?;
    let wanted = wanted_of(line);
    format!(in alloc; "{name} doesn't accept '{shown}': {wanted}")
}

/// What is to be written in place of a text that is no line.
fn wanted_of(line: &str) -> &'static str {
    if line.is_empty() {
        "a line has a byte or more; left out, nothing is told of the value"
    } else if LONGEST_LINE < line.len() {
        "a line has at most 4095 bytes"
    } else if line.contains('\n') {
        "write an array of lines, with no newline in them"
    } else if !line.bytes().all(|byte| 32 <= byte && byte <= 126) {
        "a line has printable ASCII alone"
    } else {
        "write words with one space between them"
    }
}

/// That a value has no lines.
pub(super) fn no_lines_said(alloc: Global, name: &str) -> Result<String, AllocError> {
    format!(in alloc;
        "{name} doesn't accept an empty array: write a line or more; left out, nothing is told of the value"
    )
}
