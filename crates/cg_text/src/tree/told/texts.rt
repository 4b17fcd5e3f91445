//! What is wrong with a value of a limit file beyond `LimitFile`.
use crate::tree::said::{is_text_line, member};
use crate::tree::told::Wrong;
use toml::{Table, Value};

/// What is wrong with the value in such a file's table, which is an integer, a line, or an array of lines.
pub(super) fn wrong_text<'d>(table: &'d Table) -> Option<Wrong<'d>> {
    match member(table, "value")? {
        Value::String(text) => wrong_line(text.as_str()),
        Value::Array(lines) => wrong_lines(lines.as_slice()),
        _ => None,
    }
}

/// The first of some lines that is none, or that there are none.
fn wrong_lines(lines: &[Value]) -> Option<Wrong<'_>> {
    if lines.is_empty() {
        return Some(Wrong::NoLines);
    }
    for line in lines {
        if let Some(wrong) = line.as_str().and_then(wrong_line) {
            return Some(wrong);
        }
    }
    None
}

fn wrong_line(text: &str) -> Option<Wrong<'_>> {
    if is_text_line(text) {
        None
    } else {
        Some(Wrong::NotALine(text))
    }
}
