//! What isn't TOML.
use crate::trees::cures::{other_kind, size_of};
use std::alloc::{AllocError, Global};
use text_places::position::Position;
use toml::de::Error;

/// How many digits of an octal number are shown at most.
const MOST_DIGITS: usize = 21;

/// Where a text isn't TOML, and what is to be written there where that can be told.
pub(super) fn syntax_said(
    alloc: Global,
    bytes: &[u8],
    error: &Error,
) -> Result<String, AllocError> {
    let Some(span) = error.span() else {
        return format!(in alloc; "{error}");
    };
    let position = Position::at(bytes, span.start);
    let (named, drawn) = (position.named(alloc)?, position.drawn(alloc)?);
    let message = error.message();
    if let Some(kind) = std::str::from_utf8(bytes)
        .ok()
        .and_then(|text| other_kind(text))
    {
        return format!(in alloc; "{kind}\n{named}: {message}\n{drawn}");
    }
    match cure(alloc, position.behind)? {
        Some(cure) => format!(in alloc; "{named}: {message}\n{drawn}\n{cure}"),
        None => format!(in alloc; "{named}: {message}\n{drawn}"),
    }
}

/// How a value is written: an octal number as C has it, or `max` without quotes.
fn cure(alloc: Global, behind: &[u8]) -> Result<Option<String>, AllocError> {
    if behind.starts_with(b"max") {
        return Ok(Some(String::from_str(alloc, "max is a text: write \"max\"")?));
    }
    if let Some(bytes) = size_of(first_word(behind)) {
        return Ok(Some(format!(in alloc; "a number has no unit: write {bytes}")?));
    }
    match octal_digits(behind) {
        Some(digits) => Ok(Some(format!(in alloc;
            "an octal number begins with 0o: write 0o{digits}"
        )?)),
        None => Ok(None),
    }
}

/// What stands there up to the end of a value.
fn first_word(behind: &[u8]) -> &str {
    let len = behind
        .iter()
        .take_while(|byte| byte.is_ascii_alphanumeric())
        .count();
    match behind.get(..len) {
        Some(word) => std::str::from_utf8(word).unwrap_or(""),
        None => "",
    }
}

/// The octal digits of a number that begins with 0 and has more of them.
fn octal_digits(text: &[u8]) -> Option<&str> {
    let digits = text.strip_prefix(b"0")?;
    let count = digits
        .iter()
        .take_while(|byte| matches!(**byte, b'0'..=b'7'))
        .count();
    if count == 0 || MOST_DIGITS < count {
        return None;
    }
    std::str::from_utf8(digits.get(..count)?).ok()
}
