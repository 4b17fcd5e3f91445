//! Modes of a tree's text that are written in decimal where an octal number is likely to be meant.
ghost use Rattle.std.specs.Prelude.{◌≡◌, ◌≤◌, length, IfOk};
ghost use Rattle.toml_parser.specs.Lexical.{skip_blank};
ghost use Rattle.cg_help.specs.Modes.{unspaced, goes_on, is_number, number_at, mode_at, is_written, past, key_mode, spelled_mode, mode_words, mode_line};

use cg_cgroup::memory::NoMemory;
use memchr::memchr;
use std::alloc::{AllocError, Global};
use text_places::shown::indented;
use toml_parser::text::{first, skip, skip_blank};
use toml_parser::{ParseError, quoted, starts_string};

/// A mode that is written in decimal and reads as an octal one.
#[derive(Clone, Copy, Debug, PartialEq, Eq)]
pub enum Spelled {
    Of400,
    Of440,
    Of444,
    Of500,
}

/// The first such mode of a tree's text. Strings and comments are passed over as the reader of trees does.
pub fn spelled_mode(alloc: Global, text: &[u8]) -> Result<Option<Spelled>, AllocError>
    ensures { IfOk result (λ mode. mode ≡ spelled_mode text.now) }
{
    if !is_written(text) {
        return Ok(None);
    }
    match std::str::from_utf8(text) {
        Ok(text) => key_mode(alloc, text),
        Err(_) => Ok(None),
    }
}

/// Whether such a mode stands anywhere in a text.
fn is_written(text: &[u8]) -> bool
    ensures { result ≡ is_written text.now }
{
    let mut left = from_letter(text);
    while let Some((_, rest)) = left.split_first() {
        if mode_at(left).is_some() {
            return true;
        }
        left = from_letter(rest);
    }
    false
}

/// A text from the first letter on with which a mode may begin.
fn from_letter(text: &[u8]) -> &[u8]
    ensures same { is_written result.now ≡ is_written text.now }
    ensures length { length result.now ≤ length text.now }
{
    match memchr(b'm', text) {
        Some(at) => &text[at..],
        None => &text[text.len()..],
    }
}

/// What is left of a text behind its first pieces.
#[derive(Drop)]
struct Left<'t> {
    text: &'t str,
}

/// The first such mode that stands outside strings and comments.
fn key_mode(alloc: Global, text: &str) -> Result<Option<Spelled>, AllocError>
    ensures { IfOk result (λ mode. mode ≡ key_mode (length text.now) (skip_blank text.now)) }
{
    let mut left = Left {
        text: skip_blank(text, true),
    };
    for _done in 0..text.len() {
        if let Some(mode) = mode_at(left.text.as_bytes()) {
            return Ok(Some(mode));
        }
        left.text = past(alloc, left.text)?;
    }
    Ok(None)
}

/// Behind the string or the byte at a text's front, and behind the blanks and comments that follow it.
fn past(alloc: Global, text: &str) -> Result<&str, AllocError>
    ensures { IfOk result (λ rest. rest.now ≡ past text.now) }
{
    let byte = first(text);
    if starts_string(text) {
        match quoted(alloc, text) {
            Ok((_, rest)) => Ok(skip_blank(rest, true)),
            Err(ParseError::OutOfMemory) => Err(AllocError),
            Err(ParseError::At(..)) => Ok(""),
        }
    } else if 0 < byte && byte < 128 {
        Ok(skip_blank(skip(text, 1), true))
    } else {
        Ok("")
    }
}

/// What a key `mode` at a text's front has, where it is such a mode.
fn mode_at(text: &[u8]) -> Option<Spelled>
    ensures { result ≡ mode_at text.now }
{
    let value = text.strip_prefix(b"mode")?;
    number_at(unspaced(unspaced(value).strip_prefix(b"=")?))
}

/// A text without the spaces and tabs at its front.
fn unspaced(text: &[u8]) -> &[u8]
    ensures { result.now ≡ unspaced text.now }
{
    let mut left = text;
    while let Some((byte, rest)) = left.split_first() {
        if *byte != b' ' && *byte != b'\t' {
            return left;
        }
        left = rest;
    }
    left
}

/// Which of these modes a number at a text's front is.
fn number_at(text: &[u8]) -> Option<Spelled>
    ensures { result ≡ number_at text.now }
{
    if is_number(b"400", text) {
        Some(Spelled::Of400)
    } else if is_number(b"440", text) {
        Some(Spelled::Of440)
    } else if is_number(b"444", text) {
        Some(Spelled::Of444)
    } else if is_number(b"500", text) {
        Some(Spelled::Of500)
    } else {
        None
    }
}

/// Whether a text begins with a number of these digits.
fn is_number(digits: &[u8], text: &[u8]) -> bool
    ensures { result ≡ is_number digits.now text.now }
{
    match text.strip_prefix(digits) {
        Some(rest) => !goes_on(rest),
        None => false,
    }
}

/// Whether a number's digits go on.
fn goes_on(text: &[u8]) -> bool
    ensures { result ≡ goes_on text.now }
{
    match text {
        [byte, ..] => (b'0' <= *byte && *byte <= b'9') || *byte == b'_',
        [] => false,
    }
}

/// The line that says which mode it is; no bytes where there is none.
pub fn mode_line(alloc: Global, mode: Option<Spelled>) -> Result<Vec<u8>, NoMemory>
    ensures { IfOk result (λ line. line.items ≡ mode_line mode) }
{
    match mode {
        Some(mode) => Ok(indented(alloc, mode_words(mode))?),
        None => Ok(Vec::new(alloc)),
    }
}

fn mode_words(mode: Spelled) -> &'static str
    ensures { result.now ≡ mode_words mode }
{
    match mode {
        Spelled::Of400 => {
            "mode 400 is 0o620, since it is decimal: an octal mode begins with 0o, as 0o400"
        }
        Spelled::Of440 => {
            "mode 440 is 0o670, since it is decimal: an octal mode begins with 0o, as 0o440"
        }
        Spelled::Of444 => {
            "mode 444 is 0o674, since it is decimal: an octal mode begins with 0o, as 0o444"
        }
        Spelled::Of500 => {
            "mode 500 is 0o764, since it is decimal: an octal mode begins with 0o, as 0o500"
        }
    }
}
