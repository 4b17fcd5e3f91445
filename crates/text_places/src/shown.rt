//! Bytes as they are shown: with nothing in them that a terminal would act on.
ghost use Rattle.std.specs.Prelude.{◌≡◌, ◌++◌, ◌<◌, IfOk, OnOk, string_bytes};
ghost use Rattle.text_places.specs.Shown.{digit, shown_byte, shown_within, shown, indented, IsQuoteOf};

use std::alloc::{AllocError, Global};

/// How many bytes of an input are quoted at most.
const LONGEST_QUOTE: usize = 200;

/// A hexadecimal digit.
fn digit(number: u8) -> u8
    requires { number < 16 }
    ensures { result ≡ digit number }
{
    if number < 10 {
        b'0' + number
    } else {
        b'W' + number
    }
}

/// Adds a byte as it is shown: printable ASCII by itself, any other by its two hexadecimal digits.
fn push_shown(out: &mut String, byte: u8) -> Result<(), AllocError>
    ensures { OnOk result (string_bytes out.new ≡ string_bytes out.old ++ shown_byte byte) }
{
    if 32 <= byte && byte <= 126 {
        out.push(char::from(byte))
    } else {
        out.push_str("\\x")?;
        out.push(char::from(digit(byte / 16)))?;
        out.push(char::from(digit(byte % 16)))
    }
}

/// Adds a byte of a text of lines: behind a newline the next line begins with two spaces.
fn push_within(out: &mut String, byte: u8) -> Result<(), AllocError>
    ensures { OnOk result (string_bytes out.new ≡ string_bytes out.old ++ shown_within byte) }
{
    if byte == b'\n' {
        out.push_str("\n  ")
    } else {
        push_shown(out, byte)
    }
}

/// The lines of a text, each two spaces in and ended by a newline, with nothing in them that a terminal would act on.
pub fn indented(alloc: Global, text: &str) -> Result<Vec<u8>, AllocError>
    ensures { IfOk result (λ out. out.items ≡ indented text.now) }
{
    let mut out = String::from_str(alloc, "  ")?;
    for byte in text.as_bytes() {
        push_within(&mut out, *byte)?;
    }
    out.push_str("\n")?;
    Ok(out.into_bytes())
}

/// Bytes as they are shown.
pub fn shown(alloc: Global, bytes: &[u8]) -> Result<String, AllocError>
    ensures { IfOk result (λ text. string_bytes text ≡ shown bytes.now) }
{
    let mut out = String::new(alloc);
    for byte in bytes {
        push_shown(&mut out, *byte)?;
    }
    Ok(out)
}

/// A text as it is quoted: on one line, and cut where it is long.
pub fn quoted(alloc: Global, text: &str) -> Result<String, AllocError>
    ensures { IfOk result (λ quote. IsQuoteOf text.now (string_bytes quote)) }
{
    let mut quote = String::new(alloc);
    for byte in text.as_bytes() {
        if LONGEST_QUOTE <= quote.len() + 4 {
            quote.push_str("..")?;
            return Ok(quote);
        }
        push_shown(&mut quote, *byte)?;
    }
    Ok(quote)
}
