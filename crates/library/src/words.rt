//! The words of a command line, one a line but for the first, which is the program's name.
ghost use Rattle.std.specs.Prelude.{◌≡◌, ◌<◌, ◌∷◌, [], map, length, string_bytes, IfOk, IfSome, MatchOption};
ghost use Rattle.library.specs.Calls.{pieces_in, words_in};

use std::alloc::Global;
use std::io::ErrorKind;
use std::{io, str};

/// The name of the program, and the words between the newlines of a text: none of them has one.
///
/// # Errors
/// `InvalidData` where the text isn't UTF-8; `OutOfMemory` where an allocation was refused.
pub(crate) fn words_of(alloc: Global, lines: &[u8]) -> io::Result<Vec<String>>
    ensures { IfOk result (λ words. map string_bytes words.items ≡ words_in lines.now) }
{
    let Ok(lines) = str::from_utf8(lines) else {
        return Err(io::Error::from(ErrorKind::InvalidData));
    };
    let mut words = Vec::new(alloc);
    words.push(String::from_str(alloc, "zirofen")?)?;
    let mut rest = lines;
    while let Some((word, others)) = cut_at_newline(rest) {
        words.push(String::from_str(alloc, word)?)?;
        rest = others;
    }
    words.push(String::from_str(alloc, rest)?)?;
    Ok(words)
}

/// What is before the first newline, and what is behind it.
fn cut_at_newline(lines: &str) -> Option<(&str, &str)>
    ensures pieces { MatchOption result (pieces_in lines.now ≡ lines.now ∷ [])
        (λ parts. pieces_in lines.now ≡ parts.0.now ∷ pieces_in parts.1.now) }
    ensures less { IfSome result (λ parts. length parts.1.now < length lines.now) }
{
    lines.split_once('\n')
}
