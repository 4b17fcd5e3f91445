//! A place in a text: its line and its column, and the line with a caret below it.
ghost use Rattle.std.specs.Prelude.{◌≡◌, ◌++◌, replicate, IfOk, OnOk, string_bytes};
ghost use Rattle.std.specs.Fmt.{decimal};
ghost use Rattle.std.specs.List.{after_last, count_by, position};
ghost use Rattle.text_places.specs.Positions.{is_newline, begins_character, line_of, column_of, line_before, line_behind, first_line, without_return, front_shown, rest_shown, named, drawn};

use crate::shown::shown;
use std::alloc::{AllocError, Global};

/// How many bytes of a line stand before the caret at most, and behind it.
const MOST_BEFORE: usize = 60;

const MOST_BEHIND: usize = 60;

/// A place in a text.
#[derive(Clone, Copy, Debug)]
pub struct Position<'t> {
    /// The number of the line, from 1 on.
    pub line: usize,
    /// The line's bytes before the place, and those from there on.
    pub before: &'t [u8],
    pub behind: &'t [u8],
}

impl<'t> Position<'t> {
    /// The place behind so many bytes of a text, or its end.
    pub fn at(text: &'t [u8], offset: usize) -> Position<'t>
        ensures line { result.line ≡ line_of text.now offset }
        ensures before { result.before.now ≡ line_before text.now offset }
        ensures behind { result.behind.now ≡ line_behind text.now offset }
    {
        let (front, behind) = text.split_at(offset.min(text.len()));
        Position {
            line: newlines(front) + 1,
            before: last_line(front),
            behind: first_line(behind),
        }
    }

    /// The column, of characters, from 1 on.
    pub fn column(self) -> usize
        ensures { result ≡ column_of self.entry.before.now }
    {
        characters(self.before) + 1
    }

    /// The line and the column in words.
    pub fn named(self, alloc: Global) -> Result<String, AllocError>
        ensures { IfOk result (λ said. string_bytes said ≡ named self.entry.line (column_of self.entry.before.now)) }
    {
        let (line, column) = (decimal(alloc, self.line)?, decimal(alloc, self.column())?);
        let mut said = String::from_str(alloc, "line ")?;
        said.push_str(line.as_str())?;
        said.push_str(", column ")?;
        said.push_str(column.as_str())?;
        Ok(said)
    }

    /// The line, with a caret below the place.
    pub fn drawn(self, alloc: Global) -> Result<String, AllocError>
        ensures { IfOk result (λ lines. string_bytes lines ≡ drawn self.entry.line self.entry.before.now self.entry.behind.now) }
    {
        let number = decimal(alloc, self.line)?;
        let front = front_shown(alloc, self.before)?;
        let rest = rest_shown(alloc, self.behind)?;
        let mut lines = String::new(alloc);
        lines.push_str(number.as_str())?;
        lines.push_str(" | ")?;
        lines.push_str(front.as_str())?;
        lines.push_str(rest.as_str())?;
        lines.push_str("\n")?;
        push_spaces(&mut lines, number.len())?;
        lines.push_str(" | ")?;
        push_spaces(&mut lines, front.len())?;
        lines.push_str("^")?;
        Ok(lines)
    }
}

fn decimal(alloc: Global, number: usize) -> Result<String, AllocError>
    ensures { IfOk result (λ digits. string_bytes digits ≡ decimal number) }
{
    format!(in alloc; "{number}")
}

/// What stands before a place, as it is shown.
fn front_shown(alloc: Global, before: &[u8]) -> Result<String, AllocError>
    ensures { IfOk result (λ front. string_bytes front ≡ front_shown before.now) }
{
    if before.len() <= MOST_BEFORE {
        return shown(alloc, before);
    }
    let near = shown(alloc, &before[before.len() - MOST_BEFORE..])?;
    let mut front = String::from_str(alloc, "..")?;
    front.push_str(near.as_str())?;
    Ok(front)
}

/// What stands from a place on, as it is shown.
fn rest_shown(alloc: Global, behind: &[u8]) -> Result<String, AllocError>
    ensures { IfOk result (λ rest. string_bytes rest ≡ rest_shown behind.now) }
{
    if behind.len() <= MOST_BEHIND {
        return shown(alloc, behind);
    }
    let (near, _) = behind.split_at(MOST_BEHIND);
    let mut rest = shown(alloc, near)?;
    rest.push_str("..")?;
    Ok(rest)
}

fn newlines(text: &[u8]) -> usize
    ensures { result ≡ count_by is_newline text.now }
{
    text.iter().filter(|byte| **byte == b'\n').count()
}

/// Behind the last newline.
fn last_line(text: &[u8]) -> &[u8]
    ensures { result.now ≡ after_last is_newline text.now }
{
    let mut start = text.len();
    'back: while 0 < start {
        if text[start - 1] == b'\n' {
            return text.split_at(start).1;
        }
        start -= 1;
    }
    text
}

/// Up to the first newline, and a carriage return before it.
fn first_line(text: &[u8]) -> &[u8]
    ensures { result.now ≡ first_line text.now }
{
    match newline(text) {
        Some(at) => without_return(&text[..at]),
        None => without_return(text),
    }
}

/// Where the first newline stands.
fn newline(text: &[u8]) -> Option<usize>
    ensures { result ≡ position is_newline text.now }
{
    text.iter().position(|byte| *byte == b'\n')
}

fn without_return(line: &[u8]) -> &[u8]
    ensures { result.now ≡ without_return line.now }
{
    match line.strip_suffix(b"\r") {
        Some(line) => line,
        None => line,
    }
}

/// How many characters of UTF-8 begin in these bytes.
fn characters(text: &[u8]) -> usize
    ensures { result ≡ count_by begins_character text.now }
{
    text.iter()
        .filter(|byte| **byte < 0x80 || 0xc0 <= **byte)
        .count()
}

fn push_spaces(out: &mut String, count: usize) -> Result<(), AllocError>
    ensures { OnOk result (string_bytes out.new ≡ string_bytes out.old ++ replicate count 32) }
{
    for _done in 0..count {
        out.push_str(" ")?;
    }
    Ok(())
}
