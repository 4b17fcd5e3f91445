//! The reading of a tree's text, whose beginning says how much of it is read.
ghost use Rattle.std.specs.Prelude.{◌≡◌, ◌<◌, ◌≤◌, IfOk, IfSome, take, length};
ghost use Rattle.std.specs.Io.KnownBytes.{Consumes, IsAtEnd};
ghost use Rattle.cg_format.specs.TreeTexts.{most_read};

use cg_format::large::longest_text;
use std::alloc::Global;
use std::io;
use std::io::Read;
use streams::again::Again;

/// How many bytes hold each beginning that says that a text is large.
const BEGINNING: usize = 128;

/// Reads a tree's text whole, and of a longer one so much that it is seen to be too long.
///
/// # Errors
/// The reader's, of the kind `OutOfMemory` where an allocation was refused.
pub fn read_tree_input<R: Read + Drop>(alloc: Global, reader: R) -> io::Result<Vec<u8>>
    ensures { IfOk result (λ text. IfSome (R.remaining reader) (λ bytes. text.items ≡ take (most_read bytes) bytes)) }
{
    let mut reader = Again { inner: reader };
    let mut text = read_beginning(alloc, &mut reader)?;
    if text.len() < BEGINNING {
        return Ok(text);
    }
    let most = longest_text(text.as_slice()) + 1;
    reader
        .take((most - BEGINNING) as u64)
        .read_to_end(&mut text)?;
    Ok(text)
}

/// Reads the beginning of a text, or all of a shorter one.
fn read_beginning<R: Read>(alloc: Global, reader: &mut R) -> io::Result<Vec<u8>>
    ensures bytes { IfOk result (λ text. Consumes (R.remaining reader.old) (R.remaining reader.new) text.items) }
    ensures bound { IfOk result (λ text. length text.items ≤ 128) }
    ensures end { IfOk result (λ text. length text.items < 128 → IsAtEnd (R.remaining reader.new)) }
{
    let mut text = Vec::new(alloc);
    let mut piece = [0; BEGINNING];
    while text.len() < BEGINNING {
        let room = BEGINNING - text.len();
        let count = reader.read(&mut piece[..room])?;
        if count == 0 {
            return Ok(text);
        }
        text.extend_from_slice(&piece[..count])?;
    }
    Ok(text)
}
