//! The operation line at which a replay ended, kept for a second look.
ghost use Rattle.std.specs.Prelude.{◌≡◌, false, Ok, None};
ghost use Rattle.std.specs.Io.Buffered.{reader_inner};
ghost use Rattle.std.specs.Io.{ReadsAtMost};
ghost use Rattle.std.specs.Io.KnownBytes.{ReadConsumes};

use std::alloc::{AllocError, Global};
use std::io;
use std::io::{BufReader, Read};

/// A reader below a buffer, whose bytes are kept from the front of the line on in which what is above the buffer stands.
#[derive(Drop)]
pub struct LineKept<R> {
    pub inner: R,
    /// The front of that line, and behind it all that was read last.
    pub bytes: Vec<u8>,
    /// Whether there was memory for them so far.
    pub is_whole: bool,
}

impl<R: Read> Read for LineKept<R> {
    ghost remaining = { λ kept. R.remaining kept.inner };

    fn read(&mut self, buf: &mut [u8]) -> io::Result<usize>
        ensures bound { ReadsAtMost result buf.new }
        ensures bytes { ReadConsumes (R.remaining self.old.inner) (R.remaining self.new.inner) result buf.new }
    {
        let count = self.inner.read(buf)?;
        if kept_behind(&mut self.bytes, &buf[..count]).is_err() {
            self.is_whole = false;
        }
        Ok(count)
    }
}

/// Leaves of bytes the line that is begun, and puts a piece behind it.
fn kept_behind(bytes: &mut Vec<u8>, piece: &[u8]) -> Result<(), AllocError> {
    let begun = last_line(bytes.as_slice()).len();
    let passed = bytes.len().saturating_sub(begun);
    bytes.drain(..passed);
    bytes.extend_from_slice(piece)
}

/// The line in which a buffer's reader stands, as far as it was read; nothing where it wasn't kept.
pub fn line_of<R: Read>(
    alloc: Global,
    reader: &BufReader<LineKept<R>>,
) -> Result<Option<Vec<u8>>, AllocError>
    ensures lost { (reader_inner reader.now).is_whole ≡ false → result ≡ Ok None }
{
    let kept = reader.get_ref();
    if !kept.is_whole {
        return Ok(None);
    }
    let bytes = kept.bytes.as_slice();
    let taken = bytes.len().saturating_sub(reader.buffer().len());
    let mut line = Vec::from_slice(alloc, last_line(&bytes[..taken]))?;
    line.extend_from_slice(first_line(&bytes[taken..]))?;
    Ok(Some(line))
}

/// What is behind the last newline.
fn last_line(bytes: &[u8]) -> &[u8] {
    match bytes.rsplit(|byte| *byte == b'\n').next() {
        Some(line) => line,
        None => bytes,
    }
}

/// What is before the first newline.
fn first_line(bytes: &[u8]) -> &[u8] {
    match bytes.split(|byte| *byte == b'\n').next() {
        Some(line) => line,
        None => bytes,
    }
}
