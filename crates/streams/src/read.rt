//! The reading of a tree's text.
ghost use Rattle.std.specs.Prelude.{◌≡◌, IfOk, IfSome, take};

use std::alloc::Global;
use std::io;
use std::io::Read;

/// How much of an input is read: one byte more than a tree's text may have.
pub const MOST_BYTES: u64 = 16_777_217;

/// Reads a tree's text whole, and of a longer one so much that it is seen to be too long.
///
/// # Errors
/// The reader's, of the kind `OutOfMemory` where an allocation was refused.
pub fn read_input<R: Read + Drop>(alloc: Global, reader: R) -> io::Result<Vec<u8>>
    ensures { IfOk result (λ text. IfSome (R.remaining reader) (λ bytes. text.items ≡ take MOST_BYTES bytes)) }
{
    let mut text = Vec::new(alloc);
    reader.take(MOST_BYTES).read_to_end(&mut text)?;
    Ok(text)
}
