//! An input that is kept while it is read.
ghost use Rattle.std.specs.Prelude.{◌≡◌, ◌⊎◌, ◌++◌, [], true, false, IfOk, MatchOption, take};
ghost use Rattle.std.specs.Io.{ReadsAtMost};
ghost use Rattle.std.specs.Io.KnownBytes.{ReadConsumes};

use std::alloc::Global;
use std::io;
use std::io::Read;

/// The greatest text that is looked at once more.
pub const MOST_BYTES: usize = 4_194_304;

/// A reader whose bytes are kept for a second look, as far as there is memory for them and they aren't too many.
#[derive(Drop)]
pub struct Kept<R> {
    pub inner: R,
    pub bytes: Vec<u8>,
    /// Whether nothing was read that isn't kept.
    pub is_whole: bool,
}

impl<R> Kept<R> {
    /// A reader of which nothing was read yet.
    pub fn new(alloc: Global, inner: R) -> Kept<R>
        ensures inner { result.inner ≡ inner }
        ensures bytes { result.bytes.items ≡ [] }
        ensures is_whole { result.is_whole ≡ true }
    {
        Kept {
            inner,
            bytes: Vec::new(alloc),
            is_whole: true,
        }
    }

    /// What was read, where all of it was kept.
    pub fn whole(&self) -> Option<&[u8]>
        ensures { MatchOption result (self.now.is_whole ≡ false)
            (λ bytes. (self.now.is_whole ≡ true) × (bytes.now ≡ self.now.bytes.items)) }
    {
        if self.is_whole {
            Some(self.bytes.as_slice())
        } else {
            None
        }
    }
}

impl<R: Read> Read for Kept<R> {
    ghost remaining = { λ kept. R.remaining kept.inner };

    fn read(&mut self, buf: &mut [u8]) -> io::Result<usize>
        ensures bound { ReadsAtMost result buf.new }
        ensures bytes { ReadConsumes (R.remaining self.old.inner) (R.remaining self.new.inner) result buf.new }
        ensures kept { IfOk result (λ count. ((self.new.bytes.items ≡ self.old.bytes.items ++ take count buf.new) × (self.new.is_whole ≡ self.old.is_whole))
            ⊎ ((self.new.bytes.items ≡ self.old.bytes.items) × (self.new.is_whole ≡ false))) }
    {
        let count = self.inner.read(buf)?;
        if self.is_whole {
            if MOST_BYTES.saturating_sub(self.bytes.len()) < count {
                self.is_whole = false;
            } else {
                match self.bytes.extend_from_slice(&buf[..count]) {
                    Ok(()) => {}
                    Err(_) => self.is_whole = false,
                }
            }
        }
        Ok(count)
    }
}
