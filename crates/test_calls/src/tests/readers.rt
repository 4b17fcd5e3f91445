//! Readers that fail, dawdle and never end.
ghost use Rattle.std.specs.Prelude.{◌≡◌, None};

use std::io;
use std::io::{BufRead, ErrorKind, Read};

/// Gives bytes for ever, those that stand where they are read to.
#[derive(Drop)]
pub struct Endless;

impl Read for Endless {
    fn read(&mut self, buf: &mut [u8]) -> io::Result<usize> {
        Ok(buf.len())
    }
}

/// Gives `left` bytes one at a time, and then fails.
#[derive(Drop)]
pub struct FailsAfter {
    pub left: u32,
    pub kind: ErrorKind,
}

impl Read for FailsAfter {
    fn read(&mut self, buf: &mut [u8]) -> io::Result<usize> {
        if self.left == 0 {
            return Err(io::Error::from(self.kind));
        }
        match buf.first_mut() {
            None => Ok(0),
            Some(byte) => {
                *byte = b'#';
                self.left -= 1;
                Ok(1)
            }
        }
    }
}

/// Is interrupted at every second read.
#[derive(Drop)]
pub struct Interrupted<R> {
    pub inner: R,
    pub turn: u64,
}

impl<R: Read> Read for Interrupted<R> {
    fn read(&mut self, buf: &mut [u8]) -> io::Result<usize> {
        self.turn = self.turn.saturating_add(1);
        if self.turn % 2 == 1 {
            return Err(io::Error::from(ErrorKind::Interrupted));
        }
        self.inner.read(buf)
    }
}

/// Shows a text in pieces of a size, counts how often it was asked, and fails at one ask.
#[derive(Drop)]
pub struct Pieces<'a> {
    pub rest: &'a [u8],
    pub size: usize,
    pub asked: u64,
    pub fails_at: u64,
    pub kind: ErrorKind,
}

impl<'a> Pieces<'a> {
    /// Never fails; is interrupted where it is told at which ask.
    pub fn new(text: &'a [u8], size: usize) -> Pieces<'a> {
        Pieces {
            rest: text,
            size,
            asked: 0,
            fails_at: 0,
            kind: ErrorKind::Interrupted,
        }
    }
}

impl Read for Pieces<'_> {
    fn read(&mut self, buf: &mut [u8]) -> io::Result<usize> {
        let count = self.size.min(self.rest.len()).min(buf.len());
        buf[..count].copy_from_slice(&self.rest[..count]);
        self.consume(count);
        Ok(count)
    }
}

impl BufRead for Pieces<'_> {
    fn fill_buf(&mut self) -> io::Result<&[u8]> {
        self.asked = self.asked.saturating_add(1);
        if self.asked == self.fails_at {
            return Err(io::Error::from(self.kind));
        }
        Ok(&self.rest[..self.size.min(self.rest.len())])
    }

    fn consume(&mut self, amount: usize) {
        self.rest = &self.rest[amount.min(self.rest.len())..];
    }
}

/// Shows a text in pieces of uneven sizes, 1 to 23 bytes, by a seed.
#[derive(Drop)]
pub struct Uneven<'a> {
    pub rest: &'a [u8],
    pub seed: u32,
}

impl Read for Uneven<'_> {
    fn read(&mut self, _buf: &mut [u8]) -> io::Result<usize> {
        Err(io::Error::from(ErrorKind::Unsupported))
    }
}

impl BufRead for Uneven<'_> {
    fn fill_buf(&mut self) -> io::Result<&[u8]> {
        self.seed = self
            .seed
            .wrapping_mul(1_664_525)
            .wrapping_add(1_013_904_223);
        let size = 1 + (self.seed >> 24) as usize % 23;
        Ok(&self.rest[..size.min(self.rest.len())])
    }

    fn consume(&mut self, amount: usize) {
        self.rest = &self.rest[amount.min(self.rest.len())..];
    }
}

/// Shows a text again and again, a byte at a time, and counts how often it was asked.
#[derive(Drop)]
pub struct Again<'a> {
    text: &'a [u8],
    rest: &'a [u8],
    pub asked: u32,
}

impl<'a> Again<'a> {
    pub fn new(text: &'a [u8]) -> Again<'a> {
        Again {
            text,
            rest: text,
            asked: 0,
        }
    }
}

impl Read for Again<'_> {
    fn read(&mut self, _buf: &mut [u8]) -> io::Result<usize> {
        Err(io::Error::from(ErrorKind::Unsupported))
    }
}

impl BufRead for Again<'_> {
    fn fill_buf(&mut self) -> io::Result<&[u8]> {
        self.asked = self.asked.saturating_add(1);
        if self.rest.is_empty() {
            self.rest = self.text;
        }
        Ok(&self.rest[..self.rest.len().min(1)])
    }

    fn consume(&mut self, amount: usize) {
        self.rest = &self.rest[amount.min(self.rest.len())..];
    }
}
