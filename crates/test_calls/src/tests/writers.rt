//! Writers that fail and dawdle.
ghost use Rattle.std.specs.Prelude.{◌≡◌, None};

use std::alloc::Global;
use std::io;
use std::io::{ErrorKind, Write};

/// Takes `room` bytes, fails once, and takes every byte from then on.
#[derive(Drop)]
pub struct FailsOnce {
    pub taken: Vec<u8>,
    pub has_failed: bool,
    room: usize,
    kind: ErrorKind,
}

impl FailsOnce {
    /// Is interrupted.
    pub fn new(alloc: Global, room: usize) -> FailsOnce {
        FailsOnce::of_kind(alloc, room, ErrorKind::Interrupted)
    }

    pub fn of_kind(alloc: Global, room: usize, kind: ErrorKind) -> FailsOnce {
        FailsOnce {
            taken: Vec::new(alloc),
            has_failed: false,
            room,
            kind,
        }
    }
}

impl Write for FailsOnce {
    fn write(&mut self, buf: &[u8]) -> io::Result<usize> {
        if self.has_failed {
            self.taken.extend_from_slice(buf)?;
            return Ok(buf.len());
        }
        let free = self.room.saturating_sub(self.taken.len());
        if free == 0 {
            self.has_failed = true;
            return Err(io::Error::from(self.kind));
        }
        let count = free.min(buf.len());
        self.taken.extend_from_slice(&buf[..count])?;
        Ok(count)
    }

    fn flush(&mut self) -> io::Result<()> {
        Ok(())
    }
}

/// Takes a byte at a time.
#[derive(Drop)]
pub struct ByteByByte {
    pub taken: Vec<u8>,
}

impl Write for ByteByByte {
    fn write(&mut self, buf: &[u8]) -> io::Result<usize> {
        match buf.first() {
            None => Ok(0),
            Some(byte) => {
                self.taken.push(*byte)?;
                Ok(1)
            }
        }
    }

    fn flush(&mut self) -> io::Result<()> {
        Ok(())
    }
}

/// Takes nothing, and counts how often it was asked.
#[derive(Drop)]
pub struct TakesNone {
    pub asked: u32,
}

impl Write for TakesNone {
    fn write(&mut self, _buf: &[u8]) -> io::Result<usize> {
        self.asked = self.asked.saturating_add(1);
        Ok(0)
    }

    fn flush(&mut self) -> io::Result<()> {
        Ok(())
    }
}
