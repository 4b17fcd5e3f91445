//! A reader of one byte at a time.
use std::io;
use std::io::{BufRead, Read};

/// Shows a text a byte at a time.
#[derive(Drop)]
pub struct Bytewise<'a> {
    pub rest: &'a [u8],
}

impl Read for Bytewise<'_> {
    fn read(&mut self, _buf: &mut [u8]) -> io::Result<usize> {
        Err(io::Error::from(io::ErrorKind::Unsupported))
    }
}

impl BufRead for Bytewise<'_> {
    fn fill_buf(&mut self) -> io::Result<&[u8]> {
        Ok(&self.rest[..self.rest.len().min(1)])
    }

    fn consume(&mut self, amount: usize) {
        self.rest = &self.rest[amount.min(self.rest.len())..];
    }
}
