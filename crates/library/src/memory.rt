//! Texts in memory in place of files.
ghost use Rattle.std.specs.Prelude.{◌≡◌, [], Some};
ghost use Rattle.std.specs.Io.{WritesAtMost};
ghost use Rattle.std.specs.Io.KnownBytes.{Keeps, WriteAppends};

use std::alloc::Global;
use std::io;
use std::io::Write;
use streams::files::{FileKind, Files};

/// A text that each name is of.
#[derive(Clone, Copy, Debug)]
pub struct OneText<'a> {
    pub text: &'a [u8],
}

impl<'a> Files for OneText<'a> {
    type File = &'a [u8];

    ghost given = { λ files _. Some files.text.now };

    fn open(&self, _name: &str) -> io::Result<&'a [u8]> {
        Ok(self.text)
    }

    fn kind(&self, _name: &str) -> io::Result<FileKind> {
        Ok(FileKind::Regular)
    }
}

/// What was written, as far as there was memory for it.
#[derive(Drop)]
pub struct Page {
    pub bytes: Vec<u8>,
    /// Whether there was none for some of it.
    pub is_cut: bool,
}

impl Page {
    pub fn new(alloc: Global) -> Page
        ensures { result.bytes.items ≡ [] }
    {
        Page {
            bytes: Vec::new(alloc),
            is_cut: false,
        }
    }
}

impl Write for Page {
    ghost contents = { λ page. Some page.bytes.items };

    fn write(&mut self, buf: &[u8]) -> io::Result<usize>
        ensures bound { WritesAtMost result buf.now }
        ensures bytes { WriteAppends (Some self.old.bytes.items) (Some self.new.bytes.items) result buf.now }
    {
        let written = self.bytes.write(buf);
        if written.is_err() {
            self.is_cut = true;
        }
        written
    }

    fn flush(&mut self) -> io::Result<()>
        ensures bytes { Keeps (Some self.old.bytes.items) (Some self.new.bytes.items) }
    {
        Ok(())
    }
}
