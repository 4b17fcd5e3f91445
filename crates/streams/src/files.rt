//! Who opens files by their names.
ghost use Rattle.std.specs.Prelude.{◌≡◌, ℕ, List, Option, None, IfOk};

use std::fs::File;
use std::io::Read;
use std::{fs, io, rt};

/// What a name is of.
#[derive(Clone, Copy, Debug, PartialEq, Eq)]
pub enum FileKind {
    Regular,
    Directory,
    /// A pipe, a socket or a device.
    Other,
}

/// Who opens files by their names.
pub trait Files {
    type File: Read + Drop;

    /// What the reader of a name has to give, where that is known.
    ghost given: { Self → List ℕ → Option (List ℕ) };

    /// The reader of a name.
    ///
    /// # Errors
    /// The host's, where there is no such file, or it can't be read.
    fn open(&self, name: &str) -> io::Result<Self::File>
        ensures { IfOk result (λ file. Self.File.remaining file ≡ given self.now name.now) };

    /// What a name is of, without opening it.
    ///
    /// # Errors
    /// The host's, where there is no such file.
    fn kind(&self, name: &str) -> io::Result<FileKind>;
}

/// The files of a host.
#[derive(Clone, Copy, Debug)]
pub struct HostFiles<'r, R> {
    pub rt: &'r R,
}

impl<R: rt::Files> Files for HostFiles<'_, R> {
    type File = HostFile<R::File>;

    ghost given = { λ _ _. None };

    fn open(&self, name: &str) -> io::Result<HostFile<R::File>> {
        Ok(HostFile {
            inner: File::open(self.rt, name)?,
        })
    }

    fn kind(&self, name: &str) -> io::Result<FileKind> {
        let about = fs::metadata(self.rt, name)?;
        if about.is_file() {
            Ok(FileKind::Regular)
        } else if about.is_dir() {
            Ok(FileKind::Directory)
        } else {
            Ok(FileKind::Other)
        }
    }
}

/// A file of a host. What it has to give, no contract can say.
#[derive(Drop)]
pub struct HostFile<F> {
    inner: F,
}

impl<F: Read> Read for HostFile<F> {
    fn read(&mut self, buf: &mut [u8]) -> io::Result<usize> {
        self.inner.read(buf)
    }
}
