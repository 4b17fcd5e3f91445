//! Files whose reads and writes are tried again where a signal interrupts them.
ghost use Rattle.std.specs.Prelude.{◌≡◌, ◌≢◌, IfErr};
ghost use Rattle.std.specs.Io.{ReadsAtMost, WritesAtMost};
ghost use Rattle.std.specs.Io.KnownBytes.{Keeps, ReadConsumes, WriteAppends};
ghost use Rattle.std.specs.IoError.{error_kind};

use std::io;
use std::io::{ErrorKind, Read, Write};

/// How often a call is made at most, as often as by the calls of the standard library that try again.
const MOST_TURNS: u64 = u64::MAX;

/// Makes a call, and makes it again as long as a signal interrupts it.
macro_rules! retried {
    ($call:expr) => {{
        for _turn in 0..MOST_TURNS {
            match $call {
                Err(error) if error.kind() == ErrorKind::Interrupted => {}
                answered => return answered,
            }
        }
        Err(io::Error::from(ErrorKind::TimedOut))
    }};
}

/// A reader or a writer each of whose calls is made again where a signal interrupted it.
#[derive(Drop)]
pub struct Again<T> {
    pub inner: T,
}

impl<R: Read> Read for Again<R> {
    ghost remaining = { λ again. R.remaining again.inner };

    fn read(&mut self, buf: &mut [u8]) -> io::Result<usize>
        ensures bound { ReadsAtMost result buf.new }
        ensures bytes { ReadConsumes (R.remaining self.old.inner) (R.remaining self.new.inner) result buf.new }
        ensures retried { IfErr result (λ e. error_kind e ≢ ErrorKind.Interrupted) }
    {
        retried!(self.inner.read(buf))
    }
}

impl<W: Write> Write for Again<W> {
    ghost contents = { λ again. W.contents again.inner };

    fn write(&mut self, buf: &[u8]) -> io::Result<usize>
        ensures bound { WritesAtMost result buf.now }
        ensures bytes { WriteAppends (W.contents self.old.inner) (W.contents self.new.inner) result buf.now }
        ensures retried { IfErr result (λ e. error_kind e ≢ ErrorKind.Interrupted) }
    {
        retried!(self.inner.write(buf))
    }

    fn flush(&mut self) -> io::Result<()>
        ensures bytes { Keeps (W.contents self.old.inner) (W.contents self.new.inner) }
        ensures retried { IfErr result (λ e. error_kind e ≢ ErrorKind.Interrupted) }
    {
        retried!(self.inner.flush())
    }
}
