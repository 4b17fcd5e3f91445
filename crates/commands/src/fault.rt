//! Why the program ends without a command's status.
ghost use Rattle.std.specs.Prelude.{◌≡◌, ◌≢◌, ◌⊎◌, IfErr};
ghost use Rattle.std.specs.IoError.{error_kind};
ghost use Rattle.commands.specs.Faults.{lifted, call_fault, LiesThere, Prints};
ghost use Rattle.commands.specs.declared.fault.Fault.TheVariants.{Cli};
ghost use Rattle.cg_faults.specs.declared.fault.CliFault.TheVariants.{NoMemory as MemoryFault};

use arguments::fault::ArgumentsFault;
use cg_faults::fault::{CliFault, fault_text};
use std::alloc::Global;
use std::io;
use std::io::{ErrorKind, Write};
use streams::write::{WriteFailed, write_whole};

/// Why the program ends without a command's status.
#[derive(Clone, Copy, Debug, PartialEq, Eq)]
pub enum Fault {
    /// The command line is none of the program's.
    Usage,
    /// A command, or what stands around it, failed.
    Cli(CliFault),
}

/// Why not all lies on standard error that is told there.
#[derive(Clone, Copy, Debug, PartialEq, Eq)]
pub enum Untold {
    /// A write failed, or took nothing.
    Write,
    /// There was no memory for it.
    NoMemory,
}

impl Fault {
    /// Why the words of the command line can't be had: words that are no text are none of the program's.
    pub fn of_words(error: io::Error) -> Fault
        ensures { ((result ≡ Fault.Usage) × (error_kind error ≢ ErrorKind.OutOfMemory))
            ⊎ ((result ≡ Cli MemoryFault) × (error_kind error ≡ ErrorKind.OutOfMemory)) }
    {
        if error.kind() == ErrorKind::OutOfMemory {
            Fault::Cli(CliFault::NoMemory)
        } else {
            Fault::Usage
        }
    }

    /// The fault of a call, where it is one's.
    pub fn call_fault(self) -> Option<CliFault>
        ensures { result ≡ call_fault self }
    {
        match self {
            Fault::Usage => None,
            Fault::Cli(fault) => Some(fault),
        }
    }

    /// Writes the fault's line, or that of out of memory where there is none for it.
    ///
    /// # Errors
    /// `Write` where a write failed or took nothing, and a front of the line is written; `NoMemory` where there was no memory for
    /// the line, and that of out of memory is written, or a front of it. Where even that fails there is nobody left to tell.
    pub fn print<W: Write>(self, alloc: Global, out: &mut W) -> Result<(), Untold>
        ensures { Prints self (W.contents out.old) (W.contents out.new) result }
    {
        let fault = match self {
            Fault::Usage => return written(out, b"fault: usage\n"),
            Fault::Cli(fault) => fault,
        };
        match fault_text(alloc, &fault) {
            Ok(line) => written(out, line.as_slice()),
            Err(_) => {
                let _ = write_whole(out, b"fault: memory\n");
                Err(Untold::NoMemory)
            }
        }
    }
}

/// Writes a text whole, unless a write fails or takes nothing.
pub(crate) fn written<W: Write>(out: &mut W, text: &[u8]) -> Result<(), Untold>
    ensures told { LiesThere text.now (W.contents out.old) (W.contents out.new) result }
    ensures fault { IfErr result (λ why. why ≡ Untold.Write) }
{
    match write_whole(out, text) {
        Ok(()) => Ok(()),
        Err(WriteFailed) => Err(Untold::Write),
    }
}

impl From<ArgumentsFault> for Fault {
    ghost from_gives = { λ inner fault. fault ≡ lifted inner };

    fn from(inner: ArgumentsFault) -> Fault {
        match inner {
            ArgumentsFault::Usage => Fault::Usage,
            ArgumentsFault::NoMemory => Fault::Cli(CliFault::NoMemory),
        }
    }
}
