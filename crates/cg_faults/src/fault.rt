//! Why a call over bytes gives no status, and the line that says so.
ghost use Rattle.std.specs.Prelude.{◌≡◌, ◌≢◌, ◌⊎◌, IfOk, string_bytes};
ghost use Rattle.std.specs.IoError.{error_kind};
ghost use Rattle.std.specs.declared.io.ErrorKind.TheVariants.{OutOfMemory};
ghost use Rattle.cg_faults.specs.FaultLines.{fault_line, plain_line, tree_fault_line, tree_fault_parts, subtree_words, operation_fault_line, numbered_line};
ghost use Rattle.cg_faults.specs.Faults.{lifted, lifted_path, lifted_line, lifted_check};
ghost use Rattle.cg_faults.specs.declared.fault.CliFault.TheVariants.{Read as ReadFault, Write as WriteFault, NoMemory as MemoryFault};

use cg_cgroup::memory::NoMemory;
use cg_cgroup::path::PathFault;
use cg_format::fault::{Place, TreeFault};
use cg_lines::lines::LineFault;
use cg_model::fault::CheckFault;
use std::alloc::{AllocError, AllocFailed, Global};
use std::io;
use std::io::ErrorKind;
use streams::write::WriteFailed;
use thiserror::Error;

/// Why a call gives no status. Out of memory, in whatever part, is `NoMemory`, and stands in no other fault.
#[derive(Clone, Copy, Debug, PartialEq, Eq, Error)]
pub enum CliFault {
    #[error("a user's uid is 0")]
    Uid,
    #[error("a user has more than 32 gids")]
    Gids,
    #[error("a PID isn't one of 1 to 4194303")]
    Pid,
    #[error("a text is no path")]
    BadPath,
    #[error("the tree's text has a fault: {0:?}")]
    Tree(TreeFault),
    #[error("the subtree has a fault: {0:?}")]
    Subtree(CheckFault),
    #[error("operation line {number} has a fault: {fault:?}")]
    Line { number: u32, fault: LineFault },
    #[error("there are more than 65536 operations")]
    TooManySteps,
    #[error("a text of pairs names none")]
    NoPair,
    #[error("the input can't be read")]
    Read,
    #[error("the report can't be written")]
    Write,
    #[error("an allocation was refused")]
    NoMemory,
}

impl From<WriteFailed> for CliFault {
    ghost from_gives = { λ _ fault. fault ≡ WriteFault };

    fn from(_failed: WriteFailed) -> CliFault {
        CliFault::Write
    }
}

impl From<NoMemory> for CliFault {
    ghost from_gives = { λ _ fault. fault ≡ MemoryFault };

    fn from(_failed: NoMemory) -> CliFault {
        CliFault::NoMemory
    }
}

impl From<AllocError> for CliFault {
    ghost from_gives = { λ _ fault. fault ≡ MemoryFault };

    fn from(_failed: AllocError) -> CliFault {
        CliFault::NoMemory
    }
}

impl<T: Drop> From<AllocFailed<T>> for CliFault {
    ghost from_gives = { λ _ fault. fault ≡ MemoryFault };

    fn from(_failed: AllocFailed<T>) -> CliFault {
        CliFault::NoMemory
    }
}

impl From<PathFault> for CliFault {
    ghost from_gives = { λ inner fault. fault ≡ lifted_path inner };

    fn from(inner: PathFault) -> CliFault {
        match inner {
            PathFault::BadPath => CliFault::BadPath,
            PathFault::NoMemory => CliFault::NoMemory,
        }
    }
}

impl From<TreeFault> for CliFault {
    ghost from_gives = { λ inner fault. fault ≡ lifted inner };

    fn from(inner: TreeFault) -> CliFault {
        match inner {
            TreeFault::NoMemory => CliFault::NoMemory,
            fault => CliFault::Tree(fault),
        }
    }
}

impl From<CheckFault> for CliFault {
    ghost from_gives = { λ inner fault. fault ≡ lifted_check inner };

    fn from(inner: CheckFault) -> CliFault {
        match inner {
            CheckFault::NoMemory => CliFault::NoMemory,
            fault => CliFault::Subtree(fault),
        }
    }
}

impl From<io::Error> for CliFault {
    ghost from_gives = { λ error fault. ((fault ≡ ReadFault) × (error_kind error ≢ OutOfMemory))
        ⊎ ((fault ≡ MemoryFault) × (error_kind error ≡ OutOfMemory)) };

    /// Why a file can't be opened or read.
    fn from(error: io::Error) -> CliFault {
        if error.kind() == ErrorKind::OutOfMemory {
            CliFault::NoMemory
        } else {
            CliFault::Read
        }
    }
}

impl CliFault {
    /// What a fault of the operation line of that number is to a call.
    pub fn of_line(number: u32, fault: LineFault) -> CliFault
        ensures { result ≡ lifted_line number fault }
    {
        match fault {
            LineFault::NoMemory => CliFault::NoMemory,
            fault => CliFault::Line { number, fault },
        }
    }
}

/// The line that says which fault it is, with its newline.
pub fn fault_text(alloc: Global, fault: &CliFault) -> Result<Vec<u8>, NoMemory>
    ensures { IfOk result (λ text. text.items ≡ fault_line fault.now) }
{
    Ok(fault_line(alloc, fault)?.into_bytes())
}

fn fault_line(alloc: Global, fault: &CliFault) -> Result<String, AllocError>
    ensures { IfOk result (λ line. string_bytes line ≡ fault_line fault.now) }
{
    match fault {
        CliFault::Uid => plain_line(alloc, "uid"),
        CliFault::Gids => plain_line(alloc, "gid"),
        CliFault::Pid => plain_line(alloc, "pid"),
        CliFault::BadPath => plain_line(alloc, "path"),
        CliFault::Tree(inner) => tree_fault_line(alloc, *inner),
        CliFault::Subtree(inner) => plain_line(alloc, subtree_words(*inner)),
        CliFault::Line { number, fault } => operation_fault_line(alloc, *number, *fault),
        CliFault::TooManySteps => plain_line(alloc, "too-many-steps"),
        CliFault::NoPair => plain_line(alloc, "no-pair"),
        CliFault::Read => plain_line(alloc, "read"),
        CliFault::Write => plain_line(alloc, "write"),
        CliFault::NoMemory => plain_line(alloc, "memory"),
    }
}

/// The line of a fault that has no place.
fn plain_line(alloc: Global, words: &str) -> Result<String, AllocError>
    ensures { IfOk result (λ line. string_bytes line ≡ plain_line words.now) }
{
    format!(in alloc; "fault: {words}\n")
}

/// The words of a subtree's fault.
fn subtree_words(fault: CheckFault) -> &'static str
    ensures { result.now ≡ subtree_words fault }
{
    match fault {
        CheckFault::RootSubtree => "subtree root",
        CheckFault::NoSuchSubtree => "subtree missing",
        CheckFault::NoMemory => "memory",
    }
}

/// The line of a fault of the operation line of that number. Out of memory is the call's.
fn operation_fault_line(alloc: Global, number: u32, fault: LineFault) -> Result<String, AllocError>
    ensures { IfOk result (λ line. string_bytes line ≡ operation_fault_line number fault) }
{
    match fault {
        LineFault::TooLong => numbered_line(alloc, number, "too-long"),
        LineFault::BadWord => numbered_line(alloc, number, "bad-word"),
        LineFault::Cut => numbered_line(alloc, number, "cut"),
        LineFault::NoMemory => plain_line(alloc, "memory"),
    }
}

/// The line that names an operation line by its number, and says its fault in a word.
fn numbered_line(alloc: Global, number: u32, word: &str) -> Result<String, AllocError>
    ensures { IfOk result (λ line. string_bytes line ≡ numbered_line number word.now) }
{
    format!(in alloc; "fault: line {number} {word}\n")
}

fn tree_fault_line(alloc: Global, fault: TreeFault) -> Result<String, AllocError>
    ensures { IfOk result (λ line. string_bytes line ≡ tree_fault_line fault) }
{
    let (words, place) = tree_fault_parts(fault);
    match place {
        None => plain_line(alloc, words),
        Some(Place::Top) => format!(in alloc; "fault: {words} top\n"),
        Some(Place::Cgroup(row)) => format!(in alloc; "fault: {words} cgroup {row}\n"),
        Some(Place::Process(row)) => format!(in alloc; "fault: {words} process {row}\n"),
    }
}

/// The words of a fault of the tree's text, and where it is.
fn tree_fault_parts(fault: TreeFault) -> (&'static str, Option<Place>)
    ensures words { result.0.now ≡ (tree_fault_parts fault).0 }
    ensures place { result.1 ≡ (tree_fault_parts fault).1 }
{
    match fault {
        TreeFault::TooLong => ("tree too-long", None),
        TreeFault::NotToml => ("tree not-toml", None),
        TreeFault::Shape(place) => ("tree shape", Some(place)),
        TreeFault::Format => ("tree format", None),
        TreeFault::TooMany => ("tree too-many", None),
        TreeFault::BadController(place) => ("tree bad-controller", Some(place)),
        TreeFault::BadPath(place) => ("tree bad-path", Some(place)),
        TreeFault::BadEntry(place) => ("tree bad-entry", Some(place)),
        TreeFault::BadValue(place) => ("tree bad-value", Some(place)),
        TreeFault::Duplicate(place) => ("tree duplicate", Some(place)),
        TreeFault::NoRoot => ("tree no-root", None),
        TreeFault::NoParent(place) => ("tree no-parent", Some(place)),
        TreeFault::TopDown(place) => ("tree top-down", Some(place)),
        TreeFault::NoSuchFile(place) => ("tree no-such-file", Some(place)),
        TreeFault::BadPid(place) => ("tree bad-pid", Some(place)),
        TreeFault::DuplicatePid(place) => ("tree duplicate-pid", Some(place)),
        TreeFault::NoSuchPlace(place) => ("tree no-such-place", Some(place)),
        TreeFault::InternalProcess(place) => ("tree internal-process", Some(place)),
        TreeFault::NoMemory => ("memory", None),
    }
}
