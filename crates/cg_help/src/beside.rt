//! Help beside an answer, which stays what it is.
ghost use Rattle.std.specs.Prelude.{◌≡◌, IfOk, option_copied, string_bytes};
ghost use Rattle.cg_help.specs.Beside.{stranger_words, stranger_line, IsMissingLine, AreBesideLines};

use crate::modes::{Spelled, mode_line};
use crate::paths::missing_said;
use cg_cgroup::memory::NoMemory;
use std::alloc::{AllocError, Global};
use text_places::near::Missing;
use text_places::shown::indented;

/// What was noted of a tree that was taken.
#[derive(Debug, Drop)]
pub struct Beside {
    /// The first mode that is written in decimal and reads as an octal one.
    pub mode: Option<Spelled>,
    /// The uid of the first user of whom the tree says nothing.
    pub stranger: Option<u32>,
    /// The path to which a process is to be moved, where the tree doesn't have it.
    pub missing: Option<Missing>,
}

/// A line for each thing that was noted.
pub fn beside_lines(alloc: Global, beside: &Beside) -> Result<Vec<u8>, NoMemory>
    ensures { IfOk result (λ lines. AreBesideLines beside.now lines.items) }
{
    let mut lines = mode_line(alloc, beside.mode)?;
    let stranger = stranger_line(alloc, beside.stranger)?;
    let missing = missing_line(alloc, beside.missing.as_ref())?;
    lines.extend_from_slice(stranger.as_slice())?;
    lines.extend_from_slice(missing.as_slice())?;
    Ok(lines)
}

fn stranger_line(alloc: Global, stranger: Option<u32>) -> Result<Vec<u8>, NoMemory>
    ensures { IfOk result (λ line. line.items ≡ stranger_line stranger) }
{
    match stranger {
        Some(uid) => Ok(indented(alloc, stranger_words(alloc, uid)?.as_str())?),
        None => Ok(Vec::new(alloc)),
    }
}

/// That a tree says nothing of a user, who may have been named by mistake.
fn stranger_words(alloc: Global, uid: u32) -> Result<String, AllocError>
    ensures { IfOk result (λ words. string_bytes words ≡ stranger_words uid) }
{
    format!(in alloc;
        "uid {uid} and its gids own nothing in this tree, write nothing but what all others write, and have no process in it"
    )
}

fn missing_line(alloc: Global, missing: Option<&Missing>) -> Result<Vec<u8>, NoMemory>
    ensures { IfOk result (λ line. IsMissingLine (option_copied missing.entry) line.items) }
{
    match missing {
        Some(missing) => Ok(indented(alloc, missing_said(alloc, missing)?.as_str())?),
        None => Ok(Vec::new(alloc)),
    }
}
