//! The lines of an answer.
ghost use Rattle.std.specs.Prelude.{◌≡◌, ◌≤◌, ◌++◌, length, Ok, IfOk, OnOk, string_bytes};
ghost use Rattle.cg_cgroup.specs.Paths.{Names};
ghost use Rattle.cg_cgroup.specs.Identity.{Identity};
ghost use Rattle.cg_model.specs.States.{State};
ghost use Rattle.cg_model.specs.Checks.{checked};
ghost use Rattle.cg_model.specs.declared.answer.Answer.{Answer};
ghost use Rattle.cg_report.specs.AnswerLines.{answer_text, failed_text, op_lines, IsShown};

use cg_cgroup::memory::NoMemory;
use cg_cgroup::path::Path;
use cg_lines::lines::op_text;
use cg_model::answer::Answer;
use cg_model::guard::{Failed, Guard};
use cg_model::operation::Op;
use std::alloc::{AllocError, Global};

/// The lines of the answer for a subtree, each with its newline: `contained`; `escapes` and the line of each operation;
/// or `unsettled` and the guard that fails, where, and which limit file if it is one's. Fails where memory is wanted.
pub fn answer_text(alloc: Global, subtree: &Path, answer: &Answer) -> Result<Vec<u8>, NoMemory>
    requires { IsShown subtree.now answer.now }
    ensures { IfOk result (λ text. text.items ≡ answer_text subtree.now answer.now) }
{
    match answer {
        Answer::Contained => Ok(b"contained\n".to_vec(alloc)?),
        Answer::Escapes(ops) => {
            let mut text = b"escapes\n".to_vec(alloc)?;
            push_lines(alloc, &mut text, ops.as_slice())?;
            Ok(text)
        }
        Answer::Unsettled(failed) => {
            let why = failed_text(alloc, subtree, failed)?;
            Ok(format!(in alloc; "unsettled {why}\n")?.into_bytes())
        }
    }
}

/// The line of each operation behind a text.
fn push_lines(alloc: Global, text: &mut Vec<u8>, ops: &[Op]) -> Result<(), NoMemory>
    ensures { OnOk result (text.new.items ≡ text.old.items ++ op_lines ops.now) }
{
    for op in ops {
        let line = op_text(alloc, op)?;
        text.extend_from_slice(line.as_slice())?;
    }
    Ok(())
}

/// A guard that fails, and the cgroup at which it does; and the limit file, where it is one's.
pub fn failed_text(alloc: Global, subtree: &Path, failed: &Failed) -> Result<String, AllocError>
    requires { failed.now.len ≤ length subtree.now }
    ensures { IfOk result (λ text. string_bytes text ≡ failed_text subtree.now failed.now) }
{
    let place = subtree.prefix(failed.len);
    match failed.guard {
        Guard::CommonAncestor => format!(in alloc; "common-ancestor {place}"),
        Guard::LimitFile(entry) => format!(in alloc; "limit-file {place} {}", entry.name()),
        Guard::ParentControl => format!(in alloc; "parent-control {place}"),
        Guard::ParentDir => format!(in alloc; "parent-dir {place}"),
        Guard::AlreadyOver => format!(in alloc; "already-over {place}"),
    }
}

/// The answer of a check can be shown: the guard that it names fails at one of the cgroups of the subtree's path.
pub fn answers_are_shown()
    ensures { (st : State) (user : Identity) (subtree : Names) (found : Answer)
        → checked st user subtree ≡ Ok found → IsShown subtree found }
{}
