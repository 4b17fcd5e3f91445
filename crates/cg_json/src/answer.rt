//! The object of an answer.
ghost use Rattle.std.specs.Prelude.{◌≡◌, ◌≤◌, length, IfOk, OnOk};
ghost use Rattle.cg_report.specs.AnswerLines.{IsShown};
ghost use Rattle.serde_json.specs.View.{members_view};
ghost use Rattle.cg_json.specs.Answers.{answer_members, answer_value, escape_members, failed_members, put_limit_file};
ghost use Rattle.cg_json.specs.Lines.{IsLineOf};

use crate::line::line_of;
use crate::members::{put_text, text_alone};
use crate::operation::ops_value;
use cg_cgroup::memory::NoMemory;
use cg_cgroup::path::Path;
use cg_model::answer::Answer;
use cg_model::guard::{Failed, Guard};
use cg_model::operation::Op;
use serde_json::{Map, Value, put};
use std::alloc::{AllocError, Global};

/// The answer for a subtree as JSON, on a line: an object that has `contained`; `escapes` and the operations; or `unsettled` and the
/// guard that fails, where, and which limit file if it is one's. What is written reads as that object.
///
/// # Errors
/// `NoMemory` where an allocation was refused.
pub fn answer_json(alloc: Global, subtree: &Path, answer: &Answer) -> Result<Vec<u8>, NoMemory>
    requires { IsShown subtree.now answer.now }
    ensures { IfOk result (λ text. IsLineOf (answer_value subtree.now answer.now) text.items) }
{
    let members = answer_members(alloc, subtree, answer)?;
    line_of(alloc, members)
}

/// The members of an answer's object.
pub fn answer_members(
    alloc: Global,
    subtree: &Path,
    answer: &Answer,
) -> Result<Map<String, Value>, AllocError>
    requires { IsShown subtree.now answer.now }
    ensures { IfOk result (λ members. members_view members.entries ≡ answer_members subtree.now answer.now) }
{
    match answer {
        Answer::Contained => text_alone(alloc, "answer", "contained"),
        Answer::Escapes(ops) => escape_members(alloc, ops.as_slice()),
        Answer::Unsettled(failed) => failed_members(alloc, subtree, failed),
    }
}

fn escape_members(alloc: Global, ops: &[Op]) -> Result<Map<String, Value>, AllocError>
    ensures { IfOk result (λ members. members_view members.entries ≡ escape_members ops.now) }
{
    let operations = ops_value(alloc, ops)?;
    let mut members = text_alone(alloc, "answer", "escapes")?;
    put(&mut members, alloc, "operations", operations)?;
    Ok(members)
}

/// The guard that fails, the cgroup at which it does, and the limit file, where it is one's.
pub fn failed_members(
    alloc: Global,
    subtree: &Path,
    failed: &Failed,
) -> Result<Map<String, Value>, AllocError>
    requires { failed.now.len ≤ length subtree.now }
    ensures { IfOk result (λ members. members_view members.entries ≡ failed_members subtree.now failed.now) }
{
    let mut members = text_alone(alloc, "answer", "unsettled")?;
    put_text(&mut members, alloc, "guard", failed.guard.name())?;
    put_text(&mut members, alloc, "path", subtree.prefix(failed.len))?;
    put_limit_file(&mut members, alloc, failed.guard)?;
    Ok(members)
}

/// One more member where a guard is a limit file's.
fn put_limit_file(
    members: &mut Map<String, Value>,
    alloc: Global,
    guard: Guard,
) -> Result<(), AllocError>
    ensures { OnOk result (members_view members.new.entries ≡ put_limit_file guard (members_view members.old.entries)) }
{
    match guard {
        Guard::LimitFile(entry) => put_text(members, alloc, "entry", entry.name()),
        Guard::CommonAncestor | Guard::ParentControl | Guard::ParentDir | Guard::AlreadyOver => {
            Ok(())
        }
    }
}
