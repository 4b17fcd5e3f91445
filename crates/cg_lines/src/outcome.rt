//! The text of an operation's outcome.
ghost use Rattle.std.specs.Prelude.{◌≡◌, ◌≤◌, [], IfOk, MatchOption, length, take, string_bytes};
ghost use Rattle.cg_cgroup.specs.Paths.{path_text};
ghost use Rattle.cg_cgroup.specs.Identity.{Identity};
ghost use Rattle.cg_model.specs.States.{State};
ghost use Rattle.cg_model.specs.Clauses.{first};
ghost use Rattle.cg_model.specs.Bars.{bars};
ghost use Rattle.cg_model.specs.declared.operation.Op.{Op};
ghost use Rattle.cg_model.specs.declared.outcome.Refusal.{Refusal};
ghost use Rattle.cg_lines.specs.Outcomes.{path_of, named_len, outcome_text, refusal_text, IsShown, CanShow};

use cg_cgroup::memory::NoMemory;
use cg_cgroup::path::Path;
use cg_model::operation::Op;
use cg_model::outcome::{Outcome, Refusal};
use std::alloc::{AllocError, Global};

/// The line of an outcome, with its newline: `ok`, or `refused` and why.
///
/// A refusal is one that the operation can meet, and names so many first names of its path as it says; these have to be
/// there. So it is in what `cg_ops` answers.
pub fn outcome_text(alloc: Global, op: &Op, outcome: &Outcome) -> Result<Vec<u8>, NoMemory>
    requires { CanShow op.now outcome.now }
    ensures { IfOk result (λ text. text.items ≡ outcome_text op.now outcome.now) }
{
    let line = match outcome {
        Outcome::Done => String::from_str(alloc, "ok\n")?,
        Outcome::Refused(refusal) => {
            let why = refusal_text(alloc, op, refusal)?;
            format!(in alloc; "refused {why}\n")?
        }
    };
    Ok(line.into_bytes())
}

fn refusal_text(alloc: Global, op: &Op, refusal: &Refusal) -> Result<String, AllocError>
    requires { IsShown (path_of op.now) refusal.now }
    ensures { IfOk result (λ text. string_bytes text ≡ refusal_text (path_of op.now) refusal.now) }
{
    let whole = shown(op, depth(op));
    let named = shown(op, named_len(refusal));
    match refusal {
        Refusal::NoSuchCgroup { len: _ } => format!(in alloc; "no-such-cgroup {named}"),
        Refusal::NoAccess { len: _, entry } => {
            format!(in alloc; "no-access {named} {}", entry.name())
        }
        Refusal::NoSuchProcess { pid } => format!(in alloc; "no-such-process {}", pid.get()),
        Refusal::InternalProcess { len: _ } => format!(in alloc; "internal-process {named}"),
        Refusal::NotAvailable { controller } => {
            format!(in alloc; "not-available {}", controller.name())
        }
        Refusal::ChildUses { controller } => format!(in alloc; "child-uses {}", controller.name()),
        Refusal::Exists => format!(in alloc; "exists {whole}"),
        Refusal::DescendantLimit { len: _ } => format!(in alloc; "descendant-limit {named}"),
        Refusal::DepthLimit { len: _ } => format!(in alloc; "depth-limit {named}"),
        Refusal::RootCgroup => String::from_str(alloc, "root-cgroup"),
        Refusal::HasChildren => format!(in alloc; "has-children {whole}"),
        Refusal::HasProcesses => format!(in alloc; "has-processes {whole}"),
        Refusal::NoSuchFile { entry } => {
            format!(in alloc; "no-such-file {whole} {}", entry.name())
        }
        Refusal::BadValue { file } => format!(in alloc; "bad-value {}", file.name()),
        Refusal::NotYours { pid } => format!(in alloc; "not-yours {}", pid.get()),
        Refusal::PidUsed { pid } => format!(in alloc; "pid-used {}", pid.get()),
        Refusal::NotOwner { entry } => format!(in alloc; "not-owner {whole} {}", entry.name()),
    }
}

/// How many first names of the operation's path a refusal names; 0 where it names no number of them.
pub fn named_len(refusal: &Refusal) -> usize
    ensures { result ≡ named_len refusal.now }
{
    match *refusal {
        Refusal::NoSuchCgroup { len }
        | Refusal::NoAccess { len, entry: _ }
        | Refusal::InternalProcess { len }
        | Refusal::DescendantLimit { len }
        | Refusal::DepthLimit { len } => len,
        _ => 0,
    }
}

/// How many names the operation's path has.
pub fn depth(op: &Op) -> usize
    ensures { result ≡ length (path_of op.now) }
{
    match path_of(op) {
        Some(path) => path.depth(),
        None => 0,
    }
}

/// The text of so many first names of the operation's path.
pub fn shown(op: &Op, len: usize) -> &str
    requires { len ≤ length (path_of op.now) }
    ensures { result.now ≡ path_text (take len (path_of op.now)) }
{
    match path_of(op) {
        Some(path) => path.prefix(len),
        None => "/",
    }
}

/// The path that an operation names, where it names one.
fn path_of(op: &Op) -> Option<&Path>
    ensures { MatchOption result (path_of op.now ≡ []) (λ path. path.now ≡ path_of op.now) }
{
    match op {
        Op::Move { pid: _, to: path }
        | Op::Control {
            at: path,
            changes: _,
        }
        | Op::Mkdir { path }
        | Op::Rmdir { path }
        | Op::Set {
            at: path,
            file: _,
            value: _,
        }
        | Op::SetOther {
            at: path,
            file: _,
            value: _,
        }
        | Op::Chmod {
            at: path,
            entry: _,
            mode: _,
        } => Some(path),
        Op::Fork { .. } | Op::Exit { .. } => None,
    }
}

/// What bars an operation can be shown: it is one that the operation can meet, and names no more than its path.
pub fn bars_are_shown()
    ensures { (st : State) (user : Identity) (op : Op) (refusal : Refusal)
        → first (bars st user op) ≡ Some refusal → CanShow op (Outcome.Refused refusal) }
{}
