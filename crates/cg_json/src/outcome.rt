//! The objects of an operation's outcome, and of the answer for a move.
ghost use Rattle.std.specs.Prelude.{◌≡◌, IfOk, OnOk};
ghost use Rattle.std.specs.Option.{ForSome};
ghost use Rattle.cg_lines.specs.Outcomes.{path_of, IsShown, CanShow};
ghost use Rattle.cg_model.specs.declared.outcome.Outcome.TheVariants.{Refused};
ghost use Rattle.serde_json.specs.View.{members_view};
ghost use Rattle.cg_json.specs.Lines.{IsLineOf};
ghost use Rattle.cg_json.specs.Outcomes.{refusal_word, put_entry, put_named, refused_members, outcome_members, outcome_value, permission_members, permission_value};

use crate::line::line_of;
use crate::members::{put_number, put_text, text_alone};
use cg_cgroup::memory::NoMemory;
use cg_lines::outcome::{depth, named_len, shown};
use cg_model::operation::Op;
use cg_model::outcome::{Outcome, Refusal};
use serde_json::{Map, Value};
use std::alloc::{AllocError, Global};

/// The outcome of an operation as JSON, on a line: the object of `ok`, or of `refused` and why. What is written reads as that object.
///
/// # Errors
/// `NoMemory` where an allocation was refused.
pub fn outcome_json(alloc: Global, op: &Op, outcome: &Outcome) -> Result<Vec<u8>, NoMemory>
    requires { CanShow op.now outcome.now }
    ensures { IfOk result (λ text. IsLineOf (outcome_value op.now outcome.now) text.items) }
{
    let members = outcome_members(alloc, op, outcome)?;
    line_of(alloc, members)
}

/// Whether an operation is granted as JSON, on a line: the object of `granted`, or of `refused` and why. What is written reads as that
/// object.
///
/// # Errors
/// `NoMemory` where an allocation was refused.
pub fn permission_json(alloc: Global, op: &Op, bar: Option<Refusal>) -> Result<Vec<u8>, NoMemory>
    requires { ForSome bar (λ bar. CanShow op.now (Refused bar)) }
    ensures { IfOk result (λ text. IsLineOf (permission_value op.now bar) text.items) }
{
    let members = permission_members(alloc, op, bar)?;
    line_of(alloc, members)
}

fn outcome_members(
    alloc: Global,
    op: &Op,
    outcome: &Outcome,
) -> Result<Map<String, Value>, AllocError>
    requires { CanShow op.now outcome.now }
    ensures { IfOk result (λ members. members_view members.entries ≡ outcome_members op.now outcome.now) }
{
    match outcome {
        Outcome::Done => text_alone(alloc, "answer", "ok"),
        Outcome::Refused(refusal) => refused_members(alloc, op, refusal),
    }
}

fn permission_members(
    alloc: Global,
    op: &Op,
    bar: Option<Refusal>,
) -> Result<Map<String, Value>, AllocError>
    requires { ForSome bar (λ bar. CanShow op.now (Refused bar)) }
    ensures { IfOk result (λ members. members_view members.entries ≡ permission_members op.now bar) }
{
    match bar {
        None => text_alone(alloc, "answer", "granted"),
        Some(bar) => refused_members(alloc, op, &bar),
    }
}

/// A refusal, its word, and what it names.
fn refused_members(
    alloc: Global,
    op: &Op,
    refusal: &Refusal,
) -> Result<Map<String, Value>, AllocError>
    requires { IsShown (path_of op.now) refusal.now }
    ensures { IfOk result (λ members. members_view members.entries ≡ refused_members (path_of op.now) refusal.now) }
{
    let mut members = text_alone(alloc, "answer", "refused")?;
    put_text(&mut members, alloc, "refusal", refusal_word(refusal))?;
    put_named(&mut members, alloc, op, refusal)?;
    Ok(members)
}

fn refusal_word(refusal: &Refusal) -> &'static str
    ensures { result.now ≡ refusal_word refusal.now }
{
    match refusal {
        Refusal::NoSuchCgroup { .. } => "no-such-cgroup",
        Refusal::NoAccess { .. } => "no-access",
        Refusal::NoSuchProcess { .. } => "no-such-process",
        Refusal::InternalProcess { .. } => "internal-process",
        Refusal::NotAvailable { .. } => "not-available",
        Refusal::ChildUses { .. } => "child-uses",
        Refusal::Exists => "exists",
        Refusal::DescendantLimit { .. } => "descendant-limit",
        Refusal::DepthLimit { .. } => "depth-limit",
        Refusal::RootCgroup => "root-cgroup",
        Refusal::HasChildren => "has-children",
        Refusal::HasProcesses => "has-processes",
        Refusal::NoSuchFile { .. } => "no-such-file",
        Refusal::BadValue { .. } => "bad-value",
        Refusal::NotYours { .. } => "not-yours",
        Refusal::PidUsed { .. } => "pid-used",
        Refusal::NotOwner { .. } => "not-owner",
    }
}

/// The members of what a refusal names.
fn put_named(
    members: &mut Map<String, Value>,
    alloc: Global,
    op: &Op,
    refusal: &Refusal,
) -> Result<(), AllocError>
    requires { IsShown (path_of op.now) refusal.now }
    ensures { OnOk result (members_view members.new.entries ≡ put_named (path_of op.now) refusal.now (members_view members.old.entries)) }
{
    let whole = shown(op, depth(op));
    let named = shown(op, named_len(refusal));
    match refusal {
        Refusal::NoSuchCgroup { .. }
        | Refusal::InternalProcess { .. }
        | Refusal::DescendantLimit { .. }
        | Refusal::DepthLimit { .. } => put_text(members, alloc, "path", named),
        Refusal::Exists | Refusal::HasChildren | Refusal::HasProcesses => {
            put_text(members, alloc, "path", whole)
        }
        Refusal::NoAccess { len: _, entry } => put_entry(members, alloc, named, entry.name()),
        Refusal::NoSuchFile { entry } | Refusal::NotOwner { entry } => {
            put_entry(members, alloc, whole, entry.name())
        }
        Refusal::BadValue { file } => put_text(members, alloc, "entry", file.name()),
        Refusal::NoSuchProcess { pid } | Refusal::NotYours { pid } | Refusal::PidUsed { pid } =>
            put_number(members, alloc, "pid", u64::from(pid.get())),
        Refusal::NotAvailable { controller } | Refusal::ChildUses { controller } => {
            put_text(members, alloc, "controller", controller.name())
        }
        Refusal::RootCgroup => Ok(()),
    }
}

/// The text of a path, and the name of an entry there.
fn put_entry(
    members: &mut Map<String, Value>,
    alloc: Global,
    place: &str,
    entry: &str,
) -> Result<(), AllocError>
    ensures { OnOk result (members_view members.new.entries ≡ put_entry place.now entry.now (members_view members.old.entries)) }
{
    put_text(members, alloc, "path", place)?;
    put_text(members, alloc, "entry", entry)
}
