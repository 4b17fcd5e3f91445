//! The object of a verdict.
ghost use Rattle.std.specs.Prelude.{◌≡◌, IfOk, OnOk};
ghost use Rattle.serde_json.specs.View.{members_view};
ghost use Rattle.cg_json.specs.Lines.{IsLineOf};
ghost use Rattle.cg_json.specs.Verdicts.{put_clause, verdict_members, verdict_value};

use crate::line::line_of;
use crate::members::{put_number, put_text, text_alone};
use cg_cgroup::memory::NoMemory;
use cg_model::verdict::{Clause, Verdict};
use serde_json::{Map, Value};
use std::alloc::{AllocError, Global};

/// A verdict as JSON, on a line: the object of `kept`, or of `broken`, after how many steps, and what. What is written reads as that
/// object.
///
/// # Errors
/// `NoMemory` where an allocation was refused.
pub fn verdict_json(alloc: Global, verdict: &Verdict) -> Result<Vec<u8>, NoMemory>
    ensures { IfOk result (λ text. IsLineOf (verdict_value verdict.now) text.items) }
{
    let members = verdict_members(alloc, verdict)?;
    line_of(alloc, members)
}

fn verdict_members(alloc: Global, verdict: &Verdict) -> Result<Map<String, Value>, AllocError>
    ensures { IfOk result (λ members. members_view members.entries ≡ verdict_members verdict.now) }
{
    match *verdict {
        Verdict::Kept => text_alone(alloc, "answer", "kept"),
        Verdict::Broken { after, clause } => {
            let mut members = text_alone(alloc, "answer", "broken")?;
            put_number(&mut members, alloc, "after", after as u64)?;
            put_clause(&mut members, alloc, clause)?;
            Ok(members)
        }
    }
}

/// What was broken, and by which process, where it is one that crossed.
fn put_clause(
    members: &mut Map<String, Value>,
    alloc: Global,
    clause: Clause,
) -> Result<(), AllocError>
    ensures { OnOk result (members_view members.new.entries ≡ put_clause clause (members_view members.old.entries)) }
{
    match clause {
        Clause::Gone => put_text(members, alloc, "what", "gone"),
        Clause::Crossed(pid) => {
            put_text(members, alloc, "what", "crossed")?;
            put_number(members, alloc, "pid", u64::from(pid.get()))
        }
        Clause::Limits => put_text(members, alloc, "what", "limits"),
        Clause::Descendants => put_text(members, alloc, "what", "descendants"),
        Clause::Depth => put_text(members, alloc, "what", "depth"),
    }
}
