//! The objects of pairs, and of the answer for several users and several subtrees.
ghost use Rattle.std.specs.Prelude.{◌≡◌, IfOk, OnOk};
ghost use Rattle.cg_report.specs.AnswerLines.{IsShown};
ghost use Rattle.cg_report.specs.AuditLines.{IsPairShown};
ghost use Rattle.serde_json.specs.View.{members_view};
ghost use Rattle.cg_json.specs.Audits.{contained_value, put_pair, pair_value, audit_value};
ghost use Rattle.cg_json.specs.Lines.{IsLineOf};

use crate::answer::answer_members;
use crate::line::line_of;
use crate::members::{numbers_value, put_number, put_text, text_alone};
use cg_cgroup::memory::NoMemory;
use cg_cgroup::path::Path;
use cg_cgroup::user::User;
use cg_model::answer::{AllAnswer, Answer};
use serde_json::{Map, Value, put};
use std::alloc::{AllocError, Global};

/// The answer for users and subtrees as JSON, on a line: the object of `contained`, or that of the first pair that isn't.
///
/// # Errors
/// `NoMemory` where an allocation was refused.
pub fn audit_json(
    alloc: Global,
    users: &[User],
    subtrees: &[Path],
    answer: &AllAnswer,
) -> Result<Vec<u8>, NoMemory>
    requires { IsPairShown users.now subtrees.now answer.now }
    ensures { IfOk result (λ text. IsLineOf (audit_value users.now subtrees.now answer.now) text.items) }
{
    match answer {
        AllAnswer::Contained => contained_json(alloc),
        AllAnswer::Pair {
            user,
            subtree,
            answer,
        } => pair_json(alloc, &users[*user], &subtrees[*subtree], answer),
    }
}

/// The object of `contained` as JSON, on a line.
///
/// # Errors
/// `NoMemory` where an allocation was refused.
pub fn contained_json(alloc: Global) -> Result<Vec<u8>, NoMemory>
    ensures { IfOk result (λ text. IsLineOf contained_value text.items) }
{
    let members = text_alone(alloc, "answer", "contained")?;
    line_of(alloc, members)
}

/// The answer for a user and a subtree as JSON, on a line, with who and what they are. What is written reads as that object.
///
/// # Errors
/// `NoMemory` where an allocation was refused.
pub fn pair_json(
    alloc: Global,
    user: &User,
    subtree: &Path,
    answer: &Answer,
) -> Result<Vec<u8>, NoMemory>
    requires { IsShown subtree.now answer.now }
    ensures { IfOk result (λ text.
        IsLineOf (pair_value (record { user = user.now; subtree = subtree.now; found = answer.now })) text.items) }
{
    let mut members = answer_members(alloc, subtree, answer)?;
    put_pair(&mut members, alloc, user, subtree)?;
    line_of(alloc, members)
}

/// The members of a user and a subtree.
pub fn put_pair(
    members: &mut Map<String, Value>,
    alloc: Global,
    user: &User,
    subtree: &Path,
) -> Result<(), AllocError>
    ensures { OnOk result (members_view members.new.entries ≡ put_pair user.now subtree.now (members_view members.old.entries)) }
{
    put_number(members, alloc, "uid", u64::from(user.uid()))?;
    let gids = numbers_value(alloc, user.gids())?;
    put(members, alloc, "gids", gids)?;
    put_text(members, alloc, "subtree", subtree.prefix(subtree.depth()))
}
