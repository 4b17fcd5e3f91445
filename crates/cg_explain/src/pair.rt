//! All that is told of a user and a subtree.
ghost use Rattle.std.specs.Prelude.{◌≡◌, ◌<◌, ◌++◌, length, IfOk, OnOk};
ghost use Rattle.std.specs.List.{All, flat_map};
ghost use Rattle.cg_model.specs.WellFormed.{IsWellFormed};
ghost use Rattle.cg_model.specs.Guards.{IsSubtree};
ghost use Rattle.cg_advice.specs.AdviceLines.{IsShown};
ghost use Rattle.cg_report.specs.AnswerLines.{IsShown as IsAnswerShown};
ghost use Rattle.cg_explain.specs.ExplainLines.{told_line, asked_line};
ghost use Rattle.cg_explain.specs.PairExplained.{first_lines, second_lines, limits_lines, answer_line, pair_lines};

use crate::counted::counts_below;
use crate::first::{Told, first_row};
use crate::second::{Asked, second_row};
use crate::text::{asked_line, counted_line, told_line};
use cg_cgroup::files::LimitFile;
use cg_cgroup::memory::NoMemory;
use cg_cgroup::path::Path;
use cg_cgroup::user::User;
use cg_guards::failed::failed_guard;
use cg_model::answer::Answer;
use cg_model::hierarchy::Hierarchy;
use cg_report::answer::failed_text;
use cg_report::pair::user_line;
use std::alloc::Global;

/// The line that names a pair; each guarded entry of the first row; what the second row asks, where a guard fails; the two limits
/// with what they count; and last which answer it is.
pub fn pair_lines<H: Hierarchy>(
    alloc: Global,
    tree: &H,
    user: &User,
    subtree: &Path,
    answer: &Answer,
) -> Result<Vec<u8>, NoMemory>
    requires formed { IsWellFormed (H.state tree.now) }
    requires subtree { IsSubtree (H.state tree.now) subtree.now }
    requires answer { IsAnswerShown subtree.now answer.now }
    ensures { IfOk result (λ text. text.items ≡ pair_lines (H.state tree.now) (record { user = user.now; subtree = subtree.now; found = answer.now })) }
{
    let mut text = user_line(alloc, user, subtree)?.into_bytes();
    push_first(alloc, &mut text, tree, user, subtree)?;
    push_second(alloc, &mut text, tree, user, subtree)?;
    push_limits(alloc, &mut text, tree, subtree)?;
    let last = answer_line(alloc, subtree, answer)?;
    text.extend_from_slice(last.as_slice())?;
    Ok(text)
}

/// The lines of the first row behind a text.
fn push_first<H: Hierarchy>(
    alloc: Global,
    text: &mut Vec<u8>,
    tree: &H,
    user: &User,
    subtree: &Path,
) -> Result<(), NoMemory>
    requires { IsSubtree (H.state tree.now) subtree.now }
    ensures { OnOk result (text.new.items ≡ text.old.items ++ first_lines (H.state tree.now) user.now subtree.now) }
{
    let row = first_row(alloc, tree, user, subtree)?;
    push_told(alloc, text, subtree, row.as_slice())
}

/// The line of each entry of the first row behind a text.
fn push_told(
    alloc: Global,
    text: &mut Vec<u8>,
    subtree: &Path,
    row: &[Told],
) -> Result<(), NoMemory>
    requires { All (λ told. IsShown subtree.now told.at) row.now }
    ensures { OnOk result (text.new.items ≡ text.old.items ++ flat_map (told_line subtree.now) row.now) }
{
    for told in row {
        let line = told_line(alloc, subtree, told)?.into_bytes();
        text.extend_from_slice(line.as_slice())?;
    }
    Ok(())
}

/// The lines of the second row behind a text, where a guard fails.
fn push_second<H: Hierarchy>(
    alloc: Global,
    text: &mut Vec<u8>,
    tree: &H,
    user: &User,
    subtree: &Path,
) -> Result<(), NoMemory>
    requires formed { IsWellFormed (H.state tree.now) }
    requires subtree { IsSubtree (H.state tree.now) subtree.now }
    ensures { OnOk result (text.new.items ≡ text.old.items ++ second_lines (H.state tree.now) user.now subtree.now) }
{
    if failed_guard(tree, user, subtree).is_none() {
        return Ok(());
    }
    let row = second_row(alloc, tree, std::slice::from_ref(user), subtree)?;
    push_asked(alloc, text, subtree, row.as_slice())
}

/// The line of each thing that the second row asks behind a text.
fn push_asked(
    alloc: Global,
    text: &mut Vec<u8>,
    subtree: &Path,
    row: &[Asked],
) -> Result<(), NoMemory>
    requires { 0 < length subtree.now }
    ensures { OnOk result (text.new.items ≡ text.old.items ++ flat_map (asked_line subtree.now) row.now) }
{
    for asked in row {
        let line = asked_line(alloc, subtree, asked)?.into_bytes();
        text.extend_from_slice(line.as_slice())?;
    }
    Ok(())
}

/// The lines of the two limits behind a text.
///
/// # Errors
/// `NoMemory` where an allocation was refused.
pub fn push_limits<H: Hierarchy>(
    alloc: Global,
    text: &mut Vec<u8>,
    tree: &H,
    subtree: &Path,
) -> Result<(), NoMemory>
    ensures { OnOk result (text.new.items ≡ text.old.items ++ limits_lines (H.state tree.now) subtree.now) }
{
    let Some(counts) = counts_below(tree, subtree) else {
        return Ok(());
    };
    let line = counted_line(
        alloc,
        subtree,
        LimitFile::MaxDescendants,
        counts.descendants,
    )?;
    text.extend_from_slice(line.into_bytes().as_slice())?;
    let line = counted_line(alloc, subtree, LimitFile::MaxDepth, counts.depth)?;
    text.extend_from_slice(line.into_bytes().as_slice())?;
    Ok(())
}

/// Which answer it is, in the first line of its report.
fn answer_line(alloc: Global, subtree: &Path, answer: &Answer) -> Result<Vec<u8>, NoMemory>
    requires { IsAnswerShown subtree.now answer.now }
    ensures { IfOk result (λ line. line.items ≡ answer_line subtree.now answer.now) }
{
    match answer {
        Answer::Contained => Ok(b"contained\n".to_vec(alloc)?),
        Answer::Escapes(_) => Ok(b"escapes\n".to_vec(alloc)?),
        Answer::Unsettled(failed) => {
            let why = failed_text(alloc, subtree, failed)?;
            Ok(format!(in alloc; "unsettled {why}\n")?.into_bytes())
        }
    }
}
