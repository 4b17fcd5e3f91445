//! All that is told of a user and a subtree, as JSON.
ghost use Rattle.std.specs.Prelude.{◌≡◌, ◌<◌, ◌++◌, length, map, codes, IfOk, OnOk};
ghost use Rattle.std.specs.List.{All};
ghost use Rattle.cg_model.specs.WellFormed.{IsWellFormed};
ghost use Rattle.cg_model.specs.Guards.{IsSubtree};
ghost use Rattle.cg_advice.specs.AdviceLines.{IsShown};
ghost use Rattle.cg_report.specs.AnswerLines.{IsShown as IsAnswerShown};
ghost use Rattle.serde_json.specs.Data.{put};
ghost use Rattle.serde_json.specs.View.{view, members_view};
ghost use Rattle.cg_json.specs.Audits.{put_pair};
ghost use Rattle.cg_json.specs.Entries.{at_guard};
ghost use Rattle.cg_json.specs.Lines.{IsLineOf};
ghost use Rattle.cg_explain.specs.Objects.{put_holds, put_class, put_by, told_value, counted_value, why_members, asked_value, second_values, limits_values, guards_value, which_members, explained_value};

use crate::counted::{Counted, counts_below};
use crate::first::{Told, first_row};
use crate::second::{Asked, second_row};
use crate::text::{files_word, growing_word, staying_word, switch_word, taking_word};
use cg_advice::mend::class_name;
use cg_cgroup::files::LimitFile;
use cg_cgroup::memory::NoMemory;
use cg_cgroup::path::Path;
use cg_cgroup::user::User;
use cg_guards::failed::failed_guard;
use cg_json::answer::failed_members;
use cg_json::audit::put_pair;
use cg_json::entry::{at_guard, entry_members};
use cg_json::line::line_of;
use cg_json::members::{put_number, put_text, text_alone};
use cg_json::operation::limit_value;
use cg_model::answer::Answer;
use cg_model::guard::Guard;
use cg_model::hierarchy::Hierarchy;
use cg_model::mend::Class;
use serde_json::{Map, Value, put};
use std::alloc::{AllocError, Global};

/// All that is told of a pair as JSON, on a line: who and what they are, an object for each line that holds or fails, and which answer
/// it is. What is written reads as that object.
///
/// # Errors
/// `NoMemory` where an allocation was refused.
pub fn explained_json<H: Hierarchy>(
    alloc: Global,
    tree: &H,
    user: &User,
    subtree: &Path,
    answer: &Answer,
) -> Result<Vec<u8>, NoMemory>
    requires formed { IsWellFormed (H.state tree.now) }
    requires subtree { IsSubtree (H.state tree.now) subtree.now }
    requires answer { IsAnswerShown subtree.now answer.now }
    ensures { IfOk result (λ text.
        IsLineOf (explained_value (H.state tree.now) (record { user = user.now; subtree = subtree.now; found = answer.now })) text.items) }
{
    let guards = guards_value(alloc, tree, user, subtree)?;
    let members = explained_members(alloc, guards, user, subtree, answer)?;
    line_of(alloc, members)
}

/// The members of a pair, with these guards.
fn explained_members(
    alloc: Global,
    guards: Value,
    user: &User,
    subtree: &Path,
    answer: &Answer,
) -> Result<Map<String, Value>, AllocError>
    requires { IsAnswerShown subtree.now answer.now }
    ensures { IfOk result (λ members. members_view members.entries
        ≡ put (codes "guards") (view guards) (put_pair user.now subtree.now (which_members subtree.now answer.now))) }
{
    let mut members = which_members(alloc, subtree, answer)?;
    put_pair(&mut members, alloc, user, subtree)?;
    put(&mut members, alloc, "guards", guards)?;
    Ok(members)
}

/// Which answer it is.
fn which_members(
    alloc: Global,
    subtree: &Path,
    answer: &Answer,
) -> Result<Map<String, Value>, AllocError>
    requires { IsAnswerShown subtree.now answer.now }
    ensures { IfOk result (λ members. members_view members.entries ≡ which_members subtree.now answer.now) }
{
    match answer {
        Answer::Contained => text_alone(alloc, "answer", "contained"),
        Answer::Escapes(_) => text_alone(alloc, "answer", "escapes"),
        Answer::Unsettled(failed) => failed_members(alloc, subtree, failed),
    }
}

/// A list of what holds or fails.
fn guards_value<H: Hierarchy>(
    alloc: Global,
    tree: &H,
    user: &User,
    subtree: &Path,
) -> Result<Value, NoMemory>
    requires formed { IsWellFormed (H.state tree.now) }
    requires subtree { IsSubtree (H.state tree.now) subtree.now }
    ensures { IfOk result (λ value. view value ≡ guards_value (H.state tree.now) user.now subtree.now) }
{
    let row = first_row(alloc, tree, user, subtree)?;
    let mut list = Vec::new(alloc);
    push_told(&mut list, alloc, subtree, row.as_slice())?;
    push_second(&mut list, alloc, tree, user, subtree)?;
    push_limits(&mut list, alloc, tree, subtree)?;
    Ok(Value::from(list))
}

fn push_told(
    list: &mut Vec<Value>,
    alloc: Global,
    subtree: &Path,
    row: &[Told],
) -> Result<(), AllocError>
    requires { All (λ told. IsShown subtree.now told.at) row.now }
    ensures { OnOk result (map view list.new.items ≡ map view list.old.items ++ map (told_value subtree.now) row.now) }
{
    for told in row {
        let value = told_value(alloc, subtree, told)?;
        list.push(value)?;
    }
    Ok(())
}

/// The object of an entry of the first row.
pub fn told_value(alloc: Global, subtree: &Path, told: &Told) -> Result<Value, AllocError>
    requires { IsShown subtree.now told.now.at }
    ensures { IfOk result (λ value. view value ≡ told_value subtree.now told.now) }
{
    let mut members = entry_members(alloc, subtree, &told.at)?;
    put_class(&mut members, alloc, told.by)?;
    Ok(Value::from(members))
}

/// That a guard holds, or by what class the user reaches its entry.
fn put_class(
    members: &mut Map<String, Value>,
    alloc: Global,
    by: Option<Class>,
) -> Result<(), AllocError>
    ensures { OnOk result (members_view members.new.entries ≡ put_class by (members_view members.old.entries)) }
{
    match by {
        None => put_holds(members, alloc, true),
        Some(class) => {
            put_text(members, alloc, "class", class_name(class))?;
            put_holds(members, alloc, false)
        }
    }
}

fn put_holds(members: &mut Map<String, Value>, alloc: Global, holds: bool) -> Result<(), AllocError>
    ensures { OnOk result (members_view members.new.entries ≡ put_holds holds (members_view members.old.entries)) }
{
    put(members, alloc, "holds", Value::from(holds))
}

/// The objects of the second row, where a guard fails.
fn push_second<H: Hierarchy>(
    list: &mut Vec<Value>,
    alloc: Global,
    tree: &H,
    user: &User,
    subtree: &Path,
) -> Result<(), NoMemory>
    requires formed { IsWellFormed (H.state tree.now) }
    requires subtree { IsSubtree (H.state tree.now) subtree.now }
    ensures { OnOk result (map view list.new.items ≡ map view list.old.items ++ second_values (H.state tree.now) user.now subtree.now) }
{
    if failed_guard(tree, user, subtree).is_none() {
        return Ok(());
    }
    let row = second_row(alloc, tree, std::slice::from_ref(user), subtree)?;
    push_asked(list, alloc, subtree, row.as_slice())?;
    Ok(())
}

fn push_asked(
    list: &mut Vec<Value>,
    alloc: Global,
    subtree: &Path,
    row: &[Asked],
) -> Result<(), AllocError>
    requires { 0 < length subtree.now }
    ensures { OnOk result (map view list.new.items ≡ map view list.old.items ++ map (asked_value subtree.now) row.now) }
{
    for asked in row {
        let value = asked_value(alloc, subtree, asked)?;
        list.push(value)?;
    }
    Ok(())
}

/// The object of what the second row asks.
fn asked_value(alloc: Global, subtree: &Path, asked: &Asked) -> Result<Value, AllocError>
    requires { 0 < length subtree.now }
    ensures { IfOk result (λ value. view value ≡ asked_value subtree.now asked.now) }
{
    let mut members = why_members(alloc, subtree, asked)?;
    put_holds(&mut members, alloc, asked.is_met())?;
    Ok(Value::from(members))
}

/// What is asked, and by what it is so.
fn why_members(
    alloc: Global,
    subtree: &Path,
    asked: &Asked,
) -> Result<Map<String, Value>, AllocError>
    requires { 0 < length subtree.now }
    ensures { IfOk result (λ members. members_view members.entries ≡ why_members subtree.now asked.now) }
{
    let at = subtree.prefix(subtree.depth());
    match asked {
        Asked::Stays(why) => by_members(alloc, "stays", at, staying_word(*why)),
        Asked::Control(controller, how) => {
            let at = subtree.prefix(subtree.parent_len());
            let mut members = at_guard(alloc, "control", at)?;
            put_text(&mut members, alloc, "controller", controller.name())?;
            put_text(&mut members, alloc, "by", switch_word(*how))?;
            Ok(members)
        }
        Asked::Files(spared) => by_members(alloc, "files", at, files_word(*spared)),
        Asked::Shut(place) => {
            let at = place.path.prefix(place.path.depth());
            let mut members = at_guard(alloc, "shut", at)?;
            put_text(&mut members, alloc, "takes", taking_word(place.takes_none))?;
            put_text(&mut members, alloc, "grows", growing_word(place.grows_none))?;
            Ok(members)
        }
    }
}

/// A guard, the text of a path, and by what it is so.
fn by_members(
    alloc: Global,
    guard: &str,
    place: &str,
    word: &str,
) -> Result<Map<String, Value>, AllocError>
    ensures { IfOk result (λ members. members_view members.entries ≡ put_by word.now (at_guard guard.now place.now)) }
{
    let mut members = at_guard(alloc, guard, place)?;
    put_text(&mut members, alloc, "by", word)?;
    Ok(members)
}

/// The objects of the two limits, where the subtree is there.
pub fn push_limits<H: Hierarchy>(
    list: &mut Vec<Value>,
    alloc: Global,
    tree: &H,
    subtree: &Path,
) -> Result<(), AllocError>
    ensures { OnOk result (map view list.new.items ≡ map view list.old.items ++ limits_values (H.state tree.now) subtree.now) }
{
    let Some(counts) = counts_below(tree, subtree) else {
        return Ok(());
    };
    let descendants = counted_value(
        alloc,
        subtree,
        LimitFile::MaxDescendants,
        counts.descendants,
    )?;
    list.push(descendants)?;
    let depth = counted_value(alloc, subtree, LimitFile::MaxDepth, counts.depth)?;
    list.push(depth)?;
    Ok(())
}

/// The object of a limit of a subtree: whether the subtree is within it, how many there are, and the limit.
fn counted_value(
    alloc: Global,
    subtree: &Path,
    file: LimitFile,
    counted: Counted,
) -> Result<Value, AllocError>
    ensures { IfOk result (λ value. view value ≡ counted_value subtree.now file counted) }
{
    let limit = limit_value(alloc, counted.limit)?;
    let place = subtree.prefix(subtree.depth());
    let mut members = at_guard(alloc, Guard::AlreadyOver.name(), place)?;
    put_text(&mut members, alloc, "entry", file.name())?;
    put_number(&mut members, alloc, "count", counted.count)?;
    put(&mut members, alloc, "limit", limit)?;
    put_holds(&mut members, alloc, counted.is_within())?;
    Ok(Value::from(members))
}
