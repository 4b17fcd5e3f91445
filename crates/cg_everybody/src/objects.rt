//! Answers on everybody as JSON.
ghost use Rattle.std.specs.Prelude.{◌≡◌, map, IfOk, OnOk};
ghost use Rattle.std.specs.List.{All};
ghost use Rattle.cg_model.specs.Guards.{IsSubtree};
ghost use Rattle.serde_json.specs.View.{view, members_view};
ghost use Rattle.cg_json.specs.Lines.{IsLineOf};
ghost use Rattle.cg_everybody.specs.Everybody.{everybody_of, members_of};
ghost use Rattle.cg_everybody.specs.Objects.{group_value, put_premises, found_answer, found_members, subtree_value, audited_value, explained_value, advised_value};

use crate::asked::{Asked, Members};
use advised::advised_members;
use audited::audited_values;
use cg_cgroup::memory::NoMemory;
use cg_cgroup::path::Path;
use cg_json::line::line_of;
use cg_json::members::{numbers_value, put_number, put_text, text_alone};
use cg_model::hierarchy::Hierarchy;
use explained::explained_values;
use serde_json::{Map, Value, put};
use std::alloc::{AllocError, Global};

mod advised;
mod audited;
mod explained;

/// What `everybody_lines` says as JSON, on a line, with what it stands on: an object for each subtree that somebody who is asked about
/// may break, and in it one for each entry that lets somebody in and one where the subtree is over its limits. `found` says whether there
/// are such lines. What is written reads as that object.
///
/// # Errors
/// `NoMemory` where an allocation was refused.
pub fn audited_json<H: Hierarchy>(
    alloc: Global,
    tree: &H,
    asked: &Asked<'_>,
    subtrees: &[Path],
    found: bool,
) -> Result<Vec<u8>, NoMemory>
    requires { All (IsSubtree (H.state tree.now)) subtrees.now }
    ensures { IfOk result (λ text.
        IsLineOf (audited_value (H.state tree.now) (everybody_of asked.now) subtrees.now found) text.items) }
{
    let values = audited_values(alloc, tree, asked, subtrees)?;
    let members = found_members(alloc, asked, found, values)?;
    line_of(alloc, members)
}

/// What `everybody_explained` says as JSON, on a line, with what it stands on: an object for each subtree, and in it one for each line.
/// `found` says whether `everybody_lines` has lines of them. What is written reads as that object.
///
/// # Errors
/// `NoMemory` where an allocation was refused.
pub fn explained_json<H: Hierarchy>(
    alloc: Global,
    tree: &H,
    asked: &Asked<'_>,
    subtrees: &[Path],
    found: bool,
) -> Result<Vec<u8>, NoMemory>
    requires { All (IsSubtree (H.state tree.now)) subtrees.now }
    ensures { IfOk result (λ text.
        IsLineOf (explained_value (H.state tree.now) (everybody_of asked.now) subtrees.now found) text.items) }
{
    let values = explained_values(alloc, tree, asked, subtrees)?;
    let members = found_members(alloc, asked, found, values)?;
    line_of(alloc, members)
}

/// What `everybody_advice` says as JSON, on a line, with what it stands on: an object for each entry that lets somebody in and for each
/// subtree that is over its limits, and what mends it. `found` says whether `everybody_lines` has lines of them; where it has none nothing
/// is to be changed. What is written reads as that object.
///
/// # Errors
/// `NoMemory` where an allocation was refused.
pub fn advised_json<H: Hierarchy>(
    alloc: Global,
    tree: &H,
    asked: &Asked<'_>,
    subtrees: &[Path],
    found: bool,
) -> Result<Vec<u8>, NoMemory>
    requires { All (IsSubtree (H.state tree.now)) subtrees.now }
    ensures { IfOk result (λ text.
        IsLineOf (advised_value (H.state tree.now) (everybody_of asked.now) subtrees.now found) text.items) }
{
    let members = advised_members(alloc, tree, asked, subtrees, found)?;
    line_of(alloc, members)
}

/// The answer, a list of subtrees, and what they stand on.
fn found_members(
    alloc: Global,
    asked: &Asked<'_>,
    found: bool,
    subtrees: Vec<Value>,
) -> Result<Map<String, Value>, AllocError>
    ensures { IfOk result (λ members. members_view members.entries
        ≡ found_members (everybody_of asked.now) found (map view subtrees.items)) }
{
    let mut members = found_answer(alloc, found)?;
    put(&mut members, alloc, "subtrees", Value::from(subtrees))?;
    put_premises(&mut members, alloc, asked)?;
    Ok(members)
}

/// Whether there is somebody who may break a subtree.
fn found_answer(alloc: Global, found: bool) -> Result<Map<String, Value>, AllocError>
    ensures { IfOk result (λ members. members_view members.entries ≡ found_answer found) }
{
    if found {
        text_alone(alloc, "answer", "fails")
    } else {
        text_alone(alloc, "answer", "contained")
    }
}

/// What an answer stands on: who is left out, and who may be in groups.
fn put_premises(
    members: &mut Map<String, Value>,
    alloc: Global,
    asked: &Asked<'_>,
) -> Result<(), AllocError>
    ensures { OnOk result (members_view members.new.entries ≡ put_premises (everybody_of asked.now) (members_view members.old.entries)) }
{
    let but = numbers_value(alloc, asked.but)?;
    put(members, alloc, "but", but)?;
    let groups = group_values(alloc, asked.groups)?;
    put(members, alloc, "groups", Value::from(groups))?;
    Ok(())
}

fn group_values(alloc: Global, groups: &[Members<'_>]) -> Result<Vec<Value>, AllocError>
    ensures { IfOk result (λ values. map view values.items ≡ map (λ group. group_value (members_of group)) groups.now) }
{
    let mut list = Vec::new(alloc);
    for group in groups {
        let value = group_value(alloc, group)?;
        list.push(value)?;
    }
    Ok(list)
}

/// A group by its gid, and who may be in it.
fn group_value(alloc: Global, group: &Members<'_>) -> Result<Value, AllocError>
    ensures { IfOk result (λ value. view value ≡ group_value (members_of group.now)) }
{
    let uids = numbers_value(alloc, group.uids)?;
    let mut members = Map::new(alloc);
    put_number(&mut members, alloc, "gid", u64::from(group.gid))?;
    put(&mut members, alloc, "uids", uids)?;
    Ok(Value::from(members))
}

/// A subtree, and a list of what is said of it.
fn subtree_value(
    alloc: Global,
    name: &str,
    subtree: &Path,
    values: Vec<Value>,
) -> Result<Value, AllocError>
    ensures { IfOk result (λ value. view value ≡ subtree_value name.now subtree.now (map view values.items)) }
{
    let mut members = Map::new(alloc);
    put_text(
        &mut members,
        alloc,
        "subtree",
        subtree.prefix(subtree.depth()),
    )?;
    put(&mut members, alloc, name, Value::from(values))?;
    Ok(Value::from(members))
}
