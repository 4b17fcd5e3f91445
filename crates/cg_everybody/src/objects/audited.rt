//! The objects of subtrees that somebody may break.
ghost use Rattle.std.specs.Prelude.{◌≡◌, ◌++◌, map, IfOk, OnOk};
ghost use Rattle.std.specs.List.{All, flat_map};
ghost use Rattle.cg_advice.specs.AdviceLines.{IsShown};
ghost use Rattle.cg_model.specs.Guards.{IsSubtree};
ghost use Rattle.serde_json.specs.View.{view};
ghost use Rattle.cg_everybody.specs.Entrances.{entrance_spot, IsWalked};
ghost use Rattle.cg_everybody.specs.Everybody.{everybody_of};
ghost use Rattle.cg_everybody.specs.Objects.{entrance_value, excess_values, found_values, headed_values, subtree_audited};

use crate::advice::ways_into;
use crate::asked::Asked;
use crate::entrance::Entrance;
use crate::objects::subtree_value;
use crate::walk::Walk;
use cg_cgroup::memory::NoMemory;
use cg_cgroup::path::Path;
use cg_guards::failed::is_over;
use cg_json::entry::{at_guard, classes_value, entry_members};
use cg_model::guard::{Guard, GuardedEntry};
use cg_model::hierarchy::Hierarchy;
use serde_json::{Value, put};
use std::alloc::{AllocError, Global};

/// Of each subtree that somebody who is asked about may break an object.
pub fn audited_values<H: Hierarchy>(
    alloc: Global,
    tree: &H,
    asked: &Asked<'_>,
    subtrees: &[Path],
) -> Result<Vec<Value>, NoMemory>
    requires { All (IsSubtree (H.state tree.now)) subtrees.now }
    ensures { IfOk result (λ list.
        map view list.items ≡ flat_map (subtree_audited (H.state tree.now) (everybody_of asked.now)) subtrees.now) }
{
    let mut walk = Walk::new(alloc);
    let mut list = Vec::new(alloc);
    for subtree in subtrees {
        let found = found_values(alloc, tree, asked, &mut walk, subtree)?;
        push_headed(&mut list, alloc, subtree, found)?;
    }
    Ok(list)
}

/// The object of a subtree behind others, where something is found.
fn push_headed(
    list: &mut Vec<Value>,
    alloc: Global,
    subtree: &Path,
    found: Vec<Value>,
) -> Result<(), AllocError>
    ensures { OnOk result (map view list.new.items ≡ map view list.old.items ++ headed_values subtree.now (map view found.items)) }
{
    if found.is_empty() {
        return Ok(());
    }
    let value = subtree_value(alloc, "fails", subtree, found)?;
    list.push(value)?;
    Ok(())
}

/// What lets somebody break a subtree, which is the next of a walk, in the order of the guards.
fn found_values<'a, H: Hierarchy>(
    alloc: Global,
    tree: &H,
    asked: &Asked<'_>,
    walk: &mut Walk<'a>,
    subtree: &'a Path,
) -> Result<Vec<Value>, NoMemory>
    requires subtree { IsSubtree (H.state tree.now) subtree.now }
    requires walked { IsWalked (H.state tree.now) (everybody_of asked.now) walk.old }
    ensures values { IfOk result (λ list. map view list.items ≡ found_values (H.state tree.now) (everybody_of asked.now) subtree.now) }
    ensures walked { OnOk result (IsWalked (H.state tree.now) (everybody_of asked.now) walk.new) }
{
    let mut found = Vec::new(alloc);
    walk.next(&mut found, tree, asked, subtree)?;
    let mut list = entrance_values(alloc, asked, found.as_slice())?;
    push_excess(&mut list, alloc, tree, subtree)?;
    Ok(list)
}

/// The objects of entries that let somebody in.
fn entrance_values(
    alloc: Global,
    asked: &Asked<'_>,
    found: &[Entrance<'_>],
) -> Result<Vec<Value>, AllocError>
    ensures { IfOk result (λ list.
        map view list.items ≡ map (λ each. entrance_value (everybody_of asked.now) (entrance_spot each)) found.now) }
{
    let mut list = Vec::new(alloc);
    for each in found {
        let value = entrance_value(alloc, asked, each.subtree, &each.at)?;
        list.push(value)?;
    }
    Ok(list)
}

/// The object of an entry: the classes that it lets in.
fn entrance_value(
    alloc: Global,
    asked: &Asked<'_>,
    subtree: &Path,
    at: &GuardedEntry,
) -> Result<Value, AllocError>
    requires { IsShown subtree.now at.now }
    ensures { IfOk result (λ value. view value ≡ entrance_value (everybody_of asked.now) (subtree.now, at.now)) }
{
    let classes = classes_value(alloc, ways_into(asked, &at.entry))?;
    let mut members = entry_members(alloc, subtree, at)?;
    put(&mut members, alloc, "classes", classes)?;
    Ok(Value::from(members))
}

/// That a subtree is over its limits, behind others.
fn push_excess<H: Hierarchy>(
    list: &mut Vec<Value>,
    alloc: Global,
    tree: &H,
    subtree: &Path,
) -> Result<(), AllocError>
    requires { IsSubtree (H.state tree.now) subtree.now }
    ensures { OnOk result (map view list.new.items ≡ map view list.old.items ++ excess_values (H.state tree.now) subtree.now) }
{
    if is_over(tree, subtree) {
        let place = subtree.prefix(subtree.depth());
        let members = at_guard(alloc, Guard::AlreadyOver.name(), place)?;
        list.push(Value::from(members))?;
    }
    Ok(())
}
