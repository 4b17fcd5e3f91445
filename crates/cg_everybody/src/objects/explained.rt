//! The objects of whom each guarded entry of subtrees lets in, and of what their limits count.
ghost use Rattle.std.specs.Prelude.{◌≡◌, ◌++◌, ◌∷◌, [], cond, false, map, IfOk, OnOk};
ghost use Rattle.std.specs.List.{All, flat_map};
ghost use Rattle.cg_advice.specs.AdviceLines.{IsShown};
ghost use Rattle.cg_cgroup.specs.Paths.{is_root};
ghost use Rattle.cg_model.specs.Guards.{guarded_entries, IsSubtree};
ghost use Rattle.serde_json.specs.View.{view};
ghost use Rattle.cg_everybody.specs.Everybody.{everybody_of, opens_to, classes_in};
ghost use Rattle.cg_everybody.specs.Objects.{by_class, entry_values, guarded_values, subtree_explained_value};

use crate::asked::Asked;
use crate::objects::subtree_value;
use cg_cgroup::memory::NoMemory;
use cg_cgroup::path::Path;
use cg_explain::first::{Told, is_told_of};
use cg_explain::objects::{push_limits, told_value};
use cg_guards::table::{Top, guarded_count, guarded_entry};
use cg_model::guard::GuardedEntry;
use cg_model::hierarchy::Hierarchy;
use cg_model::mend::Class;
use serde_json::Value;
use std::alloc::{AllocError, Global};

/// Of each subtree an object.
pub fn explained_values<H: Hierarchy>(
    alloc: Global,
    tree: &H,
    asked: &Asked<'_>,
    subtrees: &[Path],
) -> Result<Vec<Value>, NoMemory>
    requires { All (IsSubtree (H.state tree.now)) subtrees.now }
    ensures { IfOk result (λ list.
        map view list.items ≡ map (subtree_explained_value (H.state tree.now) (everybody_of asked.now)) subtrees.now) }
{
    let mut list = Vec::new(alloc);
    for subtree in subtrees {
        let value = explained_value(alloc, tree, asked, subtree)?;
        list.push(value)?;
    }
    Ok(list)
}

/// The object of a subtree: its guarded entries, and its two limits.
fn explained_value<H: Hierarchy>(
    alloc: Global,
    tree: &H,
    asked: &Asked<'_>,
    subtree: &Path,
) -> Result<Value, NoMemory>
    requires { IsSubtree (H.state tree.now) subtree.now }
    ensures { IfOk result (λ value. view value ≡ subtree_explained_value (H.state tree.now) (everybody_of asked.now) subtree.now) }
{
    let mut list = Vec::new(alloc);
    push_guarded(&mut list, alloc, tree, asked, subtree)?;
    push_limits(&mut list, alloc, tree, subtree)?;
    let value = subtree_value(alloc, "guards", subtree, list)?;
    Ok(value)
}

/// The objects of the guarded entries of a subtree behind others.
fn push_guarded<H: Hierarchy>(
    list: &mut Vec<Value>,
    alloc: Global,
    tree: &H,
    asked: &Asked<'_>,
    subtree: &Path,
) -> Result<(), NoMemory>
    requires { is_root subtree.now ≡ false }
    ensures { OnOk result (map view list.new.items ≡ map view list.old.items
        ++ flat_map (guarded_values (H.state tree.now) (everybody_of asked.now) subtree.now) (guarded_entries subtree.now)) }
{
    let top = Top::of(tree, subtree);
    for place in 0..guarded_count(subtree) {
        let Some(at) = guarded_entry(tree, subtree, top, place) else {
            continue;
        };
        push_explained(list, alloc, tree, asked, subtree, &at)?;
    }
    Ok(())
}

/// The objects of an entry behind others.
fn push_explained<H: Hierarchy>(
    list: &mut Vec<Value>,
    alloc: Global,
    tree: &H,
    asked: &Asked<'_>,
    subtree: &Path,
    at: &GuardedEntry,
) -> Result<(), NoMemory>
    requires { IsShown subtree.now at.now }
    ensures { OnOk result (map view list.new.items
        ≡ map view list.old.items ++ entry_values (H.state tree.now) (everybody_of asked.now) subtree.now at.now) }
{
    if asked.lets_anybody_in(&at.entry) {
        push_entry(list, alloc, asked, subtree, at)?;
    } else if is_told_of(tree, subtree, at.name) {
        let value = told_value(alloc, subtree, &Told { at: *at, by: None })?;
        list.push(value)?;
    }
    Ok(())
}

/// An object for each class that an entry lets in, behind others.
fn push_entry(
    list: &mut Vec<Value>,
    alloc: Global,
    asked: &Asked<'_>,
    subtree: &Path,
    at: &GuardedEntry,
) -> Result<(), AllocError>
    requires { IsShown subtree.now at.now }
    ensures { OnOk result (map view list.new.items
        ≡ map view list.old.items ++ map (by_class subtree.now at.now) (classes_in (everybody_of asked.now) at.now.entry)) }
{
    push_class(list, alloc, asked, subtree, at, Class::Owner)?;
    push_class(list, alloc, asked, subtree, at, Class::Group)?;
    push_class(list, alloc, asked, subtree, at, Class::Others)?;
    Ok(())
}

/// The object of a class, where an entry lets it in.
fn push_class(
    list: &mut Vec<Value>,
    alloc: Global,
    asked: &Asked<'_>,
    subtree: &Path,
    at: &GuardedEntry,
    class: Class,
) -> Result<(), AllocError>
    requires { IsShown subtree.now at.now }
    ensures { OnOk result (map view list.new.items ≡ map view list.old.items
        ++ cond (opens_to (everybody_of asked.now) at.now.entry class) (by_class subtree.now at.now class ∷ []) []) }
{
    if asked.opens_to(&at.entry, class) {
        let told = Told {
            at: *at,
            by: Some(class),
        };
        let value = told_value(alloc, subtree, &told)?;
        list.push(value)?;
    }
    Ok(())
}
