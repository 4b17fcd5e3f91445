//! The object of what to change so that nobody is let in.
ghost use Rattle.std.specs.Prelude.{◌≡◌, map, IfOk};
ghost use Rattle.std.specs.List.{All, flat_map};
ghost use Rattle.cg_advice.specs.Found.{over_raised, raised_of};
ghost use Rattle.cg_cgroup.specs.Paths.{same_path};
ghost use Rattle.cg_model.specs.Guards.{IsSubtree};
ghost use Rattle.cg_model.specs.Once.{once};
ghost use Rattle.serde_json.specs.View.{members_view};
ghost use Rattle.cg_everybody.specs.Everybody.{everybody_of};
ghost use Rattle.cg_everybody.specs.Objects.{changes_members, or_contained, advised_members};

use crate::advice::{all_entrances, stands_of};
use crate::asked::Asked;
use crate::objects::put_premises;
use cg_advice::found::{over_of, push_over};
use cg_advice::pair::Over;
use cg_cgroup::memory::NoMemory;
use cg_cgroup::path::Path;
use cg_json::advice::failing_members;
use cg_json::members::text_alone;
use cg_model::hierarchy::Hierarchy;
use serde_json::{Map, Value};
use std::alloc::Global;
use std::collections::BTreeSet;

/// What to change, and what that stands on.
pub fn advised_members<H: Hierarchy>(
    alloc: Global,
    tree: &H,
    asked: &Asked<'_>,
    subtrees: &[Path],
    found: bool,
) -> Result<Map<String, Value>, NoMemory>
    requires { All (IsSubtree (H.state tree.now)) subtrees.now }
    ensures { IfOk result (λ members. members_view members.entries
        ≡ advised_members (H.state tree.now) (everybody_of asked.now) subtrees.now found) }
{
    let mut members = or_contained(alloc, tree, asked, subtrees, found)?;
    put_premises(&mut members, alloc, asked)?;
    Ok(members)
}

/// What to change, where there is somebody who may break a subtree.
fn or_contained<H: Hierarchy>(
    alloc: Global,
    tree: &H,
    asked: &Asked<'_>,
    subtrees: &[Path],
    found: bool,
) -> Result<Map<String, Value>, NoMemory>
    requires { All (IsSubtree (H.state tree.now)) subtrees.now }
    ensures { IfOk result (λ members. members_view members.entries
        ≡ or_contained found (changes_members (H.state tree.now) (everybody_of asked.now) subtrees.now)) }
{
    if found {
        changes_members(alloc, tree, asked, subtrees)
    } else {
        Ok(text_alone(alloc, "answer", "contained")?)
    }
}

/// Each entry that lets somebody in, where the subtrees meet it first, and each subtree that is over its limits.
fn changes_members<H: Hierarchy>(
    alloc: Global,
    tree: &H,
    asked: &Asked<'_>,
    subtrees: &[Path],
) -> Result<Map<String, Value>, NoMemory>
    requires { All (IsSubtree (H.state tree.now)) subtrees.now }
    ensures { IfOk result (λ members. members_view members.entries
        ≡ changes_members (H.state tree.now) (everybody_of asked.now) subtrees.now) }
{
    let found = all_entrances(alloc, tree, asked, subtrees)?;
    let stands = stands_of(alloc, asked, found.as_slice())?;
    let overs = overs_of(alloc, tree, subtrees)?;
    let members = failing_members(alloc, stands.as_slice(), overs.as_slice())?;
    Ok(members)
}

/// Each subtree that is over its limits, once.
fn overs_of<'a, H: Hierarchy>(
    alloc: Global,
    tree: &H,
    subtrees: &'a [Path],
) -> Result<Vec<Over<'a>>, NoMemory>
    requires { All (IsSubtree (H.state tree.now)) subtrees.now }
    ensures { IfOk result (λ overs. map over_raised overs.items ≡ flat_map (raised_of (H.state tree.now)) (once same_path subtrees.now)) }
{
    let mut overs = Vec::new(alloc);
    let mut seen = BTreeSet::new(alloc);
    for subtree in subtrees {
        let is_new = seen.insert(subtree)?;
        if is_new {
            push_over(&mut overs, over_of(tree, subtree))?;
        }
    }
    Ok(overs)
}
