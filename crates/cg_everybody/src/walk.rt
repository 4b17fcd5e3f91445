//! Subtrees one after another, and which entries let somebody in on which their guards stand.
ghost use Rattle.std.specs.Prelude.{◌≡◌, ◌≤◌, ◌<◌, ◌++◌, ◌∷◌, [], None, false, cond, length, map, drop, nat_lt, OnOk};
ghost use Rattle.std.specs.List.{flat_map, filter};
ghost use Rattle.cg_cgroup.specs.Paths.{is_root};
ghost use Rattle.cg_model.specs.Guards.{ancestor, ancestors, guarded_entries};
ghost use Rattle.cg_model.specs.States.{State};
ghost use Rattle.cg_guards.specs.Standing.{IsTop};
ghost use Rattle.cg_advice.specs.AdviceLines.{IsShown};
ghost use Rattle.machine_everybody.specs.Everybody.{Everybody, lets_anybody_in};
ghost use Rattle.cg_everybody.specs.Everybody.{everybody_of, entrance_of, entrances};
ghost use Rattle.cg_everybody.specs.Entrances.{entrance_at, entrance_spot, is_door, doors, IsWalked};

use crate::asked::Asked;
use crate::entrance::Entrance;
use cg_cgroup::files::EntryName;
use cg_cgroup::memory::NoMemory;
use cg_cgroup::path::Path;
use cg_guards::table::{Top, guarded_count, guarded_entry};
use cg_model::files::entry_at;
use cg_model::guard::GuardedEntry;
use cg_model::hierarchy::Hierarchy;
use std::alloc::Global;

/// What is kept of the last subtree: above it, by their depths, the cgroups whose `cgroup.procs` lets somebody in, the root first. Of the
/// next subtree only those are looked up that it has below the names that both have.
#[derive(Drop)]
pub struct Walk<'a> {
    pub last: Option<&'a Path>,
    pub doors: Vec<usize>,
}

impl<'a> Walk<'a> {
    /// One that begins.
    pub fn new(alloc: Global) -> Walk<'a>
        ensures last { result.last ≡ None }
        ensures doors { result.doors.items ≡ [] }
    {
        Walk {
            last: None,
            doors: Vec::new(alloc),
        }
    }

    /// Goes on to a subtree, and puts its entries that let somebody in behind those that were found.
    pub fn next<H: Hierarchy>(
        &mut self,
        found: &mut Vec<Entrance<'a>>,
        tree: &H,
        asked: &Asked<'_>,
        subtree: &'a Path,
    ) -> Result<(), NoMemory>
        requires walked { IsWalked (H.state tree.now) (everybody_of asked.now) self.old }
        requires not_root { is_root subtree.now ≡ false }
        ensures walked { OnOk result (IsWalked (H.state tree.now) (everybody_of asked.now) self.new) }
        ensures found { OnOk result (map entrance_spot found.new.items
            ≡ map entrance_spot found.old.items ++ entrances (H.state tree.now) (everybody_of asked.now) subtree.now) }
    {
        self.go_to(tree, asked, subtree)?;
        let top = Top::of(tree, subtree);
        enter_doors(found, tree, asked, subtree, top, self.doors.as_slice())?;
        enter_others(found, tree, asked, subtree, top)?;
        Ok(())
    }

    /// Goes on to a subtree.
    fn go_to<H: Hierarchy>(
        &mut self,
        tree: &H,
        asked: &Asked<'_>,
        subtree: &'a Path,
    ) -> Result<(), NoMemory>
        requires { IsWalked (H.state tree.now) (everybody_of asked.now) self.old }
        ensures walked { OnOk result (IsWalked (H.state tree.now) (everybody_of asked.now) self.new) }
        ensures doors { OnOk result (self.new.doors.items ≡ doors (H.state tree.now) (everybody_of asked.now) subtree.now (length subtree.now)) }
    {
        let shared = self.shared_with(subtree);
        keep_above(&mut self.doors, shared);
        push_doors(&mut self.doors, tree, asked, subtree, shared)?;
        self.last = Some(subtree);
        Ok(())
    }

    /// How many first names a subtree shares with the last one: the doors above these are those that are kept.
    fn shared_with(&self, subtree: &Path) -> usize
        ensures within { result ≤ length subtree.now }
        ensures doors { (st : State) (asked : Everybody) → IsWalked st asked self.now
            → filter (λ len. nat_lt len result) self.now.doors.items ≡ doors st asked subtree.now result }
    {
        match self.last {
            None => 0,
            Some(last) => last.common_len(subtree),
        }
    }
}

/// Those of some depths that are less than one.
fn keep_above(found: &mut Vec<usize>, bound: usize)
    ensures { found.new.items ≡ filter (λ len. nat_lt len bound) found.old.items }
{
    found.retain(|len| *len < bound);
}

/// The doors above a subtree behind those of its first names.
fn push_doors<H: Hierarchy>(
    found: &mut Vec<usize>,
    tree: &H,
    asked: &Asked<'_>,
    subtree: &Path,
    from: usize,
) -> Result<(), NoMemory>
    requires within { from ≤ length subtree.now }
    requires found { found.old.items ≡ doors (H.state tree.now) (everybody_of asked.now) subtree.now from }
    ensures { OnOk result (found.new.items ≡ doors (H.state tree.now) (everybody_of asked.now) subtree.now (length subtree.now)) }
{
    for len in from..subtree.depth() {
        push_door(found, tree, asked, subtree, len)?;
    }
    Ok(())
}

/// A depth behind others, where the cgroup there is a door.
fn push_door<H: Hierarchy>(
    found: &mut Vec<usize>,
    tree: &H,
    asked: &Asked<'_>,
    subtree: &Path,
    len: usize,
) -> Result<(), NoMemory>
    requires { len ≤ length subtree.now }
    ensures { OnOk result (found.new.items ≡ found.old.items
        ++ cond (is_door (H.state tree.now) (everybody_of asked.now) subtree.now len) (len ∷ []) []) }
{
    if is_door(tree, asked, subtree, len) {
        found.push(len)?;
    }
    Ok(())
}

/// Whether the `cgroup.procs` of the first `len` names lets somebody in.
fn is_door<H: Hierarchy>(tree: &H, asked: &Asked<'_>, path: &Path, len: usize) -> bool
    requires { len ≤ length path.now }
    ensures { result ≡ is_door (H.state tree.now) (everybody_of asked.now) path.now len }
{
    match entry_at(tree, path, len, EntryName::Procs) {
        Some(entry) => asked.lets_anybody_in(&entry),
        None => false,
    }
}

/// The entrances of the cgroups above a subtree, the nearest first, behind those that were found.
fn enter_doors<'a, H: Hierarchy>(
    found: &mut Vec<Entrance<'a>>,
    tree: &H,
    asked: &Asked<'_>,
    subtree: &'a Path,
    top: Top<'_>,
    above: &[usize],
) -> Result<(), NoMemory>
    requires not_root { is_root subtree.now ≡ false }
    requires top { IsTop (H.state tree.now) subtree.now top }
    requires above { above.now ≡ doors (H.state tree.now) (everybody_of asked.now) subtree.now (length subtree.now) }
    ensures { OnOk result (map entrance_spot found.new.items ≡ map entrance_spot found.old.items
        ++ flat_map (entrance_of (H.state tree.now) (everybody_of asked.now) subtree.now) (ancestors (length subtree.now))) }
{
    for turn in 0..above.len() {
        let at = above.len() - 1 - turn;
        enter_door(found, tree, asked, subtree, top, above[at])?;
    }
    Ok(())
}

/// The entrance of the cgroup of the first `len` names of a subtree, behind those that were found.
fn enter_door<'a, H: Hierarchy>(
    found: &mut Vec<Entrance<'a>>,
    tree: &H,
    asked: &Asked<'_>,
    subtree: &'a Path,
    top: Top<'_>,
    len: usize,
) -> Result<(), NoMemory>
    requires not_root { is_root subtree.now ≡ false }
    requires top { IsTop (H.state tree.now) subtree.now top }
    requires above { len < length subtree.now }
    ensures { OnOk result (map entrance_spot found.new.items ≡ map entrance_spot found.old.items
        ++ entrance_of (H.state tree.now) (everybody_of asked.now) subtree.now (ancestor len)) }
{
    let depth = subtree.depth();
    enter(found, tree, asked, subtree, top, depth - 1 - len)?;
    Ok(())
}

/// The entrances that are no `cgroup.procs` of a cgroup above a subtree, behind those that were found.
fn enter_others<'a, H: Hierarchy>(
    found: &mut Vec<Entrance<'a>>,
    tree: &H,
    asked: &Asked<'_>,
    subtree: &'a Path,
    top: Top<'_>,
) -> Result<(), NoMemory>
    requires not_root { is_root subtree.now ≡ false }
    requires top { IsTop (H.state tree.now) subtree.now top }
    ensures { OnOk result (map entrance_spot found.new.items ≡ map entrance_spot found.old.items
        ++ flat_map (entrance_of (H.state tree.now) (everybody_of asked.now) subtree.now) (drop (length subtree.now) (guarded_entries subtree.now))) }
{
    let depth = subtree.depth();
    for place in depth..guarded_count(subtree) {
        enter(found, tree, asked, subtree, top, place)?;
    }
    Ok(())
}

/// The entrance of a place in the order of the guards, where there is one, behind those that were found.
fn enter<'a, H: Hierarchy>(
    found: &mut Vec<Entrance<'a>>,
    tree: &H,
    asked: &Asked<'_>,
    subtree: &'a Path,
    top: Top<'_>,
    place: usize,
) -> Result<(), NoMemory>
    requires not_root { is_root subtree.now ≡ false }
    requires top { IsTop (H.state tree.now) subtree.now top }
    ensures { OnOk result (map entrance_spot found.new.items ≡ map entrance_spot found.old.items
        ++ entrance_at (H.state tree.now) (everybody_of asked.now) subtree.now place) }
{
    let Some(at) = guarded_entry(tree, subtree, top, place) else {
        return Ok(());
    };
    enter_one(found, asked, subtree, at)?;
    Ok(())
}

/// An entry behind those that were found, where it lets somebody in.
fn enter_one<'a>(
    found: &mut Vec<Entrance<'a>>,
    asked: &Asked<'_>,
    subtree: &'a Path,
    at: GuardedEntry,
) -> Result<(), NoMemory>
    requires { IsShown subtree.now at }
    ensures { OnOk result (map entrance_spot found.new.items ≡ map entrance_spot found.old.items
        ++ cond (lets_anybody_in (everybody_of asked.now) at.entry) ((subtree.now, at) ∷ []) []) }
{
    if !asked.lets_anybody_in(&at.entry) {
        return Ok(());
    }
    found.push(Entrance { subtree, at })?;
    Ok(())
}
