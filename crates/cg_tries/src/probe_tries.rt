//! Tries of a new cgroup above a subtree, to which a process from inside moves.
ghost use Rattle.std.specs.Prelude.{◌≡◌, ◌≤◌, ◌<◌, ◌+◌, ℕ, find, length, take, nat_lt, IfOk};
ghost use Rattle.cg_cgroup.specs.Paths.{IsPath};
ghost use Rattle.cg_model.specs.States.{paths_of, pids_of};
ghost use Rattle.cg_model.specs.WellFormed.{has_row};
ghost use Rattle.cg_model.specs.Tries.{is_inside};
ghost use Rattle.cg_tries.specs.Finding.{lets_in, lowered, writes_both, short_probe, free_path, first_probe_path, first_inside, first_probe};

use crate::asker::Asker;
use cg_cgroup::files::Limit;
use cg_cgroup::memory::NoMemory;
use cg_cgroup::path::{Path, PathFault};
use cg_cgroup::process::Pid;
use cg_model::hierarchy::Hierarchy;
use cg_model::limits::is_under;
use cg_model::operation::Op;
use cg_model::operations::Operations;
use std::alloc::Global;

/// The first of these processes that is inside the subtree.
fn first_inside<H: Hierarchy>(asker: &Asker<H>, pids: &[Pid]) -> Option<Pid>
    ensures { result ≡ find (is_inside (H.state asker.now.tree.now) asker.now.subtree.now) pids.now }
{
    for pid in pids {
        if let Some(place) = asker.tree.place(*pid) {
            if asker.subtree.is_prefix_of(place) {
                return Some(*pid);
            }
        }
    }
    None
}

/// The lesser of a level and the one at which the depth limit of the cgroup of `at` names is reached.
fn lowered(level: usize, at: usize, limit: Limit) -> usize
    requires { at < level }
    ensures { result ≡ lowered level at limit }
{
    match limit {
        Limit::At(most) if most < (level - at) as u64 => at + most as usize,
        _ => level,
    }
}

/// How many of the subtree's proper ancestors, from the root down, let in a new child as far as limits go.
fn open_levels<H: Hierarchy>(asker: &Asker<H>) -> usize
    ensures within { result ≤ length asker.now.subtree.now }
    ensures path { IsPath asker.now.subtree.now }
    ensures open { (len : ℕ) → len < length asker.now.subtree.now
        → lets_in (H.state asker.now.tree.now) asker.now.subtree.now len ≡ nat_lt len result }
{
    let mut level = asker.subtree.depth();
    for at in 0..asker.subtree.depth() {
        if level <= at {
            return level;
        }
        let Some(cgroup) = asker.tree.get(asker.subtree, at) else {
            continue;
        };
        if !is_under(
            asker.tree.count_below(asker.subtree, at),
            cgroup.max_descendants.value,
        ) {
            return at;
        }
        level = lowered(level, at, cgroup.max_depth.value);
    }
    level
}

/// Whether the user writes the directory and the `cgroup.procs` of the ancestor of `len` names.
fn writes_both<H: Hierarchy>(asker: &Asker<H>, len: usize) -> bool
    requires { len ≤ length asker.now.subtree.now }
    ensures { result ≡ writes_both (H.state asker.now.tree.now) asker.now.user.now (take len asker.now.subtree.now) }
{
    match asker.tree.get(asker.subtree, len) {
        Some(cgroup) => asker.user.may_write(&cgroup.dir) && asker.user.may_write(&cgroup.procs),
        None => false,
    }
}

/// The path of the probe of a number at the ancestor of `len` names; none where it would be too long.
fn probe(alloc: Global, subtree: &Path, len: usize, number: usize) -> Result<Option<Path>, NoMemory>
    requires within { len ≤ length subtree.now }
    requires path { IsPath subtree.now }
    ensures { IfOk result (λ found. found ≡ short_probe (take len subtree.now) number) }
{
    let name = format!(in alloc; "probe{number}")?;
    match subtree.with_child(alloc, len, &name) {
        Ok(path) => Ok(Some(path)),
        Err(PathFault::BadPath) => Ok(None),
        Err(PathFault::NoMemory) => Err(NoMemory),
    }
}

/// Whether there is a cgroup of a path.
#[tactic(auto, using(cg_model::proofs::Prefixes::take_whole))]
fn is_there<H: Hierarchy>(tree: &H, path: &Path) -> bool
    ensures { result ≡ has_row (H.state tree.now) path.now }
{
    tree.get(path, path.depth()).is_some()
}

/// The path of the first probe that isn't there, of numbers below `count`, at the ancestor of `len` names; none where it
/// would be too long.
fn free_path<H: Hierarchy>(
    asker: &Asker<H>,
    len: usize,
    count: usize,
) -> Result<Option<Path>, NoMemory>
    requires within { len ≤ length asker.now.subtree.now }
    requires path { IsPath asker.now.subtree.now }
    requires count { count ≡ length (paths_of (H.state asker.now.tree.now)) + 1 }
    ensures { IfOk result (λ found. found ≡ free_path (H.state asker.now.tree.now) (take len asker.now.subtree.now)) }
{
    for number in 0..count {
        let Some(path) = probe(asker.alloc, asker.subtree, len, number)? else {
            return Ok(None);
        };
        if !is_there(asker.tree, &path) {
            return Ok(Some(path));
        }
    }
    Ok(None)
}

/// The same, of one number more than there are cgroups.
fn free_path_of_all<H: Hierarchy>(asker: &Asker<H>, len: usize) -> Result<Option<Path>, NoMemory>
    requires within { len ≤ length asker.now.subtree.now }
    requires path { IsPath asker.now.subtree.now }
    ensures { IfOk result (λ found. found ≡ free_path (H.state asker.now.tree.now) (take len asker.now.subtree.now)) }
{
    let count = asker.tree.paths(asker.alloc)?.len() + 1;
    free_path(asker, len, count)
}

/// The path of the first probe that breaks, where a process is inside: at the nearest ancestor first.
fn first_probe_path<H: Hierarchy>(asker: &Asker<H>) -> Result<Option<Path>, NoMemory>
    ensures { IfOk result (λ found. found
        ≡ first_probe_path (H.state asker.now.tree.now) asker.now.user.now asker.now.subtree.now (length asker.now.subtree.now)) }
{
    for len in (0..open_levels(asker)).rev() {
        if writes_both(asker, len) {
            if let Some(path) = free_path_of_all(asker, len)? {
                return Ok(Some(path));
            }
        }
    }
    Ok(None)
}

/// The first probe that breaks: a new cgroup above the subtree, and the first process from inside moved there.
pub fn first_probe<H: Hierarchy>(
    asker: &Asker<H>,
    pids: &[Pid],
) -> Result<Option<Operations>, NoMemory>
    requires pids { pids.now ≡ pids_of (H.state asker.now.tree.now) }
    ensures { IfOk result (λ found. found ≡ first_probe (H.state asker.now.tree.now) asker.now.user.now asker.now.subtree.now) }
{
    let Some(pid) = first_inside(asker, pids) else {
        return Ok(None);
    };
    let Some(to) = first_probe_path(asker)? else {
        return Ok(None);
    };
    let path = to.try_clone(asker.alloc)?;
    let mut operations = Operations::only(asker.alloc, Op::Mkdir { path })?;
    operations.push(Op::Move { pid, to })?;
    Ok(Some(operations))
}
