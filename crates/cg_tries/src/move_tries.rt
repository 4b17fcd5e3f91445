//! Tries of one move: over the edge of a subtree.
ghost use Rattle.std.specs.Prelude.{◌≡◌, ◌<◌, ℕ, [], ◌∷◌, true, false, find, length, take, option_copied, IfOk};
ghost use Rattle.cg_cgroup.specs.Paths.{inside};
ghost use Rattle.cg_model.specs.States.{pids_of};
ghost use Rattle.cg_model.specs.Receiving.{receivers};
ghost use Rattle.cg_ops.specs.Moves.{passes_at};
ghost use Rattle.cg_tries.specs.Finding.{leads_out, goes_from, first_given, move_of, first_move};

use crate::asker::Asker;
use cg_cgroup::memory::NoMemory;
use cg_cgroup::path::Path;
use cg_cgroup::process::Pid;
use cg_model::hierarchy::Hierarchy;
use cg_model::operation::Op;
use cg_model::operations::Operations;
use cg_ops::moves::{passes, passes_at};
use std::alloc::Global;

/// Whether the user writes the `cgroup.procs` of a proper ancestor: no move goes over the edge where they write none.
pub fn passes_above<H: Hierarchy>(asker: &Asker<H>) -> bool
    ensures none { result ≡ false
        → (len : ℕ) → len < length asker.now.subtree.now
        → passes_at (H.state asker.now.tree.now) asker.now.user.now (take len asker.now.subtree.now) ≡ false }
    ensures some { result ≡ true
        → (len : ℕ) × (len < length asker.now.subtree.now)
        × (passes_at (H.state asker.now.tree.now) asker.now.user.now (take len asker.now.subtree.now) ≡ true) }
{
    for len in 0..asker.subtree.depth() {
        if passes_at(asker.tree, asker.user, asker.subtree, len) {
            return true;
        }
    }
    false
}

/// Whether a cgroup is outside, and a process from inside passes to it.
fn leads_out<H: Hierarchy>(asker: &Asker<H>, path: &Path) -> bool
    ensures { result ≡ leads_out (H.state asker.now.tree.now) asker.now.user.now asker.now.subtree.now path.now }
{
    !asker.subtree.is_prefix_of(path) && passes(asker.tree, asker.user, asker.subtree, path)
}

/// The first cgroup outside, of those to which processes may come, to which one from inside passes.
fn first_to_leave_to<'a, H: Hierarchy>(asker: &Asker<H>, places: &'a [Path]) -> Option<&'a Path>
    ensures { option_copied result
        ≡ find (leads_out (H.state asker.now.tree.now) asker.now.user.now asker.now.subtree.now) places.entry.now }
{
    places.iter().find(|path| leads_out(asker, *path))
}

/// The first cgroup inside, of those to which processes may come.
fn first_to_enter_at<'a>(subtree: &Path, places: &'a [Path]) -> Option<&'a Path>
    ensures { option_copied result ≡ find (inside subtree.now) places.entry.now }
{
    places.iter().find(|path| subtree.is_prefix_of(*path))
}

/// Where a process at a place goes over the edge, if these are the first cgroups outside and inside for it.
fn goes_from<'a, H: Hierarchy>(
    asker: &Asker<H>,
    out: Option<&'a Path>,
    into: Option<&'a Path>,
    place: &Path,
) -> Option<&'a Path>
    ensures { option_copied result
        ≡ goes_from (H.state asker.now.tree.now) asker.now.user.now asker.now.subtree.now
        (option_copied out.entry) (option_copied into.entry) place.now }
{
    if asker.subtree.is_prefix_of(place) {
        return out;
    }
    if into.is_none() || !passes(asker.tree, asker.user, place, asker.subtree) {
        return None;
    }
    into
}

/// The move of a process alone.
fn only_move(alloc: Global, pid: Pid, path: &Path) -> Result<Operations, NoMemory>
    ensures { IfOk result (λ operations. operations ≡ Op.Move pid path.now ∷ []) }
{
    let to = path.try_clone(alloc)?;
    Operations::only(alloc, Op::Move { pid, to })
}

/// The first move of one of these processes over the edge, if these are the first cgroups outside and inside.
fn first_moved<H: Hierarchy>(
    asker: &Asker<H>,
    out: Option<&Path>,
    into: Option<&Path>,
    pids: &[Pid],
) -> Result<Option<Operations>, NoMemory>
    ensures { IfOk result (λ found. found
        ≡ first_given (move_of (H.state asker.now.tree.now) asker.now.user.now asker.now.subtree.now
        (option_copied out.entry) (option_copied into.entry)) pids.now) }
{
    for pid in pids {
        if let Some(place) = asker.tree.place(*pid) {
            if let Some(path) = goes_from(asker, out, into, place) {
                return Ok(Some(only_move(asker.alloc, *pid, path)?));
            }
        }
    }
    Ok(None)
}

/// The first move over the edge that is allowed.
pub fn first_move<H: Hierarchy>(
    asker: &Asker<H>,
    places: &[Path],
    pids: &[Pid],
) -> Result<Option<Operations>, NoMemory>
    requires places { places.now ≡ receivers (H.state asker.now.tree.now) asker.now.user.now }
    requires pids { pids.now ≡ pids_of (H.state asker.now.tree.now) }
    ensures { IfOk result (λ found. found ≡ first_move (H.state asker.now.tree.now) asker.now.user.now asker.now.subtree.now) }
{
    let out = first_to_leave_to(asker, places);
    let into = first_to_enter_at(asker.subtree, places);
    first_moved(asker, out, into, pids)
}
