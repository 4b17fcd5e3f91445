//! Whether no move past a cgroup above the subtree leads anywhere.
ghost use Rattle.std.specs.Prelude.{◌≡◌, ◌<◌, ◌&&◌, length, slice_index_or, [], IfOk};
ghost use Rattle.cg_second.specs.Greatest.{greatest};
ghost use Rattle.cg_second.specs.Judged.{is_full_to, takes_none, grows_none, is_closed_to};
ghost use Rattle.cg_second.specs.Counts.{IsSurvey};
ghost use Rattle.cg_second.specs.Exposed.{is_passed_to, is_exposed};

use crate::reach::{is_enabled, is_reached};
use crate::room::Room;
use crate::survey::Survey;
use cg_cgroup::files::{Controller, EntryName};
use cg_cgroup::memory::NoMemory;
use cg_cgroup::path::Path;
use cg_model::hierarchy::Hierarchy;
use std::alloc::Global;

/// Whether wherever a move may lead to, over the edge of the subtree, nobody moves a process to, and nobody makes a cgroup.
pub fn is_closed<H: Hierarchy>(
    alloc: Global,
    survey: &Survey<H>,
    subtree: &Path,
) -> Result<bool, NoMemory>
    requires survey { IsSurvey (H.state survey.now.tree.now) survey.now.users.now survey.now.paths.items survey.now.ends.items survey.now.kept.items survey.now.fixed.items }
    ensures { IfOk result (λ is_closed. is_closed ≡ is_closed_to (H.state survey.now.tree.now) survey.now.users.now
        (greatest (H.state survey.now.tree.now) survey.now.users.now) subtree.now (length subtree.now)) }
{
    let is_passed = is_passed(survey, subtree);
    let mut room = Room::new(alloc)?;
    for at in 0..survey.paths.len() {
        let is_full = room.is_full_at(survey, at)?;
        if is_exposed(survey, subtree, is_passed, &survey.paths[at])
            && !is_shut(survey, at, is_full)
        {
            return Ok(false);
        }
    }
    Ok(true)
}

/// Whether a move may pass one of the cgroups above the subtree.
pub fn is_passed<H: Hierarchy>(survey: &Survey<H>, subtree: &Path) -> bool
    ensures { result ≡ is_passed_to (H.state survey.now.tree.now) survey.now.users.now subtree.now (length subtree.now) }
{
    for len in (0..subtree.depth()).rev() {
        if is_reached(survey.tree, survey.users, subtree, len, EntryName::Procs) {
            return true;
        }
    }
    false
}

/// Whether a move over the edge of the subtree may lead to or from a cgroup.
#[tactic(auto, using(cg_model::proofs::Prefixes::length_common))]
pub fn is_exposed<H: Hierarchy>(
    survey: &Survey<H>,
    subtree: &Path,
    is_passed: bool,
    path: &Path,
) -> bool
    requires { is_passed ≡ is_passed_to (H.state survey.now.tree.now) survey.now.users.now subtree.now (length subtree.now) }
    ensures { result ≡ is_exposed (H.state survey.now.tree.now) survey.now.users.now subtree.now path.now }
{
    if subtree.is_prefix_of(path) {
        return is_passed;
    }
    is_reached(
        survey.tree,
        survey.users,
        subtree,
        path.common_len(subtree),
        EntryName::Procs,
    )
}

/// Whether nobody moves a process to the cgroup at a place, and nobody makes one in it.
fn is_shut<H: Hierarchy>(survey: &Survey<H>, at: usize, is_full: bool) -> bool
    requires survey { IsSurvey (H.state survey.now.tree.now) survey.now.users.now survey.now.paths.items survey.now.ends.items survey.now.kept.items survey.now.fixed.items }
    requires within { at < length survey.now.paths.items }
    requires full { is_full ≡ is_full_to (H.state survey.now.tree.now) survey.now.users.now
        (greatest (H.state survey.now.tree.now) survey.now.users.now) (slice_index_or survey.now.paths.items at [])
        (length (slice_index_or survey.now.paths.items at [])) }
    ensures { result ≡ (takes_none (H.state survey.now.tree.now) survey.now.users.now
        (greatest (H.state survey.now.tree.now) survey.now.users.now) (slice_index_or survey.now.paths.items at [])
        && grows_none (H.state survey.now.tree.now) survey.now.users.now
        (greatest (H.state survey.now.tree.now) survey.now.users.now) (slice_index_or survey.now.paths.items at [])) }
{
    takes_none(survey, at) && grows_none(survey, &survey.paths[at], is_full)
}

/// Whether nobody moves a process to the cgroup at a place.
pub fn takes_none<H: Hierarchy>(survey: &Survey<H>, at: usize) -> bool
    requires survey { IsSurvey (H.state survey.now.tree.now) survey.now.users.now survey.now.paths.items survey.now.ends.items survey.now.kept.items survey.now.fixed.items }
    requires within { at < length survey.now.paths.items }
    ensures { result ≡ takes_none (H.state survey.now.tree.now) survey.now.users.now
        (greatest (H.state survey.now.tree.now) survey.now.users.now) (slice_index_or survey.now.paths.items at []) }
{
    let path = &survey.paths[at];
    let len = path.depth();
    if !is_reached(survey.tree, survey.users, path, len, EntryName::Procs) {
        return true;
    }
    if len == 0 || !is_enabled(survey.tree, path, len, Controller::Memory) {
        return false;
    }
    !is_reached(
        survey.tree,
        survey.users,
        path,
        len,
        EntryName::SubtreeControl,
    ) || survey.fixed_below(at)
}

/// Whether nobody makes a cgroup in one.
pub fn grows_none<H: Hierarchy>(survey: &Survey<H>, path: &Path, is_full: bool) -> bool
    requires { is_full ≡ is_full_to (H.state survey.now.tree.now) survey.now.users.now
        (greatest (H.state survey.now.tree.now) survey.now.users.now) path.now (length path.now) }
    ensures { result ≡ grows_none (H.state survey.now.tree.now) survey.now.users.now
        (greatest (H.state survey.now.tree.now) survey.now.users.now) path.now }
{
    is_full
        || !is_reached(
            survey.tree,
            survey.users,
            path,
            path.depth(),
            EntryName::Dir,
        )
}
