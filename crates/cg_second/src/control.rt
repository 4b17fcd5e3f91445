//! Whether the subtree stays, and what its parent enables.
ghost use Rattle.std.specs.Prelude.{◌≡◌, ◌≤◌, ◌+◌, ◌||◌, ◌&&◌, not, true, false, length, take, slice_index_or, [], ◌<◌};
ghost use Rattle.std.specs.List.{list_all};
ghost use Rattle.cg_cgroup.specs.Paths.{parent, is_root};
ghost use Rattle.cg_cgroup.specs.Files.{enables, all_controllers};
ghost use Rattle.cg_model.specs.WellFormed.{enabled_at, has_row};
ghost use Rattle.cg_second.specs.Greatest.{greatest};
ghost use Rattle.cg_second.specs.Anchors.{is_fixed};
ghost use Rattle.cg_second.specs.Counts.{IsSurvey};
ghost use Rattle.cg_second.specs.Exposed.{is_off_to};

use crate::counts::goes_on_enabling;
use crate::reach::{is_enabled, is_reached};
use crate::survey::Survey;
use cg_cgroup::files::{Controller, EntryName};
use cg_cgroup::path::Path;
use cg_model::hierarchy::Hierarchy;

/// Whether a cgroup stays.
pub fn stays<H: Hierarchy>(survey: &Survey<H>, path: &Path) -> bool
    requires survey { IsSurvey (H.state survey.now.tree.now) survey.now.users.now survey.now.paths.items survey.now.ends.items survey.now.kept.items survey.now.fixed.items }
    ensures { result ≡ (greatest (H.state survey.now.tree.now) survey.now.users.now).stays path.now }
{
    for at in 0..survey.paths.len() {
        if survey.paths[at] == *path {
            return survey.stays_at(at);
        }
    }
    false
}

/// Whether each controller stays as it is at the parent of a cgroup that stays.
pub fn control_stays<H: Hierarchy>(survey: &Survey<H>, subtree: &Path) -> bool
    requires survey { IsSurvey (H.state survey.now.tree.now) survey.now.users.now survey.now.paths.items survey.now.ends.items survey.now.kept.items survey.now.fixed.items }
    requires not_root { is_root subtree.now ≡ false }
    requires stays { (greatest (H.state survey.now.tree.now) survey.now.users.now).stays subtree.now ≡ true }
    ensures { result ≡ list_all (λ controller.
        (greatest (H.state survey.now.tree.now) survey.now.users.now).on (parent subtree.now) controller
        || (greatest (H.state survey.now.tree.now) survey.now.users.now).off (parent subtree.now) controller) all_controllers }
{
    Controller::ALL
        .iter()
        .all(|controller| is_held(survey, subtree, *controller))
}

/// Whether one controller stays on or off there.
fn is_held<H: Hierarchy>(survey: &Survey<H>, subtree: &Path, controller: Controller) -> bool
    requires survey { IsSurvey (H.state survey.now.tree.now) survey.now.users.now survey.now.paths.items survey.now.ends.items survey.now.kept.items survey.now.fixed.items }
    requires not_root { is_root subtree.now ≡ false }
    requires stays { (greatest (H.state survey.now.tree.now) survey.now.users.now).stays subtree.now ≡ true }
    ensures { result ≡ ((greatest (H.state survey.now.tree.now) survey.now.users.now).on (parent subtree.now) controller
        || (greatest (H.state survey.now.tree.now) survey.now.users.now).off (parent subtree.now) controller) }
{
    stays_off(survey, subtree, controller)
        || stays_on(survey, subtree, subtree.depth() - 1, controller)
}

/// Whether a controller stays on at the cgroup of the first `len` names of a path.
pub fn stays_on<H: Hierarchy>(
    survey: &Survey<H>,
    path: &Path,
    len: usize,
    controller: Controller,
) -> bool
    requires survey { IsSurvey (H.state survey.now.tree.now) survey.now.users.now survey.now.paths.items survey.now.ends.items survey.now.kept.items survey.now.fixed.items }
    requires within { len ≤ length path.now }
    ensures { result ≡ (greatest (H.state survey.now.tree.now) survey.now.users.now).on (take len path.now) controller }
{
    for at in 0..survey.paths.len() {
        if path.holds(len, &survey.paths[at]) && is_fixed_at(survey, at, controller) {
            return true;
        }
    }
    false
}

/// Whether the cgroup at a place stays and enables a controller, and none of the users disables it there.
fn is_fixed_at<H: Hierarchy>(survey: &Survey<H>, at: usize, controller: Controller) -> bool
    requires survey { IsSurvey (H.state survey.now.tree.now) survey.now.users.now survey.now.paths.items survey.now.ends.items survey.now.kept.items survey.now.fixed.items }
    requires within { at < length survey.now.paths.items }
    ensures { result ≡ is_fixed (H.state survey.now.tree.now) survey.now.users.now controller (slice_index_or survey.now.paths.items at []) }
{
    survey.stays_at(at)
        && goes_on_enabling(survey.tree, survey.users, &survey.paths[at], controller)
}

/// Whether a controller stays off at the parent of a cgroup, where all above that stay.
pub fn stays_off<H: Hierarchy>(survey: &Survey<H>, subtree: &Path, controller: Controller) -> bool
    ensures { result ≡ is_off_to (H.state survey.now.tree.now) survey.now.users.now subtree.now controller (length subtree.now) }
{
    for len in (0..subtree.depth()).rev() {
        if is_enabled(survey.tree, subtree, len, controller) {
            return false;
        }
        if !is_reached(
            survey.tree,
            survey.users,
            subtree,
            len,
            EntryName::SubtreeControl,
        ) {
            return true;
        }
    }
    !survey.tree.controllers().contains(controller)
}
