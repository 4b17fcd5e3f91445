//! What the second row of guards asks of a subtree, and by what it is so.
ghost use Rattle.std.specs.Prelude.{◌≡◌, ◌<◌, ◌++◌, false, length, slice_index_or, [], IfOk, OnOk};
ghost use Rattle.std.specs.List.{flat_map};
ghost use Rattle.cg_cgroup.specs.Paths.{is_root};
ghost use Rattle.cg_model.specs.WellFormed.{IsWellFormed};
ghost use Rattle.cg_model.specs.Guards.{IsSubtree};
ghost use Rattle.cg_second.specs.Greatest.{greatest};
ghost use Rattle.cg_second.specs.Judged.{is_full_to, takes_none, grows_none};
ghost use Rattle.cg_second.specs.Lasting.{is_reached};
ghost use Rattle.cg_second.specs.Counts.{IsSurvey};
ghost use Rattle.cg_second.specs.Exposed.{is_passed_to};
ghost use Rattle.cg_explain.specs.SecondRow.{is_met, why_stays, why_control, why_takes, why_grows, place_with, place_asked, controls_asked, second_row_asked};

use cg_cgroup::files::{Controller, EntryName};
use cg_cgroup::memory::NoMemory;
use cg_cgroup::path::Path;
use cg_cgroup::user::User;
use cg_model::hierarchy::Hierarchy;
use cg_model::told::is_told;
use cg_second::closed::{grows_none, is_exposed, is_passed, takes_none};
use cg_second::control::{stays, stays_off, stays_on};
use cg_second::reach::{is_anchored, is_reached, spares_files};
use cg_second::room::Room;
use cg_second::survey::Survey;
use std::alloc::Global;

/// Why a cgroup stays.
#[derive(Clone, Copy, Debug, PartialEq, Eq)]
pub enum Staying {
    /// Nobody writes the directory where it would be removed.
    Spared,
    /// One that is below it stays.
    Upheld,
}

/// How a controller stays as it is.
#[derive(Clone, Copy, Debug, PartialEq, Eq)]
pub enum Switch {
    On,
    Off,
}

/// Why nobody moves a process to a cgroup.
#[derive(Clone, Copy, Debug, PartialEq, Eq)]
pub enum Taking {
    /// Nobody writes its `cgroup.procs`.
    Spared,
    /// It goes on enabling `memory`.
    Enabling,
}

/// Why nobody makes a cgroup in one.
#[derive(Clone, Copy, Debug, PartialEq, Eq)]
pub enum Growing {
    /// Nobody writes its directory.
    Spared,
    /// A limit leaves no room.
    Full,
}

/// A cgroup to which a move over the edge of the subtree may lead.
#[derive(Debug, Drop)]
pub struct Place {
    pub path: Path,
    pub takes_none: Option<Taking>,
    pub grows_none: Option<Growing>,
}

/// What is asked. Where nothing is told by what it is so, it isn't.
#[derive(Debug, Drop)]
pub enum Asked {
    /// That the subtree stays.
    Stays(Option<Staying>),
    /// That a controller stays as it is at the subtree's parent.
    Control(Controller, Option<Switch>),
    /// That nobody reaches a limit file of the subtree.
    Files(bool),
    /// That nobody moves a process to a cgroup, and nobody makes one in it.
    Shut(Place),
}

impl Asked {
    /// Whether it is so.
    pub fn is_met(&self) -> bool
        ensures { result ≡ is_met self.now }
    {
        match self {
            Asked::Stays(why) => why.is_some(),
            Asked::Control(_, how) => how.is_some(),
            Asked::Files(spared) => *spared,
            Asked::Shut(place) => place.takes_none.is_some() && place.grows_none.is_some(),
        }
    }
}

/// What the second row asks of a subtree against some users together, but that it is within its own limits: that it stays, what
/// its parent enables, its limit files, and then each place to which a move over its edge may lead, in the order of paths.
pub fn second_row<H: Hierarchy>(
    alloc: Global,
    tree: &H,
    users: &[User],
    subtree: &Path,
) -> Result<Vec<Asked>, NoMemory>
    requires formed { IsWellFormed (H.state tree.now) }
    requires subtree { IsSubtree (H.state tree.now) subtree.now }
    ensures { IfOk result (λ row. row.items ≡ second_row_asked (H.state tree.now) users.now subtree.now) }
{
    let survey = Survey::of(alloc, tree, users)?;
    all_asked(alloc, &survey, subtree)
}

/// All that is asked, of a survey.
fn all_asked<H: Hierarchy>(
    alloc: Global,
    survey: &Survey<H>,
    subtree: &Path,
) -> Result<Vec<Asked>, NoMemory>
    requires survey { IsSurvey (H.state survey.now.tree.now) survey.now.users.now survey.now.paths.items survey.now.ends.items survey.now.kept.items survey.now.fixed.items }
    requires not_root { is_root subtree.now ≡ false }
    ensures { IfOk result (λ row. row.items ≡ second_row_asked (H.state survey.now.tree.now) survey.now.users.now subtree.now) }
{
    let mut row = Vec::new(alloc);
    row.push(Asked::Stays(why_stays(survey, subtree)))?;
    push_controls(&mut row, survey, subtree)?;
    let spared = spares_files(survey.tree, survey.users, subtree);
    row.push(Asked::Files(spared))?;
    push_places(alloc, &mut row, survey, subtree)?;
    Ok(row)
}

/// Adds each controller that is told of.
fn push_controls<H: Hierarchy>(
    row: &mut Vec<Asked>,
    survey: &Survey<H>,
    subtree: &Path,
) -> Result<(), NoMemory>
    requires survey { IsSurvey (H.state survey.now.tree.now) survey.now.users.now survey.now.paths.items survey.now.ends.items survey.now.kept.items survey.now.fixed.items }
    requires not_root { is_root subtree.now ≡ false }
    ensures { OnOk result (row.new.items ≡ row.old.items ++ controls_asked (H.state survey.now.tree.now) survey.now.users.now subtree.now) }
{
    for controller in Controller::ALL {
        if is_told(survey.tree, controller) {
            let how = why_control(survey, subtree, controller);
            row.push(Asked::Control(controller, how))?;
        }
    }
    Ok(())
}

/// Why the subtree stays, if it does.
fn why_stays<H: Hierarchy>(survey: &Survey<H>, subtree: &Path) -> Option<Staying>
    requires survey { IsSurvey (H.state survey.now.tree.now) survey.now.users.now survey.now.paths.items survey.now.ends.items survey.now.kept.items survey.now.fixed.items }
    ensures { result ≡ why_stays (H.state survey.now.tree.now) survey.now.users.now subtree.now }
{
    if !stays(survey, subtree) {
        return None;
    }
    if is_anchored(survey.tree, survey.users, subtree) {
        Some(Staying::Spared)
    } else {
        Some(Staying::Upheld)
    }
}

/// How a controller stays as it is at the subtree's parent, if it does.
fn why_control<H: Hierarchy>(
    survey: &Survey<H>,
    subtree: &Path,
    controller: Controller,
) -> Option<Switch>
    requires survey { IsSurvey (H.state survey.now.tree.now) survey.now.users.now survey.now.paths.items survey.now.ends.items survey.now.kept.items survey.now.fixed.items }
    requires not_root { is_root subtree.now ≡ false }
    ensures { result ≡ why_control (H.state survey.now.tree.now) survey.now.users.now subtree.now controller }
{
    if stays_on(survey, subtree, subtree.depth() - 1, controller) {
        return Some(Switch::On);
    }
    if stays_off(survey, subtree, controller) {
        Some(Switch::Off)
    } else {
        None
    }
}

/// Adds each cgroup to which a move over the edge of the subtree may lead.
fn push_places<H: Hierarchy>(
    alloc: Global,
    row: &mut Vec<Asked>,
    survey: &Survey<H>,
    subtree: &Path,
) -> Result<(), NoMemory>
    requires survey { IsSurvey (H.state survey.now.tree.now) survey.now.users.now survey.now.paths.items survey.now.ends.items survey.now.kept.items survey.now.fixed.items }
    ensures { OnOk result (row.new.items ≡ row.old.items
        ++ flat_map (place_asked (H.state survey.now.tree.now) survey.now.users.now subtree.now) survey.now.paths.items) }
{
    let is_passed = is_passed(survey, subtree);
    let mut room = Room::new(alloc)?;
    for at in 0..survey.paths.len() {
        let is_full = room.is_full_at(survey, at)?;
        push_place(alloc, row, survey, subtree, is_passed, at, is_full)?;
    }
    Ok(())
}

/// Adds the cgroup at a place of the survey, where a move over the edge of the subtree may lead there.
fn push_place<H: Hierarchy>(
    alloc: Global,
    row: &mut Vec<Asked>,
    survey: &Survey<H>,
    subtree: &Path,
    is_passed: bool,
    at: usize,
    is_full: bool,
) -> Result<(), NoMemory>
    requires survey { IsSurvey (H.state survey.now.tree.now) survey.now.users.now survey.now.paths.items survey.now.ends.items survey.now.kept.items survey.now.fixed.items }
    requires within { at < length survey.now.paths.items }
    requires passed { is_passed ≡ is_passed_to (H.state survey.now.tree.now) survey.now.users.now subtree.now (length subtree.now) }
    requires full { is_full ≡ is_full_to (H.state survey.now.tree.now) survey.now.users.now
        (greatest (H.state survey.now.tree.now) survey.now.users.now) (slice_index_or survey.now.paths.items at [])
        (length (slice_index_or survey.now.paths.items at [])) }
    ensures { OnOk result (row.new.items ≡ row.old.items ++ place_asked (H.state survey.now.tree.now) survey.now.users.now subtree.now
        (slice_index_or survey.now.paths.items at [])) }
{
    if !is_exposed(survey, subtree, is_passed, &survey.paths[at]) {
        return Ok(());
    }
    let place = place_at(alloc, survey, at, is_full)?;
    row.push(Asked::Shut(place))?;
    Ok(())
}

/// The cgroup at a place of the survey.
fn place_at<H: Hierarchy>(
    alloc: Global,
    survey: &Survey<H>,
    at: usize,
    is_full: bool,
) -> Result<Place, NoMemory>
    requires survey { IsSurvey (H.state survey.now.tree.now) survey.now.users.now survey.now.paths.items survey.now.ends.items survey.now.kept.items survey.now.fixed.items }
    requires within { at < length survey.now.paths.items }
    requires full { is_full ≡ is_full_to (H.state survey.now.tree.now) survey.now.users.now
        (greatest (H.state survey.now.tree.now) survey.now.users.now) (slice_index_or survey.now.paths.items at [])
        (length (slice_index_or survey.now.paths.items at [])) }
    ensures { IfOk result (λ place. place ≡ place_with (H.state survey.now.tree.now) survey.now.users.now
        (slice_index_or survey.now.paths.items at [])
        (grows_none (H.state survey.now.tree.now) survey.now.users.now
        (greatest (H.state survey.now.tree.now) survey.now.users.now) (slice_index_or survey.now.paths.items at []))) }
{
    let path = &survey.paths[at];
    let takes_none = why_takes(survey, at);
    let grows_none = why_grows(survey, path, is_full);
    let path = path.try_clone(alloc)?;
    Ok(Place {
        path,
        takes_none,
        grows_none,
    })
}

/// Why nobody moves a process to the cgroup at a place, if so.
fn why_takes<H: Hierarchy>(survey: &Survey<H>, at: usize) -> Option<Taking>
    requires survey { IsSurvey (H.state survey.now.tree.now) survey.now.users.now survey.now.paths.items survey.now.ends.items survey.now.kept.items survey.now.fixed.items }
    requires within { at < length survey.now.paths.items }
    ensures { result ≡ why_takes (H.state survey.now.tree.now) survey.now.users.now (slice_index_or survey.now.paths.items at [])
        (takes_none (H.state survey.now.tree.now) survey.now.users.now
        (greatest (H.state survey.now.tree.now) survey.now.users.now) (slice_index_or survey.now.paths.items at [])) }
{
    if !takes_none(survey, at) {
        return None;
    }
    if is_written(survey, &survey.paths[at], EntryName::Procs) {
        Some(Taking::Enabling)
    } else {
        Some(Taking::Spared)
    }
}

/// Why nobody makes a cgroup in one, if so.
fn why_grows<H: Hierarchy>(survey: &Survey<H>, path: &Path, is_full: bool) -> Option<Growing>
    requires { is_full ≡ is_full_to (H.state survey.now.tree.now) survey.now.users.now
        (greatest (H.state survey.now.tree.now) survey.now.users.now) path.now (length path.now) }
    ensures { result ≡ why_grows (H.state survey.now.tree.now) survey.now.users.now path.now
        (grows_none (H.state survey.now.tree.now) survey.now.users.now
        (greatest (H.state survey.now.tree.now) survey.now.users.now) path.now) }
{
    if !grows_none(survey, path, is_full) {
        return None;
    }
    if is_written(survey, path, EntryName::Dir) {
        Some(Growing::Full)
    } else {
        Some(Growing::Spared)
    }
}

/// Whether one of the users reaches an entry of a cgroup.
fn is_written<H: Hierarchy>(survey: &Survey<H>, path: &Path, name: EntryName) -> bool
    ensures { result ≡ is_reached (H.state survey.now.tree.now) survey.now.users.now path.now name }
{
    is_reached(survey.tree, survey.users, path, path.depth(), name)
}
