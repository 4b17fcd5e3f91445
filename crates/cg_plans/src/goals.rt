//! The operations that break a subtree, once they are carried out.
ghost use Rattle.std.specs.Prelude.{◌≡◌, false};
ghost use Rattle.cg_cgroup.specs.Paths.{is_root};

use crate::planner::Planner;
use crate::sought::{Goer, Side, Sought, Way};
use cg_cgroup::files::{Controller, EntryName};
use cg_cgroup::memory::NoMemory;
use cg_cgroup::process::Pid;
use cg_model::changes::{Change, Changes};
use cg_model::hierarchy::Hierarchy;
use cg_model::operation::Op;
use cg_model::told::is_told;

/// The operations that are planned, in turn: the removal of the subtree, each controller off or on at its parent, and moves over
/// its edge.
pub fn goals<H: Hierarchy>(planner: &Planner<H>) -> Result<Vec<Op>, NoMemory>
    requires { is_root planner.now.subtree.now ≡ false }
{
    let mut goals = Vec::new(planner.alloc);
    add_removal(planner, &mut goals)?;
    add_controls(planner, &mut goals)?;
    let Some(top) = planner.top_passed(planner.tree, planner.subtree) else {
        return Ok(goals);
    };
    add_moves(planner, Side::Outside, top, &mut goals)?;
    add_moves(planner, Side::Inside, top, &mut goals)?;
    Ok(goals)
}

/// Adds the removal, where the user reaches the directory of the subtree's parent.
fn add_removal<H: Hierarchy>(planner: &Planner<H>, goals: &mut Vec<Op>) -> Result<(), NoMemory>
    requires { is_root planner.now.subtree.now ≡ false }
{
    let len = planner.subtree.parent_len();
    if planner.reaches(planner.tree, planner.subtree, len, EntryName::Dir) {
        let path = planner.subtree.try_clone(planner.alloc)?;
        goals.push(Op::Rmdir { path })?;
    }
    Ok(())
}

/// Adds each controller that is told of, off or on at the subtree's parent, where the user reaches its `cgroup.subtree_control`.
fn add_controls<H: Hierarchy>(planner: &Planner<H>, goals: &mut Vec<Op>) -> Result<(), NoMemory>
    requires { is_root planner.now.subtree.now ≡ false }
{
    let len = planner.subtree.parent_len();
    if !planner.reaches(
        planner.tree,
        planner.subtree,
        len,
        EntryName::SubtreeControl,
    ) {
        return Ok(());
    }
    let Some(parent) = planner.tree.get(planner.subtree, len) else {
        return Ok(());
    };
    for controller in Controller::ALL {
        if !is_told(planner.tree, controller) {
            continue;
        }
        let on = !parent.enabled.contains(controller);
        let mut changes = Changes::new(planner.alloc);
        changes.push(Change { on, controller })?;
        let at = planner.subtree.try_prefix(planner.alloc, len)?;
        goals.push(Op::Control { at, changes })?;
    }
    Ok(())
}

/// How many places of a kind are tried on a side.
const MOST_PLACES: usize = 4;

/// Adds moves to the places of a side, of processes from the other one.
fn add_moves<H: Hierarchy>(
    planner: &Planner<H>,
    to: Side,
    top: usize,
    goals: &mut Vec<Op>,
) -> Result<(), NoMemory> {
    let movers = movers(planner, to, top)?;
    if movers.is_empty() {
        return Ok(());
    }
    let sought = Sought {
        goer: Goer::Over(to),
        avoided: &[],
    };
    for place in planner.places(planner.tree, &sought, MOST_PLACES)? {
        for pid in &movers {
            let to = place.try_clone(planner.alloc)?;
            goals.push(Op::Move { pid: *pid, to })?;
        }
    }
    Ok(())
}

/// The ways to a side, of processes of the user's own and of others.
const WAYS: [(Way, bool); 4] = [
    (Way::Straight, true),
    (Way::Straight, false),
    (Way::Around, true),
    (Way::Around, false),
];

/// The first process of the user's own and the first of others for each way to a side, where there is one.
fn movers<H: Hierarchy>(planner: &Planner<H>, to: Side, top: usize) -> Result<Vec<Pid>, NoMemory> {
    let mut movers = Vec::new(planner.alloc);
    for (way, is_own) in WAYS {
        if let Some(pid) = first_mover(planner, to, top, way, is_own) {
            movers.push(pid)?;
        }
    }
    Ok(movers)
}

/// The first process that goes to a side in a way, of the user's own or of others.
fn first_mover<H: Hierarchy>(
    planner: &Planner<H>,
    to: Side,
    top: usize,
    way: Way,
    is_own: bool,
) -> Option<Pid> {
    for pid in &planner.pids {
        if planner.is_own(*pid) == is_own && way_of(planner, to, top, *pid) == Some(way) {
            return Some(*pid);
        }
    }
    None
}

/// How a process may come to a side; none where it is there, or can't.
fn way_of<H: Hierarchy>(planner: &Planner<H>, to: Side, top: usize, pid: Pid) -> Option<Way> {
    let place = planner.tree.place(pid)?;
    match (to, planner.subtree.is_prefix_of(place)) {
        (Side::Outside, true) => Some(Way::Straight),
        (Side::Inside, false) => planner.way(planner.tree, place, planner.subtree, Some(top)),
        _ => None,
    }
}
