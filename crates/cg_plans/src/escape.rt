//! The first list that is found to break a subtree.
ghost use Rattle.std.specs.Prelude.{IfOk, IfSome};
ghost use Rattle.cg_plans.specs.Breaking.{Breaks};

use crate::draft::Draft;
use crate::goals::goals;
use crate::planner::Planner;
use crate::replayed::replayed;
use cg_cgroup::memory::NoMemory;
use cg_cgroup::path::Path;
use cg_cgroup::user::User;
use cg_model::hierarchy::Hierarchy;
use cg_model::operation::Op;
use cg_model::operations::Operations;
use std::alloc::Global;
use std::cell::OnceCell;

/// A list of operations of a user that breaks a subtree, where one is found: nothing bars any of them, and the last breaks it.
///
/// At most 106 operations are planned, each on a copy of the tree: the removal of the subtree, each controller off or on at its
/// parent, and moves over its edge. A plan goes over all cgroups and processes at most 64 times and has at most 65536 steps; its
/// list is replayed on one more copy. Not every subtree that the user can break is found to be.
#[tactic(auto, using(cg_model::proofs::Prefixes::no_root_of_length))]
pub fn find_escape<H: Hierarchy + Drop>(
    alloc: Global,
    tree: &H,
    user: &User,
    subtree: &Path,
) -> Result<Option<Operations>, NoMemory>
    ensures { IfOk result (λ found. IfSome found (Breaks (H.state tree.now) user.now subtree.now)) }
{
    if subtree.depth() == 0 {
        return Ok(None);
    }
    let planner = Planner {
        alloc,
        tree,
        user,
        subtree,
        paths: tree.paths(alloc)?,
        pids: tree.pids(alloc)?,
        loose: OnceCell::new(),
    };
    for goal in goals(&planner)? {
        if let Some(found) = planned(&planner, goal)? {
            return Ok(Some(found));
        }
    }
    Ok(None)
}

/// The list that leads to an operation and breaks the subtree, where there is one.
fn planned<H: Hierarchy + Drop>(
    planner: &Planner<H>,
    goal: Op,
) -> Result<Option<Operations>, NoMemory>
    ensures { IfOk result (λ found. IfSome found
        (Breaks (H.state planner.now.tree.now) planner.now.user.now planner.now.subtree.now)) }
{
    let mut draft = Draft::new(planner)?;
    if !draft.reach(goal)? {
        return Ok(None);
    }
    replayed(
        planner.alloc,
        planner.tree,
        planner.user,
        planner.subtree,
        draft.into_operations(),
    )
}
