//! Cgroups that are to be emptied of processes, and of what lies below them.
use crate::draft::Draft;
use crate::goal::Goal;
use crate::refuge::leave;
use crate::sought::Leaving;
use cg_cgroup::memory::NoMemory;
use cg_cgroup::path::Path;
use cg_model::hierarchy::Hierarchy;
use cg_model::operation::Op;
use cg_model::outcome::Refusal;

/// What empties a cgroup that is to be removed: its processes and those below it go, and then the cgroups below it, the deepest
/// first. Nothing where the subtree lies below it, or a process may not go.
pub fn emptied<H: Hierarchy + Drop>(
    draft: &mut Draft<H>,
    top: &Path,
) -> Result<Vec<Goal>, NoMemory> {
    let alloc = draft.planner.alloc;
    let mut goals = Vec::new(alloc);
    let subtree = draft.planner.subtree;
    if top.is_prefix_of(subtree) && top.depth() < subtree.depth() || !draft.may_scan() {
        return Ok(goals);
    }
    if !leave(draft, Leaving::Below(top), &mut goals)? {
        return Ok(Vec::new(alloc));
    }
    for path in draft.planner.paths.iter().rev() {
        if path.depth() > top.depth() && top.is_prefix_of(path) && is_there(draft, path) {
            let path = path.try_clone(alloc)?;
            goals.push(Goal::after(Op::Rmdir { path }, Refusal::HasChildren))?;
        }
    }
    Ok(goals)
}

/// Whether a cgroup is there.
fn is_there<H: Hierarchy>(draft: &Draft<H>, path: &Path) -> bool {
    draft.tree.get(path, path.depth()).is_some()
}

/// What leaves a cgroup without processes; nothing where one may not go.
pub fn left<H: Hierarchy + Drop>(
    draft: &mut Draft<H>,
    at: &Path,
) -> Result<Option<Vec<Goal>>, NoMemory> {
    let mut goals = Vec::new(draft.planner.alloc);
    if draft.may_scan() && leave(draft, Leaving::At(at), &mut goals)? {
        Ok(Some(goals))
    } else {
        Ok(None)
    }
}
