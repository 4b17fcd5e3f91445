//! Processes that have to leave where they are.
use crate::draft::Draft;
use crate::goal::Goal;
use crate::sought::{Goer, Leaving};
use cg_cgroup::memory::NoMemory;
use cg_cgroup::path::Path;
use cg_cgroup::process::Pid;
use cg_model::hierarchy::Hierarchy;
use cg_model::operation::Op;

/// Adds what takes the processes away from where they are: the user's own end, others go to a refuge. Whether all may go.
pub fn leave<H: Hierarchy + Drop>(
    draft: &mut Draft<H>,
    leaving: Leaving<'_>,
    goals: &mut Vec<Goal>,
) -> Result<bool, NoMemory> {
    for pid in &draft.planner.pids {
        let pid = *pid;
        if !is_leaving(draft, &leaving, pid) {
            continue;
        }
        if draft.may_end(pid) {
            goals.push(Goal::new(Op::Exit { pid }))?;
        } else if let Some(to) = refuge(draft, leaving, pid)? {
            goals.push(Goal::new(Op::Move { pid, to }))?;
        } else {
            return Ok(false);
        }
    }
    Ok(true)
}

/// Whether a process is where it is to leave.
fn is_leaving<H: Hierarchy>(draft: &Draft<H>, leaving: &Leaving<'_>, pid: Pid) -> bool {
    match draft.tree.place(pid) {
        Some(place) => leaving.is_from(place),
        None => false,
    }
}

/// The place to which a process goes that has to leave, where there is one: the last one again, if the user moves it there.
fn refuge<H: Hierarchy + Drop>(
    draft: &mut Draft<H>,
    leaving: Leaving<'_>,
    pid: Pid,
) -> Result<Option<Path>, NoMemory> {
    let alloc = draft.planner.alloc;
    let Some(place) = draft.tree.place(pid) else {
        return Ok(None);
    };
    let from = place.try_clone(alloc)?;
    if let Some(last) = &draft.refuge {
        if is_refuge(draft, &leaving, pid, &from, last)? {
            return Ok(Some(last.try_clone(alloc)?));
        }
    }
    let goer = Goer::Leaving {
        from: &from,
        leaving,
        top: draft.planner.top_passed(&draft.tree, &from),
    };
    let found = draft.best_place(pid, goer)?;
    if let Some(found) = &found {
        draft.refuge = Some(found.try_clone(alloc)?);
    }
    Ok(found)
}

/// Whether a process that has to leave may be moved to a place where others were put.
fn is_refuge<H: Hierarchy + Drop>(
    draft: &Draft<H>,
    leaving: &Leaving<'_>,
    pid: Pid,
    from: &Path,
    last: &Path,
) -> Result<bool, NoMemory> {
    let subtree = draft.planner.subtree;
    if !leaving.may_go_to(last, false, subtree) || !draft.planner.passes(&draft.tree, from, last) {
        return Ok(false);
    }
    Ok(!draft.avoided(pid)?.contains(last))
}
