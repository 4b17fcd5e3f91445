//! Processes that begin and end.
ghost use Rattle.std.specs.Prelude.{◌≡◌, [], OnOk, OnErr};
ghost use Rattle.cg_model.specs.Clauses.{first};
ghost use Rattle.cg_model.specs.Bars.{fork_bars, exit_bars};
ghost use Rattle.cg_model.specs.Next.{with_fork};

use cg_cgroup::memory::NoMemory;
use cg_cgroup::process::Pid;
use cg_cgroup::user::User;
use cg_model::hierarchy::Hierarchy;
use cg_model::outcome::Refusal;
use std::alloc::Global;

/// The first refusal that a fork meets.
pub fn fork_refusal<H: Hierarchy>(tree: &H, user: &User, parent: Pid, child: Pid) -> Option<Refusal>
    ensures { result ≡ first (fork_bars (H.state tree.now) user.now parent child) }
{
    if let Some(refusal) = exit_refusal(tree, user, parent) {
        return Some(refusal);
    }
    if tree.is_used(child) {
        return Some(Refusal::PidUsed { pid: child });
    }
    None
}

/// The first refusal that an exit meets.
pub fn exit_refusal<H: Hierarchy>(tree: &H, user: &User, pid: Pid) -> Option<Refusal>
    ensures { result ≡ first (exit_bars (H.state tree.now) user.now pid) }
{
    let Some(uid) = tree.owner(pid) else {
        return Some(Refusal::NoSuchProcess { pid });
    };
    if uid != user.uid() {
        return Some(Refusal::NotYours { pid });
    }
    None
}

/// Makes `child`, which was never used, with the uid and the place of `parent`.
pub fn fork<H: Hierarchy>(
    alloc: Global,
    tree: &mut H,
    user: &User,
    parent: Pid,
    child: Pid,
) -> Result<(), NoMemory>
    requires { fork_bars (H.state tree.old) user.now parent child ≡ [] }
    ensures ok { OnOk result (H.state tree.new ≡ with_fork (H.state tree.old) parent child) }
    ensures err { OnErr result (H.state tree.new ≡ H.state tree.old) }
{
    let Some(uid) = tree.owner(parent) else {
        unreachable!()
    };
    let Some(place) = tree.place(parent) else {
        unreachable!()
    };
    let place = place.try_clone(alloc)?;
    tree.add_process(alloc, child, uid, &place)
}
