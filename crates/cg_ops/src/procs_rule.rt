//! Moving a process: writing its PID to a `cgroup.procs`.
ghost use Rattle.std.specs.Prelude.{◌≡◌};
ghost use Rattle.cg_model.specs.Clauses.{first};
ghost use Rattle.cg_model.specs.Bars.{move_bars};

use crate::moves::passes;
use cg_cgroup::files::EntryName;
use cg_cgroup::path::Path;
use cg_cgroup::process::Pid;
use cg_cgroup::user::User;
use cg_model::hierarchy::Hierarchy;
use cg_model::outcome::Refusal;
use cg_model::receiving::may_hold;

/// The first refusal that a move meets.
pub fn refusal<H: Hierarchy>(tree: &H, user: &User, pid: Pid, to: &Path) -> Option<Refusal>
    ensures { result ≡ first (move_bars (H.state tree.now) user.now pid to.now) }
{
    let len = to.depth();
    let Some(destination) = tree.get(to, len) else {
        return Some(Refusal::NoSuchCgroup { len });
    };
    if !user.may_write(&destination.procs) {
        return Some(Refusal::NoAccess {
            len,
            entry: EntryName::Procs,
        });
    }
    let Some(place) = tree.place(pid) else {
        return Some(Refusal::NoSuchProcess { pid });
    };
    if !passes(tree, user, place, to) {
        return Some(Refusal::NoAccess {
            len: place.common_len(to),
            entry: EntryName::Procs,
        });
    }
    if !may_hold(destination, to) {
        return Some(Refusal::InternalProcess { len });
    }
    None
}
