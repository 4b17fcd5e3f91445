//! Where processes may come.
ghost use Rattle.std.specs.Prelude.{◌≡◌, ◌||◌};
ghost use Rattle.cg_cgroup.specs.Paths.{is_root};
ghost use Rattle.cg_cgroup.specs.Files.{enables_nothing};
ghost use Rattle.cg_model.specs.Receiving.{row_receives};

use cg_cgroup::cgroup::Cgroup;
use cg_cgroup::path::Path;
use cg_cgroup::user::User;

/// Whether processes may be in a cgroup: it is the root, or enables nothing.
#[tactic(auto, using(crate::proofs::Prefixes::root_of_length, crate::proofs::Prefixes::no_root_of_length))]
pub fn may_hold(cgroup: &Cgroup, path: &Path) -> bool
    ensures { result ≡ (is_root path.now || enables_nothing cgroup.now.enabled) }
{
    path.depth() == 0 || cgroup.enabled.is_empty()
}

/// Whether a process may come to a cgroup, once it may pass: the user writes its `cgroup.procs`, and processes may be there.
pub fn receives(user: &User, path: &Path, cgroup: &Cgroup) -> bool
    ensures { result ≡ row_receives user.now path.now cgroup.now }
{
    user.may_write(&cgroup.procs) && may_hold(cgroup, path)
}
