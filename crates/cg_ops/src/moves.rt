//! What moves ask of a tree: where a user passes.
ghost use Rattle.std.specs.Prelude.{◌≡◌, ◌≤◌, length, take};
ghost use Rattle.cg_model.specs.Bars.{passes};
ghost use Rattle.cg_ops.specs.Moves.{passes_at};

use cg_cgroup::path::Path;
use cg_cgroup::user::User;
use cg_model::hierarchy::Hierarchy;

/// Whether the user writes the `cgroup.procs` of the cgroup of the first `len` names, where there is one.
pub fn passes_at<H: Hierarchy>(tree: &H, user: &User, path: &Path, len: usize) -> bool
    requires { len ≤ length path.now }
    ensures { result ≡ passes_at (H.state tree.now) user.now (take len path.now) }
{
    match tree.get(path, len) {
        Some(cgroup) => user.may_write(&cgroup.procs),
        None => true,
    }
}

/// Whether the user writes the `cgroup.procs` of the common ancestor of two cgroups.
#[tactic(auto, using(cg_model::proofs::Prefixes::take_common, cg_model::proofs::Prefixes::length_common))]
pub fn passes<H: Hierarchy>(tree: &H, user: &User, from: &Path, to: &Path) -> bool
    ensures { result ≡ passes (H.state tree.now) user.now from.now to.now }
{
    passes_at(tree, user, to, from.common_len(to))
}
