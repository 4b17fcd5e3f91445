//! Whether a path is the child of another, or the same.
ghost use Rattle.std.specs.Prelude.{◌≡◌, ◌≤◌, length, take};
ghost use Rattle.cg_cgroup.specs.Paths.{is_child, same_path};

use cg_cgroup::path::Path;

/// Whether `other` is a child of the path of the first `len` names of `path`.
pub fn is_child(path: &Path, len: usize, other: &Path) -> bool
    requires { len ≤ length path.now }
    ensures { result ≡ is_child (take len path.now) other.now }
{
    if !path.holds(len, other) {
        return false;
    }
    other.depth() - len == 1
}

/// Whether `other` is the path of the first `len` names of `path`.
pub fn is_same(path: &Path, len: usize, other: &Path) -> bool
    requires { len ≤ length path.now }
    ensures { result ≡ same_path other.now (take len path.now) }
{
    other.cmp_prefix(path, len).is_eq()
}
