//! A change of what a cgroup enables for its children.
ghost use Rattle.std.specs.Prelude.{◌≡◌, map as map_list};
ghost use Rattle.cg_model.specs.States.{enabling, change_each};

use crate::tables::kin::is_child;
use crate::tables::path_table::PathTable;
use cg_cgroup::cgroup::Cgroup;
use cg_cgroup::files::ControllerSet;
use cg_cgroup::path::Path;
use cg_cgroup::user::User;

fn enable_one(path: &Path, enabled: ControllerSet, user: &User, other: &Path, row: &mut Cgroup)
    ensures { row.new ≡ enabling path.now enabled user.now other.now row.old }
{
    if path == other {
        row.enabled = enabled;
    } else if is_child(path, path.depth(), other) {
        row.refit(enabled, user);
    }
}

fn enable_all(entries: &mut [(Path, Cgroup)], path: &Path, enabled: ControllerSet, user: &User)
    ensures { entries.new ≡ map_list (λ e. (e.0, enabling path.now enabled user.now e.0 e.1)) entries.old }
{
    for entry in entries.iter_mut() {
        enable_one(path, enabled, user, &entry.0, &mut entry.1);
    }
}

impl PathTable<Cgroup> {
    /// Sets what a cgroup enables, and with it the limit files of its children, made by a user where they are new.
    pub fn enable(&mut self, path: &Path, enabled: ControllerSet, user: &User)
        ensures { self.new ≡ change_each (enabling path.now enabled user.now) self.old }
    {
        enable_all(&mut self.entries, path, enabled, user);
    }
}
