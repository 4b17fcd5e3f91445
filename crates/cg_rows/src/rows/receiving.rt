//! Where processes may come, by the entries.
ghost use Rattle.std.specs.Prelude.{◌≡◌, filter, map, IfOk};
ghost use Rattle.cg_model.specs.Receiving.{row_receives};

use cg_cgroup::cgroup::Cgroup;
use cg_cgroup::memory::NoMemory;
use cg_cgroup::path::Path;
use cg_cgroup::user::User;
use cg_model::receiving::receives;
use std::alloc::Global;

/// The paths of those of some cgroups to which a process may come, once it may pass. Fails where memory is wanted.
pub fn receiving(
    alloc: Global,
    entries: &[(Path, Cgroup)],
    user: &User,
) -> Result<Vec<Path>, NoMemory>
    ensures { IfOk result (λ paths. paths.items ≡ map (λ e. e.0) (filter (λ e. row_receives user.now e.0 e.1) entries.now)) }
{
    let mut found = Vec::new(alloc);
    for entry in entries {
        if receives(user, &entry.0, &entry.1) {
            found.push(entry.0.try_clone(alloc)?)?;
        }
    }
    Ok(found)
}
