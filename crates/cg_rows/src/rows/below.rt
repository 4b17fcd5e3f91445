//! Questions about the entries below a cgroup, and about live processes.
ghost use Rattle.std.specs.Prelude.{◌≡◌, ◌≤◌, ◌-◌, ◌&&◌, length, take, fold, max, map as map_list};
ghost use Rattle.std.specs.List.{list_any};
ghost use Rattle.std.specs.FinMap as map;
ghost use Rattle.cg_cgroup.specs.Paths.{is_child, same_path};
ghost use Rattle.cg_cgroup.specs.Files.{enables};

use crate::processes::Processes;
use crate::tables::kin;
use cg_cgroup::cgroup::Cgroup;
use cg_cgroup::files::Controller;
use cg_cgroup::path::Path;

pub fn any_child(entries: &[(Path, Cgroup)], path: &Path, len: usize) -> bool
    requires { len ≤ length path.now }
    ensures { result ≡ list_any (λ e. is_child (take len path.now) e.0) entries.now }
{
    entries
        .iter()
        .any(|entry| kin::is_child(path, len, &entry.0))
}

fn child_has(entry: &(Path, Cgroup), path: &Path, len: usize, controller: Controller) -> bool
    requires { len ≤ length path.now }
    ensures { result ≡ (is_child (take len path.now) entry.now.0 && enables entry.now.1.enabled controller) }
{
    kin::is_child(path, len, &entry.0) && entry.1.enabled.contains(controller)
}

pub fn any_child_enables(
    entries: &[(Path, Cgroup)],
    path: &Path,
    len: usize,
    controller: Controller,
) -> bool
    requires { len ≤ length path.now }
    ensures { result ≡ list_any (λ e. is_child (take len path.now) e.0 && enables e.1.enabled controller) entries.now }
{
    entries
        .iter()
        .any(|entry| child_has(entry, path, len, controller))
}

pub fn any_at(processes: &Processes, path: &Path, len: usize) -> bool
    requires { len ≤ length path.now }
    ensures { result ≡ list_any (λ process. same_path process.place (take len path.now)) (map.values processes.now.live) }
{
    processes
        .iter()
        .any(|(_, process)| kin::is_same(path, len, &process.place))
}

pub fn deepest(entries: &[(Path, Cgroup)], len: usize) -> u64
    ensures { result ≡ fold max 0 (map_list (λ e. length e.0 - len) entries.now) }
{
    entries
        .iter()
        .map(|entry| entry.0.depth().saturating_sub(len) as u64)
        .fold(0, |deepest, depth| deepest.max(depth))
}
