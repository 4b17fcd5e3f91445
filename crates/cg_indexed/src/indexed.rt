//! `Indexed`: a tree kept by places, with kept counts.
ghost use Rattle.std.specs.Prelude.{◌≡◌, IfOk};
ghost use Rattle.std.specs.Coded.{codes};
ghost use Rattle.std.specs.FinMap as map;
ghost use Rattle.std.specs.FinSet as set;
ghost use Rattle.cg_model.specs.States.{State};
ghost use Rattle.cg_rows.specs.RowsForm.{IsRoot, state_of_root};
ghost use Rattle.cg_places.specs.Values.{map_values};
ghost use Rattle.cg_counts.specs.Kept.{new_held};
ghost use Rattle.cg_indexed.specs.Indexed.{state_of, IsIndexed};

use cg_cgroup::cgroup::Cgroup;
use cg_cgroup::files::{Controller, ControllerSet, EntryName, Limit, LimitFile};
use cg_cgroup::memory::NoMemory;
use cg_cgroup::other_file::OtherFile;
use cg_cgroup::path::Path;
use cg_cgroup::process::{Pid, Process};
use cg_cgroup::told::{ToldFile, ToldFiles};
use cg_cgroup::user::{Mode, User};
use cg_counts::cgroups::Cgroups;
use cg_model::hierarchy::Hierarchy;
use cg_places::links::Tally;
use cg_rows::processes::Processes;
use cg_rows::rows::Rows;
use cg_rows::tables::path_table::PathTable;
use std::alloc::Global;
use std::marker::Model;

/// A tree of cgroups with its processes, found through their paths' texts, with kept counts.
///
/// A look-up takes time in the logarithm of the tree's size, a change of the tree time in a cgroup's depth, and a change
/// of what a cgroup enables a walk over the links of all cgroups where it has any below it. Counts are read. What is told of
/// limit files beyond `LimitFile` is a sorted list: its entries behind a cgroup's own move, a path and a pointer each, where it
/// is the first to be told of that cgroup, and where that is removed.
#[derive(Drop)]
pub struct Indexed {
    cgroups: Cgroups,
    processes: Processes,
    /// What is told of limit files beyond `LimitFile`, by cgroup.
    told: PathTable<ToldFiles>,
    controllers: ControllerSet,
}

impl Model for Indexed {
    ghost Value = { State };

    ghost coded = { Prim.hlevel (codes, map.code, set.code) };

    ghost view = { λ t. state_of t.cgroups t.processes t.told t.controllers };

    ghost invariant = { λ t. IsIndexed t.cgroups t.processes t.told t.controllers };
}

impl Indexed {
    /// A tree with a root alone. Fails where memory is wanted.
    pub fn new(alloc: Global, controllers: ControllerSet, root: Cgroup) -> Result<Indexed, NoMemory>
        requires { IsRoot controllers root }
        ensures { IfOk result (λ tree. tree ≡ state_of_root controllers root) }
    {
        Ok(Indexed {
            cgroups: Cgroups::new(alloc, root)?,
            processes: Processes::new(alloc),
            told: PathTable::new(alloc),
            controllers,
        })
    }

    /// The tree that rows keep, kept by places. Fails where memory is wanted.
    pub fn from_rows(alloc: Global, rows: Rows) -> Result<Indexed, NoMemory>
        ensures { IfOk result (λ tree. tree ≡ rows) }
    {
        let mut cgroups = cgroups_of(alloc, &rows)?;
        // What `size` says bounds the counts.
        let _size = rows.processes().size();
        for (_pid, process) in rows.processes().iter() {
            cgroups.count_live(&process.place, Tally::More);
        }
        let controllers = rows.controllers();
        let (processes, told) = rows.into_parts();
        Ok(Indexed {
            cgroups,
            processes,
            told,
            controllers,
        })
    }
}

/// The cgroups of rows, none with a live process. Fails where memory is wanted.
fn cgroups_of(alloc: Global, rows: &Rows) -> Result<Cgroups, NoMemory>
    ensures { IfOk result (λ cgroups. cgroups ≡ map_values new_held rows.now.rows) }
{
    let Some(root) = rows.get(&Path::root(alloc), 0) else {
        unreachable!()
    };
    let mut cgroups = Cgroups::new(alloc, *root)?;
    // A parent comes before its children.
    for (path, cgroup) in rows.entries() {
        if path.depth() > 0 {
            cgroups.add(alloc, path, *cgroup)?;
        }
    }
    Ok(cgroups)
}

impl Hierarchy for Indexed {
    ghost state = { λ tree. tree };

    fn get(&self, path: &Path, len: usize) -> Option<&Cgroup> {
        self.cgroups.get(path, len)
    }

    fn told(&self, path: &Path, len: usize) -> Option<&ToldFiles> {
        self.told.get(path, len)
    }

    fn place(&self, pid: Pid) -> Option<&Path> {
        self.processes.place(pid)
    }

    fn owner(&self, pid: Pid) -> Option<u32> {
        self.processes.owner(pid)
    }

    fn is_used(&self, pid: Pid) -> bool {
        self.processes.is_used(pid)
    }

    fn controllers(&self) -> ControllerSet {
        self.controllers
    }

    fn has_child(&self, path: &Path, len: usize) -> bool {
        self.cgroups.count_below(path, len) > 0
    }

    fn has_live(&self, path: &Path, len: usize) -> bool {
        self.cgroups.live(path, len) > 0
    }

    fn child_enables(&self, path: &Path, len: usize, controller: Controller) -> bool {
        self.cgroups.child_enables(path, len, controller)
    }

    fn count_below(&self, path: &Path, len: usize) -> u64 {
        self.cgroups.count_below(path, len)
    }

    fn depth_below(&self, path: &Path, len: usize) -> u64 {
        self.cgroups.depth_below(path, len)
    }

    fn nearest_full(&self, path: &Path, len: usize) -> Option<usize> {
        self.cgroups.nearest_full(path, len)
    }

    fn set_limit(&mut self, path: &Path, file: LimitFile, value: Limit) {
        let mut cgroup = *self.cgroups.cgroup(path);
        cgroup.set_value(file, value);
        self.cgroups.set(path, cgroup);
    }

    fn set_enabled(&mut self, path: &Path, enabled: ControllerSet, user: &User) {
        self.told.keep(path, enabled);
        if self.cgroups.cgroup(path).enabled != enabled {
            self.cgroups.enable(path, enabled, user);
        }
    }

    fn set_mode(&mut self, path: &Path, name: EntryName, mode: Mode) {
        let mut cgroup = *self.cgroups.cgroup(path);
        // What `get` says of a mode's range keeps the tree well-formed.
        let _bits = mode.get();
        cgroup.set_mode(name, mode);
        self.cgroups.set(path, cgroup);
    }

    fn remove(&mut self, path: &Path) {
        self.told.forget(path);
        self.cgroups.remove(path);
    }

    fn end_process(&mut self, pid: Pid) {
        let Some(process) = self.processes.get(pid) else {
            unreachable!()
        };
        self.cgroups.count_live(&process.place, Tally::Fewer);
        self.processes.end(pid);
    }

    fn paths(&self, alloc: Global) -> Result<Vec<Path>, NoMemory> {
        self.cgroups.paths(alloc)
    }

    fn receivers(&self, alloc: Global, user: &User) -> Result<Vec<Path>, NoMemory> {
        self.cgroups.receivers(alloc, user)
    }

    fn pids(&self, alloc: Global) -> Result<Vec<Pid>, NoMemory> {
        self.processes.pids(alloc)
    }

    fn try_clone(&self, alloc: Global) -> Result<Self, NoMemory> {
        Ok(Indexed {
            cgroups: self.cgroups.try_clone(alloc)?,
            processes: self.processes.try_clone(alloc)?,
            told: self.told.try_clone(alloc)?,
            controllers: self.controllers,
        })
    }

    fn add(&mut self, alloc: Global, path: &Path, cgroup: Cgroup) -> Result<(), NoMemory> {
        self.cgroups.add(alloc, path, cgroup)
    }

    fn tell(
        &mut self,
        alloc: Global,
        path: &Path,
        file: OtherFile,
        told: ToldFile,
    ) -> Result<(), NoMemory> {
        self.told.tell(alloc, path, file, told)
    }

    fn set_place(&mut self, alloc: Global, pid: Pid, path: &Path) -> Result<(), NoMemory> {
        let place = path.try_clone(alloc)?;
        // What `size` says bounds the counts.
        let _size = self.processes.size();
        let Some(process) = self.processes.get(pid) else {
            unreachable!()
        };
        let old = &process.place;
        self.cgroups.count_live(old, Tally::Fewer);
        self.cgroups.count_live(path, Tally::More);
        self.processes.set_place(pid, place);
        Ok(())
    }

    fn add_process(
        &mut self,
        alloc: Global,
        pid: Pid,
        uid: u32,
        path: &Path,
    ) -> Result<(), NoMemory> {
        let place = path.try_clone(alloc)?;
        // What `size` says bounds the counts.
        let _size = self.processes.size();
        self.processes.insert(pid, Process { uid, place })?;
        self.cgroups.count_live(path, Tally::More);
        Ok(())
    }
}
