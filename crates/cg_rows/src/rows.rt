//! `Rows`: a tree kept as tables.
ghost use Rattle.std.specs.Prelude.{◌≡◌, ◌≤◌, length, IfOk};
ghost use Rattle.std.specs.Coded.{codes};
ghost use Rattle.std.specs.FinMap as map;
ghost use Rattle.std.specs.FinSet as set;
ghost use Rattle.cg_model.specs.States.{State};
ghost use Rattle.cg_rows.specs.RowsForm.{IsRoot, state_of_root, state_of_tables};
ghost use Rattle.cg_model.specs.WellFormed.{IsWellFormed};
ghost use Rattle.cg_model.specs.NearestFull.{is_full};

mod below;
mod receiving;

use crate::processes::Processes;
use crate::tables::path_table::PathTable;
use cg_cgroup::cgroup::Cgroup;
use cg_cgroup::files::{Controller, ControllerSet, EntryName, Limit, LimitFile};
use cg_cgroup::memory::NoMemory;
use cg_cgroup::other_file::OtherFile;
use cg_cgroup::path::Path;
use cg_cgroup::process::{Pid, Process};
use cg_cgroup::told::{ToldFile, ToldFiles};
use cg_cgroup::user::{Mode, User};
use cg_model::hierarchy::Hierarchy;
use cg_model::limits::bars_child;
use std::alloc::Global;
use std::marker::Model;

/// A tree of cgroups with its processes, kept as sorted tables.
///
/// A look-up takes time in the logarithm of the tree's size, and a question about what lies below a cgroup a walk over
/// the cgroups below it.
#[derive(Drop)]
pub struct Rows {
    rows: PathTable<Cgroup>,
    processes: Processes,
    /// What is told of limit files beyond `LimitFile`, by cgroup.
    told: PathTable<ToldFiles>,
    controllers: ControllerSet,
}

impl Model for Rows {
    ghost Value = { State };

    ghost coded = { Prim.hlevel (codes, map.code, set.code) };

    ghost view = { λ t. state_of_tables t.rows t.processes t.told t.controllers };

    ghost invariant = { λ t. IsWellFormed (state_of_tables t.rows t.processes t.told t.controllers) };
}

impl Rows {
    /// A tree with a root alone. Fails where memory is wanted.
    pub fn new(alloc: Global, controllers: ControllerSet, root: Cgroup) -> Result<Rows, NoMemory>
        requires { IsRoot controllers root }
        ensures { IfOk result (λ rows. rows ≡ state_of_root controllers root) }
    {
        let mut rows = PathTable::new(alloc);
        rows.insert(Path::root(alloc), root)?;
        Ok(Rows {
            rows,
            processes: Processes::new(alloc),
            told: PathTable::new(alloc),
            controllers,
        })
    }

    /// The tree of these cgroups and processes, and of what is told of limit files beyond `LimitFile`, where the root
    /// has the controllers that are available.
    pub fn from_tables(
        rows: PathTable<Cgroup>,
        processes: Processes,
        told: PathTable<ToldFiles>,
        available: ControllerSet,
    ) -> Rows
        requires { IsWellFormed (state_of_tables rows processes told available) }
        ensures { result ≡ state_of_tables rows processes told available }
    {
        Rows {
            rows,
            processes,
            told,
            controllers: available,
        }
    }

    /// The processes.
    pub fn processes(&self) -> &Processes
        ensures live { result.now.live ≡ self.now.live }
        ensures used { result.now.used ≡ self.now.used }
    {
        &self.processes
    }

    /// The processes, and what is told of limit files beyond `LimitFile`, of a tree that is done with.
    pub fn into_parts(self) -> (Processes, PathTable<ToldFiles>)
        ensures live { result.0.live ≡ self.live }
        ensures used { result.0.used ≡ self.used }
        ensures told { result.1 ≡ self.told }
    {
        (self.processes, self.told)
    }

    /// The cgroups, in the order of their paths.
    pub fn entries(&self) -> &[(Path, Cgroup)]
        ensures { result.now ≡ map.entries self.now.rows }
    {
        self.rows.entries()
    }

    /// What is told of limit files beyond `LimitFile`, by cgroup, in the order of the paths.
    pub fn told_entries(&self) -> &[(Path, ToldFiles)]
        ensures { result.now ≡ map.entries self.now.told }
    {
        self.told.entries()
    }

    /// Whether the cgroup of the first `at` names bars a child of that of the first `len` names, by its limits.
    fn is_full(&self, path: &Path, len: usize, at: usize) -> bool
        requires within { len ≤ length path.now }
        requires above { at ≤ len }
        ensures { result ≡ is_full self.now path.now len at }
    {
        let Some(cgroup) = self.get(path, at) else {
            return false;
        };
        bars_child(
            self.count_below(path, at),
            cgroup.max_descendants.value,
            (len - at) as u64,
            cgroup.max_depth.value,
        )
    }
}

impl Hierarchy for Rows {
    ghost state = { λ rows. rows };

    fn get(&self, path: &Path, len: usize) -> Option<&Cgroup> {
        self.rows.get(path, len)
    }

    fn told(&self, path: &Path, len: usize) -> Option<&ToldFiles> {
        self.told.get(path, len)
    }

    fn place(&self, pid: Pid) -> Option<&Path> {
        self.processes.place(pid)
    }

    fn owner(&self, pid: Pid) -> Option<u32> {
        self.processes.owner(pid)
    }

    fn is_used(&self, pid: Pid) -> bool {
        self.processes.is_used(pid)
    }

    fn controllers(&self) -> ControllerSet {
        self.controllers
    }

    fn has_child(&self, path: &Path, len: usize) -> bool {
        below::any_child(self.rows.below(path, len), path, len)
    }

    fn has_live(&self, path: &Path, len: usize) -> bool {
        below::any_at(&self.processes, path, len)
    }

    fn child_enables(&self, path: &Path, len: usize, controller: Controller) -> bool {
        below::any_child_enables(self.rows.below(path, len), path, len, controller)
    }

    fn count_below(&self, path: &Path, len: usize) -> u64 {
        self.rows.below(path, len).len() as u64
    }

    fn depth_below(&self, path: &Path, len: usize) -> u64 {
        below::deepest(self.rows.below(path, len), len)
    }

    fn nearest_full(&self, path: &Path, len: usize) -> Option<usize> {
        if self.is_full(path, len, len) {
            return Some(len);
        }
        for at in (0..len).rev() {
            if self.is_full(path, len, at) {
                return Some(at);
            }
        }
        None
    }

    fn set_limit(&mut self, path: &Path, file: LimitFile, value: Limit) {
        let Some(row) = self.rows.get(path, path.depth()) else {
            unreachable!()
        };
        let mut row = *row;
        row.set_value(file, value);
        self.rows.set(path, row);
    }

    fn set_enabled(&mut self, path: &Path, enabled: ControllerSet, user: &User) {
        self.rows.enable(path, enabled, user);
        self.told.keep(path, enabled);
    }

    fn set_mode(&mut self, path: &Path, name: EntryName, mode: Mode) {
        let Some(row) = self.rows.get(path, path.depth()) else {
            unreachable!()
        };
        let mut row = *row;
        // What `get` says of a mode's range keeps the tree well-formed.
        let _bits = mode.get();
        row.set_mode(name, mode);
        self.rows.set(path, row);
    }

    fn remove(&mut self, path: &Path) {
        self.rows.remove(path);
        self.told.forget(path);
    }

    fn end_process(&mut self, pid: Pid) {
        self.processes.end(pid);
    }

    fn paths(&self, alloc: Global) -> Result<Vec<Path>, NoMemory> {
        let mut paths = Vec::new(alloc);
        for entry in self.rows.entries() {
            paths.push(entry.0.try_clone(alloc)?)?;
        }
        Ok(paths)
    }

    fn receivers(&self, alloc: Global, user: &User) -> Result<Vec<Path>, NoMemory> {
        receiving::receiving(alloc, self.rows.entries(), user)
    }

    fn pids(&self, alloc: Global) -> Result<Vec<Pid>, NoMemory> {
        self.processes.pids(alloc)
    }

    fn try_clone(&self, alloc: Global) -> Result<Self, NoMemory> {
        Ok(Rows {
            rows: self.rows.try_clone(alloc)?,
            processes: self.processes.try_clone(alloc)?,
            told: self.told.try_clone(alloc)?,
            controllers: self.controllers,
        })
    }

    fn add(&mut self, alloc: Global, path: &Path, cgroup: Cgroup) -> Result<(), NoMemory> {
        let path = path.try_clone(alloc)?;
        self.rows.insert(path, cgroup)
    }

    fn tell(
        &mut self,
        alloc: Global,
        path: &Path,
        file: OtherFile,
        told: ToldFile,
    ) -> Result<(), NoMemory> {
        self.told.tell(alloc, path, file, told)
    }

    fn set_place(&mut self, alloc: Global, pid: Pid, path: &Path) -> Result<(), NoMemory> {
        let place = path.try_clone(alloc)?;
        self.processes.set_place(pid, place);
        Ok(())
    }

    fn add_process(
        &mut self,
        alloc: Global,
        pid: Pid,
        uid: u32,
        path: &Path,
    ) -> Result<(), NoMemory> {
        let place = path.try_clone(alloc)?;
        self.processes.insert(pid, Process { uid, place })
    }
}
