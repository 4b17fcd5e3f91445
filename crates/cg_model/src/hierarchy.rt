//! `Hierarchy`: a tree of cgroups with its processes, however it is kept.
ghost use Rattle.std.specs.Prelude.{◌≡◌, ◌≤◌, true, false, length, take, OnOk, OnErr, IfOk, MatchOption, option_copied, is_some};
ghost use Rattle.cg_model.specs.States.{State, row_at, process_at, place_at, owner_at, is_used, has_child, has_live, child_enables, count_below, depth_below, paths_of, pids_of, file_at, entry_at, telling_of, with_row, without_row, with_value, with_mode, with_enabled, with_place, with_process, without_process};
ghost use Rattle.cg_model.specs.WellFormed.{IsWellFormed, has_row, may_hold, MayEnable};
ghost use Rattle.cg_model.specs.NearestFull.{NoneIsFull, IsNearestFull};
ghost use Rattle.cg_model.specs.Receiving.{receivers};
ghost use Rattle.cg_cgroup.specs.Paths.{is_root};
ghost use Rattle.std.specs.FinMap as map;
ghost use Rattle.cg_cgroup.specs.Files.{accepts, is_beyond};

use cg_cgroup::cgroup::Cgroup;
use cg_cgroup::files::{Controller, ControllerSet, EntryName, Limit, LimitFile};
use cg_cgroup::memory::NoMemory;
use cg_cgroup::other_file::OtherFile;
use cg_cgroup::path::Path;
use cg_cgroup::process::Pid;
use cg_cgroup::told::{ToldFile, ToldFiles};
use cg_cgroup::user::{Mode, User};
use std::alloc::Global;

/// A tree of cgroups with its live processes, the PIDs that were ever used and the root's controllers.
///
/// A path and a number name the cgroup of that many first names; 0 names the root.
pub trait Hierarchy {
    /// What the tree holds.
    ghost state: { Self → State };

    /// The cgroup of the first `len` names of `path`.
    fn get(&self, path: &Path, len: usize) -> Option<&Cgroup>
        requires { len ≤ length path.now }
        ensures row { option_copied result ≡ row_at (state self.now) (take len path.now) }
        ensures formed { IsWellFormed (state self.now) };

    /// What is told of the limit files beyond `LimitFile` of the cgroup of the first `len` names of `path`.
    fn told(&self, path: &Path, len: usize) -> Option<&ToldFiles>
        requires { len ≤ length path.now }
        ensures told { option_copied result ≡ map.get (state self.now).told (take len path.now) }
        ensures formed { IsWellFormed (state self.now) };

    /// Where a live process is.
    fn place(&self, pid: Pid) -> Option<&Path>
        ensures place { option_copied result ≡ place_at (state self.now) pid }
        ensures formed { IsWellFormed (state self.now) };

    /// The uid of a live process.
    fn owner(&self, pid: Pid) -> Option<u32>
        ensures { result ≡ owner_at (state self.now) pid };

    /// Whether a PID was ever used.
    fn is_used(&self, pid: Pid) -> bool
        ensures { result ≡ is_used (state self.now) pid };

    /// The controllers that the root has.
    fn controllers(&self) -> ControllerSet
        ensures controllers { result ≡ (state self.now).controllers }
        ensures formed { IsWellFormed (state self.now) };

    /// Whether a cgroup has a child.
    fn has_child(&self, path: &Path, len: usize) -> bool
        requires within { len ≤ length path.now }
        requires there { has_row (state self.now) (take len path.now) ≡ true }
        ensures { result ≡ has_child (state self.now) (take len path.now) };

    /// Whether a live process is at a cgroup itself.
    fn has_live(&self, path: &Path, len: usize) -> bool
        requires within { len ≤ length path.now }
        requires there { has_row (state self.now) (take len path.now) ≡ true }
        ensures { result ≡ has_live (state self.now) (take len path.now) };

    /// Whether a child of a cgroup enables a controller.
    fn child_enables(&self, path: &Path, len: usize, controller: Controller) -> bool
        requires within { len ≤ length path.now }
        requires there { has_row (state self.now) (take len path.now) ≡ true }
        ensures { result ≡ child_enables (state self.now) (take len path.now) controller };

    /// How many cgroups lie below a cgroup, at any depth.
    fn count_below(&self, path: &Path, len: usize) -> u64
        requires within { len ≤ length path.now }
        requires there { has_row (state self.now) (take len path.now) ≡ true }
        ensures { result ≡ count_below (state self.now) (take len path.now) };

    /// How many levels the deepest cgroup below a cgroup lies below it; 0 where there is none.
    fn depth_below(&self, path: &Path, len: usize) -> u64
        requires within { len ≤ length path.now }
        requires there { has_row (state self.now) (take len path.now) ≡ true }
        ensures { result ≡ depth_below (state self.now) (take len path.now) };

    /// The nearest of a cgroup and those above it whose limits bar a new child of that cgroup, by its number of names.
    fn nearest_full(&self, path: &Path, len: usize) -> Option<usize>
        requires within { len ≤ length path.now }
        requires there { has_row (state self.now) (take len path.now) ≡ true }
        ensures { MatchOption
            result
            (NoneIsFull (state self.now) path.now len)
            (IsNearestFull (state self.now) path.now len) };

    /// Sets the value of a limit file that stands and accepts it.
    fn set_limit(&mut self, path: &Path, file: LimitFile, value: Limit)
        requires there { is_some (file_at (state self.old) path.now file) ≡ true }
        requires accepted { accepts file value ≡ true }
        ensures { state self.new ≡ with_value (state self.old) path.now file value };

    /// Sets what a cgroup enables for its children, and makes and removes their limit files.
    /// A file that stays is kept as it is; a new one belongs to the user and their primary group, or group 0.
    fn set_enabled(&mut self, path: &Path, enabled: ControllerSet, user: &User)
        requires there { has_row (state self.old) path.now ≡ true }
        requires keeps { MayEnable (state self.old) path.now enabled }
        ensures { state self.new ≡ with_enabled (state self.old) path.now enabled user.now };

    /// Sets the mode of an entry that is there and no limit file beyond `LimitFile`.
    fn set_mode(&mut self, path: &Path, name: EntryName, mode: Mode)
        requires there { is_some (entry_at (state self.old) path.now name) ≡ true }
        requires listed { is_beyond name ≡ false }
        ensures { state self.new ≡ with_mode (state self.old) path.now name mode };

    /// Removes a cgroup that isn't the root and has no child and no live process.
    fn remove(&mut self, path: &Path)
        requires there { has_row (state self.old) path.now ≡ true }
        requires not_root { is_root path.now ≡ false }
        requires no_child { has_child (state self.old) path.now ≡ false }
        requires no_process { has_live (state self.old) path.now ≡ false }
        ensures { state self.new ≡ without_row (state self.old) path.now };

    /// Ends a live process. Its PID stays used.
    fn end_process(&mut self, pid: Pid)
        requires { is_some (process_at (state self.old) pid) ≡ true }
        ensures { state self.new ≡ without_process (state self.old) pid };

    /// Every path of the tree, in order.
    fn paths(&self, alloc: Global) -> Result<Vec<Path>, NoMemory>
        ensures { IfOk result (λ paths. paths.items ≡ paths_of (state self.now)) };

    /// The paths of those cgroups to which a process may come, once it may pass, in order: the user writes the `cgroup.procs`, and
    /// processes may be there.
    fn receivers(&self, alloc: Global, user: &User) -> Result<Vec<Path>, NoMemory>
        ensures { IfOk result (λ paths. paths.items ≡ receivers (state self.now) user.now) };

    /// Every live PID, rising.
    fn pids(&self, alloc: Global) -> Result<Vec<Pid>, NoMemory>
        ensures { IfOk result (λ pids. pids.items ≡ pids_of (state self.now)) };

    /// An equal tree.
    fn try_clone(&self, alloc: Global) -> Result<Self, NoMemory>
        ensures { IfOk result (λ copy. state copy ≡ state self.now) };

    /// Adds a cgroup below one that is there.
    fn add(&mut self, alloc: Global, path: &Path, cgroup: Cgroup) -> Result<(), NoMemory>
        requires absent { has_row (state self.old) path.now ≡ false }
        requires keeps { IsWellFormed (with_row (state self.old) path.now cgroup) }
        ensures ok { OnOk result (state self.new ≡ with_row (state self.old) path.now cgroup) }
        ensures err { OnErr result (state self.new ≡ state self.old) };

    /// Tells of a limit file beyond `LimitFile` of a cgroup that is there.
    fn tell(
        &mut self,
        alloc: Global,
        path: &Path,
        file: OtherFile,
        told: ToldFile,
    ) -> Result<(), NoMemory>
        requires { IsWellFormed (telling_of (state self.old) path.now file told) }
        ensures ok { OnOk result (state self.new ≡ telling_of (state self.old) path.now file told) }
        ensures err { OnErr result (state self.new ≡ state self.old) };

    /// Moves a live process to a cgroup that may hold processes.
    fn set_place(&mut self, alloc: Global, pid: Pid, path: &Path) -> Result<(), NoMemory>
        requires live { is_some (process_at (state self.old) pid) ≡ true }
        requires may_hold { may_hold (state self.old) path.now ≡ true }
        ensures ok { OnOk result (state self.new ≡ with_place (state self.old) pid path.now) }
        ensures err { OnErr result (state self.new ≡ state self.old) };

    /// Adds a process with a PID that was never used.
    fn add_process(
        &mut self,
        alloc: Global,
        pid: Pid,
        uid: u32,
        path: &Path,
    ) -> Result<(), NoMemory>
        requires unused { is_used (state self.old) pid ≡ false }
        requires may_hold { may_hold (state self.old) path.now ≡ true }
        ensures ok { OnOk result (state self.new ≡ with_process (state self.old) pid uid path.now) }
        ensures err { OnErr result (state self.new ≡ state self.old) };
}
