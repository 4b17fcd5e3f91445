//! The processes of a tree.
ghost use Rattle.std.specs.Prelude.{◌≡◌, ◌≤◌, ◌<◌, ◌^◌, true, false, option_copied, is_some, OnOk, OnErr, IfOk};
ghost use Rattle.std.specs.Option.{option_map};
ghost use Rattle.std.specs.Coded.{codes};
ghost use Rattle.std.specs.FinMap as map;
ghost use Rattle.std.specs.FinSet as set;
ghost use Rattle.cg_rows.specs.Processes.{LiveAndUsed, no_processes, with_new, without, with_place_of};

use crate::tables::TryClone;
use cg_cgroup::memory::NoMemory;
use cg_cgroup::path::Path;
use cg_cgroup::process::{Pid, Process};
use std::alloc::Global;
use std::collections::btree_map::Iter;
use std::collections::{BTreeMap, BTreeSet};
use std::marker::Model;

/// The live processes by PID, and every PID that was ever used.
#[derive(Drop)]
pub struct Processes {
    live: BTreeMap<Pid, Process>,
    used: BTreeSet<Pid>,
}

impl Model for Processes {
    ghost Value = { LiveAndUsed };

    ghost coded = { Prim.hlevel (codes, map.code, set.code) };

    ghost view = { λ p. record { live = map.from_entries p.live.entries; used = set.from_list p.used.keys } };
}

impl Processes {
    /// No processes, and no PID that was used.
    pub fn new(alloc: Global) -> Self
        ensures { result ≡ no_processes }
    {
        Self {
            live: BTreeMap::new(alloc),
            used: BTreeSet::new(alloc),
        }
    }

    /// These live processes and used PIDs.
    pub fn from_maps(live: BTreeMap<Pid, Process>, used: BTreeSet<Pid>) -> Self
        ensures live { result.live ≡ map.from_entries live.entries }
        ensures used { result.used ≡ set.from_list used.keys }
    {
        Self { live, used }
    }

    /// A number of processes, no fewer than are live.
    pub fn size(&self) -> usize
        ensures bound { map.len self.now.live ≤ result }
        ensures small { result < 2 ^ 63 }
    {
        self.live.len()
    }

    /// A live process.
    pub fn get(&self, pid: Pid) -> Option<&Process>
        ensures { option_copied result ≡ map.get self.now.live pid }
    {
        self.live.get(&pid)
    }

    /// Where a live process is.
    pub fn place(&self, pid: Pid) -> Option<&Path>
        ensures { option_copied result ≡ option_map (λ process. process.place) (map.get self.now.live pid) }
    {
        match self.get(pid) {
            Some(process) => Some(&process.place),
            None => None,
        }
    }

    /// The uid of a live process.
    pub fn owner(&self, pid: Pid) -> Option<u32>
        ensures { result ≡ option_map (λ process. process.uid) (map.get self.now.live pid) }
    {
        match self.get(pid) {
            Some(process) => Some(process.uid),
            None => None,
        }
    }

    /// Whether a PID was ever used.
    pub fn is_used(&self, pid: Pid) -> bool
        ensures { result ≡ set.contains self.now.used pid }
    {
        self.used.contains(&pid)
    }

    /// The live processes, their PIDs rising.
    pub fn iter(&self) -> Iter<'_, Pid, Process>
        ensures { result ≡ map.entries self.now.live }
    {
        self.live.iter()
    }

    /// The live PIDs, rising. Fails where memory is wanted.
    pub fn pids(&self, alloc: Global) -> Result<Vec<Pid>, NoMemory>
        ensures { IfOk result (λ pids. pids.items ≡ map.keys self.now.live) }
    {
        Ok(self.live.keys().copied().collect(alloc)?)
    }

    /// Adds a live process with a PID that was never used. Fails where memory is wanted, and then nothing changes.
    pub fn insert(&mut self, pid: Pid, process: Process) -> Result<(), NoMemory>
        requires { set.contains self.old.used pid ≡ false }
        ensures ok { OnOk result (self.new ≡ with_new self.old pid process) }
        ensures err { OnErr result (self.new ≡ self.old) }
    {
        self.used.insert(pid)?;
        match self.live.insert(pid, process) {
            Ok(_) => Ok(()),
            Err(_) => {
                self.used.remove(&pid);
                Err(NoMemory)
            }
        }
    }

    /// Ends a process. Its PID stays used.
    pub fn end(&mut self, pid: Pid)
        ensures { self.new ≡ without self.old pid }
    {
        self.live.remove(&pid);
    }

    /// Puts a live process elsewhere.
    pub fn set_place(&mut self, pid: Pid, place: Path)
        requires { is_some (map.get self.old.live pid) ≡ true }
        ensures { self.new ≡ with_place_of self.old pid place }
    {
        let Some(process) = self.live.get_mut(&pid) else {
            unreachable!()
        };
        process.place = place;
    }

    /// Equal processes. Fails where memory is wanted.
    pub fn try_clone(&self, alloc: Global) -> Result<Self, NoMemory>
        ensures { IfOk result (λ copy. copy ≡ self.now) }
    {
        let mut live = BTreeMap::new(alloc);
        for (pid, process) in &self.live {
            live.insert(*pid, process.try_clone(alloc)?)?;
        }
        Ok(Self {
            live,
            used: self.used.clone()?,
        })
    }
}
