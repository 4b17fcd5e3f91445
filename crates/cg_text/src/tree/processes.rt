//! The processes of a tree text.
ghost use Rattle.std.specs.Prelude.{◌≡◌, ◌≤◌, true, List, length, map, filter_map, is_some, Some, codes};
ghost use Rattle.std.specs.Ordering.{nat_cmp};
ghost use Rattle.std.specs.BTreeMap.{get, BTreeMap};
ghost use Rattle.std.specs.List.{list_all};
ghost use Rattle.toml.specs.Data.{Members, as_table};
ghost use Rattle.toml.specs.View.{view, table_view};
ghost use Rattle.cg_cgroup.specs.Paths.{path_at};
ghost use Rattle.cg_model.specs.Clauses.{first};
ghost use Rattle.cg_format.specs.Said.{pid_said, uid_said, path_said};
ghost use Rattle.cg_format.specs.declared.format.TheConstants.{MOST_ROWS_OF_4};
ghost use Rattle.cg_format.specs.TextFaults.{each_process, process_faults};
ghost use Rattle.cg_text.specs.Faults.{Passes};
ghost use Rattle.cg_format.specs.Tables.{IsAmong, IsLive, AreProcesses};
ghost use Rattle.cg_text.specs.Live.{AreEarlier, AreLive, place_faults};

use crate::tree::form::row_number;
use crate::tree::said::{id_read, integer_at, path_at, pid_read};
use crate::tree::walk::is_root;
use cg_cgroup::cgroup::Cgroup;
use cg_cgroup::path::Path;
use cg_cgroup::process::{Pid, Process};
use cg_format::fault::{Place, TreeFault};
use cg_rows::processes::Processes;
use cg_rows::tables::path_table::PathTable;
use std::alloc::Global;
use std::collections::{BTreeMap, BTreeSet};
use toml::{Table, Value};

fn pid_of(row: &Table) -> Option<Pid>
    ensures { result ≡ pid_said (table_view row.now) }
{
    pid_read(integer_at(row, "pid")?)
}

fn uid_of(row: &Table) -> Option<u32>
    ensures { result ≡ uid_said (table_view row.now) }
{
    id_read(Some(integer_at(row, "uid")?))
}

/// The place of a process: a cgroup that may hold processes.
fn place_of(
    alloc: Global,
    cgroups: &PathTable<Cgroup>,
    row: &Table,
    place: Place,
) -> Result<Path, TreeFault>
    ensures { (tables : List Members) → IsAmong tables cgroups.now
        → Passes (λ at. path_said (codes "at") (table_view row.now) ≡ Some at) (first (place_faults tables place (table_view row.now))) result }
{
    let nowhere = TreeFault::NoSuchPlace(place);
    let at = path_at(alloc, row, "at", nowhere)?;
    let Some(cgroup) = cgroups.get(&at, at.depth()) else {
        return Err(nowhere);
    };
    if !is_root(&at) && !cgroup.enabled.is_empty() {
        return Err(TreeFault::InternalProcess(place));
    }
    Ok(at)
}

/// The process of a table, behind those before it, or its first fault.
fn process_of(
    alloc: Global,
    cgroups: &PathTable<Cgroup>,
    live: &BTreeMap<Pid, Process>,
    row: &Table,
    place: Place,
) -> Result<(Pid, Process), TreeFault>
    ensures { (tables earlier : List Members) → IsAmong tables cgroups.now → AreEarlier earlier live.now
        → Passes (IsLive (table_view row.now)) (first (process_faults tables earlier place (table_view row.now))) result }
{
    let pid = pid_of(row).ok_or(TreeFault::BadPid(place))?;
    let uid = uid_of(row).ok_or(TreeFault::BadEntry(place))?;
    if live.contains_key(&pid) {
        return Err(TreeFault::DuplicatePid(place));
    }
    let place = place_of(alloc, cgroups, row, place)?;
    Ok((pid, Process { uid, place }))
}

/// The processes of tables, or the first fault of the first that has one.
fn live_of(
    alloc: Global,
    cgroups: &PathTable<Cgroup>,
    elements: &[Value],
) -> Result<BTreeMap<Pid, Process>, TreeFault>
    requires few { length elements.now ≤ MOST_ROWS_OF_4 }
    requires tables { list_all (λ held. is_some (as_table (view held))) elements.now ≡ true }
    ensures { (tables : List Members) → IsAmong tables cgroups.now
        → Passes (AreLive (filter_map as_table (map view elements.now)))
        (first (each_process (process_faults tables) (filter_map as_table (map view elements.now)))) result }
{
    let mut live = BTreeMap::new(alloc);
    for (index, element) in elements.iter().enumerate() {
        let Some(row) = element.as_table() else {
            unreachable!()
        };
        let place = Place::Process(row_number(index));
        let (pid, process) = process_of(alloc, cgroups, &live, row, place)?;
        live.insert(pid, process)?;
    }
    Ok(live)
}

/// The processes of tables, whose PIDs are the used ones, or the first fault of the first table that has one.
pub fn processes_of(
    alloc: Global,
    cgroups: &PathTable<Cgroup>,
    elements: &[Value],
) -> Result<Processes, TreeFault>
    requires few { length elements.now ≤ MOST_ROWS_OF_4 }
    requires tables { list_all (λ held. is_some (as_table (view held))) elements.now ≡ true }
    ensures { (tables : List Members) → IsAmong tables cgroups.now
        → Passes (λ all. AreProcesses (filter_map as_table (map view elements.now)) all.live all.used)
        (first (each_process (process_faults tables) (filter_map as_table (map view elements.now)))) result }
{
    let live = live_of(alloc, cgroups, elements)?;
    let used: BTreeSet<Pid> = live.keys().copied().collect(alloc)?;
    Ok(Processes::from_maps(live, used))
}
