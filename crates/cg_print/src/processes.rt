//! The tables of processes.
ghost use Rattle.std.specs.Prelude.{◌≡◌, true, IfOk, Some, is_some};
ghost use Rattle.std.specs.Option.{option_map};
ghost use Rattle.std.specs.FinMap as map;
ghost use Rattle.toml.specs.Data.{array, table};
ghost use Rattle.toml.specs.View.{view, items_of, table_view};
ghost use Rattle.cg_cgroup.specs.declared.process.Process.{Process};
ghost use Rattle.cg_model.specs.States.{process_at};
ghost use Rattle.cg_print.specs.Carried.{IsNamedProcess, AreNamedProcesses};
ghost use Rattle.cg_print.specs.Documents.{process_table, processes_written};

use crate::keys::{id_value, path_value, put};
use cg_cgroup::memory::NoMemory;
use cg_cgroup::path::Path;
use cg_cgroup::process::Pid;
use cg_model::hierarchy::Hierarchy;
use std::alloc::Global;
use toml::{Table, Value};

/// The table of a process.
fn process_table(alloc: Global, pid: Pid, uid: u32, place: &Path) -> Result<Table, NoMemory>
    ensures written { IfOk result (λ keys. table_view keys ≡ process_table pid (record { uid = uid; place = place.now })) }
    ensures named { IfOk result (λ _. IsNamedProcess pid (record { uid = uid; place = place.now })) }
{
    let mut keys = Table::new(alloc);
    put(alloc, &mut keys, "pid", Value::from(pid.get()))?;
    put(alloc, &mut keys, "uid", id_value(uid))?;
    put(alloc, &mut keys, "at", path_value(alloc, place)?)?;
    Ok(keys)
}

/// The table of a live process of a tree.
fn process_value<H: Hierarchy>(alloc: Global, tree: &H, pid: Pid) -> Result<Value, NoMemory>
    requires { is_some (process_at (H.state tree.now) pid) ≡ true }
    ensures written { IfOk result (λ value. Some (view value)
        ≡ option_map (λ process. table (process_table pid process)) (process_at (H.state tree.now) pid)) }
    ensures named { IfOk result (λ _. (process : Process) → process_at (H.state tree.now) pid ≡ Some process → IsNamedProcess pid process) }
{
    let Some(uid) = tree.owner(pid) else {
        unreachable!()
    };
    let Some(place) = tree.place(pid) else {
        unreachable!()
    };
    Ok(Value::Table(process_table(alloc, pid, uid, place)?))
}

/// The tables of a tree's live processes, by rising PIDs. Fails where memory is wanted.
pub(crate) fn processes_array<H: Hierarchy>(alloc: Global, tree: &H) -> Result<Value, NoMemory>
    ensures written { IfOk result (λ value. view value ≡ array (items_of (processes_written (H.state tree.now)))) }
    ensures named { IfOk result (λ _. AreNamedProcesses (map.entries (H.state tree.now).live)) }
{
    let pids = tree.pids(alloc)?;
    let mut values = Vec::new(alloc);
    for pid in &pids {
        values.push(process_value(alloc, tree, *pid)?)?;
    }
    Ok(Value::Array(values))
}
