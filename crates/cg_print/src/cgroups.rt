//! The tables of cgroups.
ghost use Rattle.std.specs.Prelude.{◌≡◌, true, OnOk, IfOk, Some, option_copied};
ghost use Rattle.std.specs.Option.{option_map};
ghost use Rattle.std.specs.List.{AllByRecursion};
ghost use Rattle.toml.specs.Data.{array, table};
ghost use Rattle.toml.specs.View.{view, items_of, table_view};
ghost use Rattle.cg_cgroup.specs.Files.{accepts, all_files};
ghost use Rattle.cg_cgroup.specs.Cgroups.{file_of};
ghost use Rattle.cg_cgroup.specs.declared.cgroup.Cgroup.{Cgroup};
ghost use Rattle.cg_cgroup.specs.declared.cgroup.LimitEntry.{LimitEntry};
ghost use Rattle.cg_cgroup.specs.declared.files.LimitFile.{LimitFile};
ghost use Rattle.cg_model.specs.States.{row_at};
ghost use Rattle.cg_model.specs.WellFormed.{has_row};
ghost use Rattle.cg_print.specs.Carried.{HasIds, FileHasIds, AllHaveIds, IsNamedRow, AreNamedRows};
ghost use Rattle.cg_print.specs.Documents.{entry_table, value_written, limit_table, with_file, limits_table, files_table, told_of, cgroup_table, cgroups_written};

use crate::keys::{id_value, names_array, path_value, put};
use crate::told::with_all_told;
use cg_cgroup::cgroup::{Cgroup, LimitEntry};
use cg_cgroup::files::{Limit, LimitFile, Vocabulary};
use cg_cgroup::memory::NoMemory;
use cg_cgroup::path::Path;
use cg_cgroup::told::ToldFiles;
use cg_cgroup::user::Entry;
use cg_model::hierarchy::Hierarchy;
use std::alloc::Global;
use toml::{Table, Value};

/// The table of an owner, a group and a mode.
#[tactic(auto, unfolding(crate::specs::Documents::entry_table))]
pub(crate) fn entry_table(alloc: Global, entry: Entry) -> Result<Table, NoMemory>
    ensures written { IfOk result (λ keys. table_view keys ≡ entry_table entry) }
    ensures ids { IfOk result (λ _. HasIds entry) }
{
    let mut keys = Table::new(alloc);
    put(alloc, &mut keys, "uid", id_value(entry.uid))?;
    put(alloc, &mut keys, "gid", id_value(entry.gid))?;
    put(alloc, &mut keys, "mode", Value::from(u32::from(entry.mode)))?;
    Ok(keys)
}

/// The value of a limit file: the text `max`, or a number.
fn limit_value(alloc: Global, file: LimitFile, value: Limit) -> Result<Value, NoMemory>
    requires { accepts file value ≡ true }
    ensures { IfOk result (λ written. view written ≡ value_written value) }
{
    match value {
        Limit::Max => Ok(Value::string(alloc, "max")?),
        Limit::At(amount) => Ok(Value::Integer(amount as i64)),
    }
}

/// The table of a limit file, whose value is one that it accepts.
#[tactic(auto, unfolding(crate::specs::Documents::limit_table))]
fn limit_table(alloc: Global, file: LimitFile, held: LimitEntry) -> Result<Table, NoMemory>
    requires { accepts file held.value ≡ true }
    ensures written { IfOk result (λ keys. table_view keys ≡ limit_table held) }
    ensures ids { IfOk result (λ _. HasIds held.entry) }
{
    let mut keys = entry_table(alloc, held.entry)?;
    put(
        alloc,
        &mut keys,
        "value",
        limit_value(alloc, file, held.value)?,
    )?;
    Ok(keys)
}

/// Writes a limit file, where it stands.
#[tactic(auto, unfolding(crate::specs::Keys::with_optional))]
fn put_file(
    alloc: Global,
    keys: &mut Table,
    cgroup: &Cgroup,
    file: LimitFile,
) -> Result<(), NoMemory>
    requires { (held : LimitEntry) → file_of cgroup.now file ≡ Some held → accepts file held.value ≡ true }
    ensures written { OnOk result (table_view keys.new ≡ with_file cgroup.now (table_view keys.old) file) }
    ensures ids { OnOk result (FileHasIds cgroup.now file) }
{
    if let Some(held) = cgroup.file(file) {
        put(
            alloc,
            keys,
            file.name(),
            Value::Table(limit_table(alloc, file, held)?),
        )?;
    }
    Ok(())
}

/// The table of a cgroup's control files and those of its eight limit files that stand, whose values are ones that they accept.
fn limits_table(alloc: Global, cgroup: &Cgroup) -> Result<Table, NoMemory>
    requires { (file : LimitFile) (held : LimitEntry) → file_of cgroup.now file ≡ Some held → accepts file held.value ≡ true }
    ensures written { IfOk result (λ keys. table_view keys ≡ limits_table cgroup.now) }
    ensures procs { IfOk result (λ _. HasIds cgroup.now.procs) }
    ensures subtree_control { IfOk result (λ _. HasIds cgroup.now.subtree_control) }
    ensures files { IfOk result (λ _. AllByRecursion (FileHasIds cgroup.now) all_files) }
{
    let mut keys = Table::new(alloc);
    let procs = entry_table(alloc, cgroup.procs)?;
    put(alloc, &mut keys, "cgroup.procs", Value::Table(procs))?;
    let subtree_control = entry_table(alloc, cgroup.subtree_control)?;
    put(
        alloc,
        &mut keys,
        "cgroup.subtree_control",
        Value::Table(subtree_control),
    )?;
    for file in LimitFile::ALL {
        put_file(alloc, &mut keys, cgroup, file)?;
    }
    Ok(keys)
}

/// The table of a cgroup's files, whose values are ones that they accept, with what is told of its further limit files.
#[tactic(auto, unfolding(crate::specs::Documents::files_table))]
fn files_table(alloc: Global, cgroup: &Cgroup, told: Option<&ToldFiles>) -> Result<Table, NoMemory>
    requires { (file : LimitFile) (held : LimitEntry) → file_of cgroup.now file ≡ Some held → accepts file held.value ≡ true }
    ensures written { IfOk result (λ keys. table_view keys ≡ files_table cgroup.now (option_copied told.entry)) }
    ensures procs { IfOk result (λ _. HasIds cgroup.now.procs) }
    ensures subtree_control { IfOk result (λ _. HasIds cgroup.now.subtree_control) }
    ensures files { IfOk result (λ _. AllByRecursion (FileHasIds cgroup.now) all_files) }
    ensures told { IfOk result (λ _. AllHaveIds (option_copied told.entry)) }
{
    let keys = limits_table(alloc, cgroup)?;
    match told {
        Some(files) => with_all_told(alloc, keys, files),
        None => Ok(keys),
    }
}

/// The table of a cgroup, whose files' values are ones that they accept.
#[tactic(auto, unfolding(crate::specs::Documents::cgroup_table))]
fn cgroup_table(
    alloc: Global,
    vocabulary: Vocabulary,
    path: &Path,
    cgroup: &Cgroup,
    told: Option<&ToldFiles>,
) -> Result<Table, NoMemory>
    requires { (file : LimitFile) (held : LimitEntry) → file_of cgroup.now file ≡ Some held → accepts file held.value ≡ true }
    ensures written { IfOk result (λ keys. table_view keys ≡ cgroup_table vocabulary path.now cgroup.now (option_copied told.entry)) }
    ensures named { IfOk result (λ _. IsNamedRow path.now cgroup.now (option_copied told.entry)) }
{
    let mut keys = Table::new(alloc);
    put(alloc, &mut keys, "path", path_value(alloc, path)?)?;
    put(
        alloc,
        &mut keys,
        "enabled",
        names_array(alloc, vocabulary, cgroup.enabled)?,
    )?;
    let dir = entry_table(alloc, cgroup.dir)?;
    put(alloc, &mut keys, "dir", Value::Table(dir))?;
    let files = files_table(alloc, cgroup, told)?;
    put(alloc, &mut keys, "files", Value::Table(files))?;
    Ok(keys)
}

/// What is told of the further limit files of a cgroup; format 2 doesn't name them.
fn told_of<'a, H: Hierarchy>(
    vocabulary: Vocabulary,
    tree: &'a H,
    path: &Path,
) -> Option<&'a ToldFiles>
    ensures { option_copied result ≡ told_of vocabulary (H.state tree.now) path.now }
{
    match vocabulary {
        Vocabulary::Format2 => None,
        Vocabulary::Format4 => tree.told(path, path.depth()),
    }
}

/// The table of the cgroup at a path of a tree.
fn cgroup_value<H: Hierarchy>(
    alloc: Global,
    vocabulary: Vocabulary,
    tree: &H,
    path: &Path,
) -> Result<Value, NoMemory>
    requires { has_row (H.state tree.now) path.now ≡ true }
    ensures written { IfOk result (λ value. Some (view value)
        ≡ option_map (λ row. table (cgroup_table vocabulary path.now row (told_of vocabulary (H.state tree.now) path.now)))
        (row_at (H.state tree.now) path.now)) }
    ensures named { IfOk result (λ _. (row : Cgroup) → row_at (H.state tree.now) path.now ≡ Some row
        → IsNamedRow path.now row (told_of vocabulary (H.state tree.now) path.now)) }
{
    let Some(cgroup) = tree.get(path, path.depth()) else {
        unreachable!()
    };
    let told = told_of(vocabulary, tree, path);
    Ok(Value::Table(cgroup_table(alloc, vocabulary, path, cgroup, told)?))
}

/// The tables of a tree's cgroups, in the order of their paths. Fails where memory is wanted.
pub(crate) fn cgroups_array<H: Hierarchy>(
    alloc: Global,
    vocabulary: Vocabulary,
    tree: &H,
) -> Result<Value, NoMemory>
    ensures written { IfOk result (λ value. view value ≡ array (items_of (cgroups_written vocabulary (H.state tree.now)))) }
    ensures named { IfOk result (λ _. AreNamedRows vocabulary (H.state tree.now)) }
{
    let paths = tree.paths(alloc)?;
    let mut values = Vec::new(alloc);
    for path in &paths {
        values.push(cgroup_value(alloc, vocabulary, tree, path)?)?;
    }
    Ok(Value::Array(values))
}
