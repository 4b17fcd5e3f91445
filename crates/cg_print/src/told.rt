//! What is told of the further limit files of a cgroup.
ghost use Rattle.std.specs.Prelude.{◌≡◌, ◌==◌, fold, map, OnOk, IfOk, Some};
ghost use Rattle.std.specs.List.{AllByRecursion, slice_split};
ghost use Rattle.toml.specs.Data.{string};
ghost use Rattle.toml.specs.View.{view, table_view};
ghost use Rattle.cg_cgroup.specs.Files.{all_others};
ghost use Rattle.cg_print.specs.Carried.{HasIds, ToldHasIds};
ghost use Rattle.cg_print.specs.Documents.{text_written, told_table, with_told};

use crate::cgroups::entry_table;
use crate::keys::put;
use cg_cgroup::memory::NoMemory;
use cg_cgroup::other_file::OtherFile;
use cg_cgroup::told::{FileText, ToldFile, ToldFiles};
use std::alloc::Global;
use toml::{Table, Value};

/// The lines of a text. Fails where memory is wanted.
fn line_values(alloc: Global, text: &str) -> Result<Vec<Value>, NoMemory>
    ensures { IfOk result (λ values. map view values.items ≡ map string (slice_split (λ b. b == 10) text.now)) }
{
    let mut values = Vec::new(alloc);
    for line in text.split('\n') {
        values.push(Value::string(alloc, line)?)?;
    }
    Ok(values)
}

/// The value of a further limit file: a text where it is one line, and an array of texts where it is several.
fn text_value(alloc: Global, text: &FileText) -> Result<Value, NoMemory>
    ensures { IfOk result (λ written. view written ≡ text_written text.now) }
{
    let mut lines = line_values(alloc, &text.text)?;
    if lines.len() == 1 {
        Ok(lines.remove(0))
    } else {
        Ok(Value::Array(lines))
    }
}

/// The table of a further limit file. Its value stands there only where one is told.
#[tactic(auto, unfolding(crate::specs::Documents::told_table, crate::specs::Keys::with_optional))]
fn told_table(alloc: Global, told: &ToldFile) -> Result<Table, NoMemory>
    ensures written { IfOk result (λ keys. table_view keys ≡ told_table told.now) }
    ensures ids { IfOk result (λ _. HasIds told.now.entry) }
{
    let mut keys = entry_table(alloc, told.entry)?;
    if let Some(value) = &told.value {
        put(alloc, &mut keys, "value", text_value(alloc, value)?)?;
    }
    Ok(keys)
}

/// Writes a further limit file, where something is told of it.
#[tactic(auto, unfolding(crate::specs::Keys::with_optional))]
fn put_told(
    alloc: Global,
    keys: &mut Table,
    files: &ToldFiles,
    file: OtherFile,
) -> Result<(), NoMemory>
    ensures written { OnOk result (table_view keys.new ≡ with_told files.now (table_view keys.old) file) }
    ensures ids { OnOk result (ToldHasIds files.now file) }
{
    if let Some(told) = files.get(file) {
        put(
            alloc,
            keys,
            file.name(),
            Value::Table(told_table(alloc, told)?),
        )?;
    }
    Ok(())
}

/// A table with the further limit files of which something is told. Fails where memory is wanted.
pub(crate) fn with_all_told(
    alloc: Global,
    keys: Table,
    files: &ToldFiles,
) -> Result<Table, NoMemory>
    ensures written { IfOk result (λ all. table_view all ≡ fold (with_told files.now) (table_view keys) all_others) }
    ensures ids { IfOk result (λ _. AllByRecursion (ToldHasIds files.now) all_others) }
{
    let mut all = keys;
    for file in OtherFile::ALL {
        put_told(alloc, &mut all, files, file)?;
    }
    Ok(all)
}
