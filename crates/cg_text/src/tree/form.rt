//! The form of a document: the keys of its tables, and the types of what stands at them.
ghost use Rattle.std.specs.Prelude.{◌≡◌, ◌≤◌, ◌<◌, ◌+◌, length, map, is_some};
ghost use Rattle.std.specs.List.{list_all};
ghost use Rattle.cg_model.specs.Clauses.{first, unless};
ghost use Rattle.toml.specs.Data.{Data, table, get_member};
ghost use Rattle.toml.specs.View.{view, table_view};
ghost use Rattle.cg_format.specs.declared.fault.TreeFault.TheVariants.{Shape};
ghost use Rattle.cg_cgroup.specs.Files.{entry_known_as};
ghost use Rattle.cg_format.specs.Form.{vocabulary, document_keys, owner_keys, limit_keys, file_keys_of, row_keys, live_keys, is_table};
ghost use Rattle.cg_format.specs.TextFaults.{each_cgroup, each_process, form_faults};
ghost use Rattle.cg_format.specs.TextOf.{IsInForm};
ghost use Rattle.cg_text.specs.Faults.{Passes};
ghost use Rattle.cg_text.specs.Keys.{flat_keys, takes, takes_as, allows, allows_table};

use crate::tree::said::{elements_at, format_at};
use crate::tree::takes::Takes;
use cg_cgroup::files::{EntryName, Vocabulary};
use cg_format::fault::{Place, TreeFault};
use cg_format::format::{Format, MOST_ROWS_OF_4};
use toml::{Table, Value};

/// The number of a row that stands at `index` in its array.
pub fn row_number(index: usize) -> u32
    requires { index < MOST_ROWS_OF_4 }
    ensures { result ≡ index + 1 }
{
    index as u32 + 1
}

/// A table in which no table stands.
#[derive(Clone, Copy, Debug, PartialEq, Eq)]
pub enum FlatTable {
    Document,
    Process,
    Owner(Format),
    Limit(Format),
    /// Of a limit file beyond `LimitFile`.
    Further(Format),
}

/// What a key of an owner, a group or a mode takes.
fn owner_takes(format: Format, key: &str) -> Option<Takes>
    ensures { (held : Data) → takes_as result held ≡ takes (owner_keys format) key.now held }
{
    match (format, key) {
        (_, "uid" | "mode") | (Format::Two | Format::Four, "gid") => Some(Takes::Integer),
        _ => None,
    }
}

/// What a key of a table of this kind takes; nothing where there is no such key.
pub fn flat_takes(kind: FlatTable, key: &str) -> Option<Takes>
    ensures { (held : Data) → takes_as result held ≡ takes (flat_keys kind) key.now held }
{
    match (kind, key) {
        (FlatTable::Document, "format") => Some(Takes::Integer),
        (FlatTable::Document, "controllers") => Some(Takes::Texts),
        (FlatTable::Document, "cgroup" | "process") => Some(Takes::Tables),
        (FlatTable::Process, "pid" | "uid") => Some(Takes::Integer),
        (FlatTable::Process, "at") => Some(Takes::Text),
        (FlatTable::Limit(_), "value") => Some(Takes::Value),
        (FlatTable::Further(_), "value") => Some(Takes::Lines),
        (FlatTable::Owner(format) | FlatTable::Limit(format) | FlatTable::Further(format), _) =>
            owner_takes(format, key),
        _ => None,
    }
}

/// Whether a table of this kind may have a value at a key.
fn takes_flat(kind: FlatTable, key: &str, value: &Value) -> bool
    ensures { result ≡ takes (flat_keys kind) key.now (view value.now) }
{
    match flat_takes(kind, key) {
        None => false,
        Some(takes) => takes.fits(value),
    }
}

/// Whether a table has only what its kind may have.
fn is_flat(kind: FlatTable, table: &Table) -> bool
    ensures { result ≡ allows (flat_keys kind) (table_view table.now) }
{
    for (key, value) in table {
        if !takes_flat(kind, key.as_str(), value) {
            return false;
        }
    }
    true
}

/// Whether a value is a table of this kind, none of whose keys has to be there.
fn is_entry(kind: FlatTable, value: &Value) -> bool
    ensures { result ≡ allows_table (flat_keys kind) (view value.now) }
{
    match value {
        Value::Table(table) => is_flat(kind, table),
        _ => false,
    }
}

/// The entry that a name means in a format.
fn entry_at(format: Format, key: &str) -> Option<EntryName>
    ensures { result ≡ entry_known_as (vocabulary format) key.now }
{
    match format.vocabulary() {
        Vocabulary::Format2 => EntryName::in_format_2(key),
        Vocabulary::Format4 => EntryName::from_name(key),
    }
}

/// Whether a table of files may have a value at a key.
#[tactic(auto, using(crate::proofs::TakesLaws::of_entries))]
fn takes_file(format: Format, key: &str, value: &Value) -> bool
    ensures { result ≡ takes (file_keys_of format) key.now (view value.now) }
{
    match entry_at(format, key) {
        None | Some(EntryName::Dir) => false,
        Some(EntryName::Procs) => is_entry(FlatTable::Owner(format), value),
        Some(EntryName::SubtreeControl) => is_entry(FlatTable::Owner(format), value),
        Some(EntryName::File(_)) => is_entry(FlatTable::Limit(format), value),
        Some(EntryName::Other(_)) => is_entry(FlatTable::Further(format), value),
    }
}

/// Whether a table of files has only what it may have.
fn files_fit(format: Format, table: &Table) -> bool
    ensures { result ≡ allows (file_keys_of format) (table_view table.now) }
{
    for (key, value) in table {
        if !takes_file(format, key.as_str(), value) {
            return false;
        }
    }
    true
}

fn are_files(format: Format, value: &Value) -> bool
    ensures { result ≡ is_table (file_keys_of format) (view value.now) }
{
    match value {
        Value::Table(table) => files_fit(format, table),
        _ => false,
    }
}

/// Whether a cgroup's table may have a value at a key.
#[tactic(auto, using(crate::proofs::TakesLaws::owner_allowed))]
fn takes_row(format: Format, key: &str, value: &Value) -> bool
    ensures { result ≡ takes (row_keys format) key.now (view value.now) }
{
    match key {
        "path" => Takes::Text.fits(value),
        "enabled" => Takes::Texts.fits(value),
        "dir" => is_entry(FlatTable::Owner(format), value),
        "files" => are_files(format, value),
        _ => false,
    }
}

/// Whether a cgroup's table has only what it may have.
fn row_fits(format: Format, table: &Table) -> bool
    ensures { result ≡ allows (row_keys format) (table_view table.now) }
{
    for (key, value) in table {
        if !takes_row(format, key.as_str(), value) {
            return false;
        }
    }
    true
}

fn has_key(table: &Table, key: &str) -> bool
    ensures { result ≡ is_some (get_member key.now (table_view table.now)) }
{
    table.contains_key(key)
}

/// Whether a value is a cgroup's table.
fn is_cgroup(format: Format, value: &Value) -> bool
    ensures { result ≡ is_table (row_keys format) (view value.now) }
{
    match value {
        Value::Table(table) => row_fits(format, table) && has_key(table, "path"),
        _ => false,
    }
}

/// Whether a value is a process's table.
fn is_process(value: &Value) -> bool
    ensures { result ≡ is_table live_keys (view value.now) }
{
    match value {
        Value::Table(table) => {
            is_flat(FlatTable::Process, table)
                && has_key(table, "pid")
                && has_key(table, "uid")
                && has_key(table, "at")
        }
        _ => false,
    }
}

/// Whether a document has the keys of the top table.
fn is_document(document: &Table) -> bool
    ensures { result ≡ is_table document_keys (table (table_view document.now)) }
{
    is_flat(FlatTable::Document, document)
        && has_key(document, "format")
        && has_key(document, "controllers")
}

/// Tests the form of each cgroup.
fn cgroups_in_form(format: Format, cgroups: &[Value]) -> Result<(), TreeFault>
    requires { length cgroups.now ≤ MOST_ROWS_OF_4 }
    ensures { Passes (λ _. Unit {0})
        (first (each_cgroup (λ _ place held. unless (is_table (row_keys format) held) (Shape place)) (map view cgroups.now))) result }
{
    for (index, row) in cgroups.iter().enumerate() {
        if !is_cgroup(format, row) {
            return Err(TreeFault::Shape(Place::Cgroup(row_number(index))));
        }
    }
    Ok(())
}

/// Tests the form of each process.
fn processes_in_form(processes: &[Value]) -> Result<(), TreeFault>
    requires { length processes.now ≤ MOST_ROWS_OF_4 }
    ensures { Passes (λ _. Unit {0})
        (first (each_process (λ _ place held. unless (is_table live_keys held) (Shape place)) (map view processes.now))) result }
{
    for (index, row) in processes.iter().enumerate() {
        if !is_process(row) {
            return Err(TreeFault::Shape(Place::Process(row_number(index))));
        }
    }
    Ok(())
}

/// The format of a document that is in form, or the first fault of its form.
pub fn in_form(document: &Table) -> Result<Format, TreeFault>
    ensures { Passes (λ format. IsInForm format (table_view document.now)) (first (form_faults (table_view document.now))) result }
{
    if !is_document(document) {
        return Err(TreeFault::Shape(Place::Top));
    }
    let format = format_at(document).ok_or(TreeFault::Format)?;
    let cgroups = elements_at(document, "cgroup");
    let processes = elements_at(document, "process");
    let most = format.most_rows();
    if cgroups.len() > most || processes.len() > most {
        return Err(TreeFault::TooMany);
    }
    cgroups_in_form(format, cgroups)?;
    processes_in_form(processes)?;
    Ok(format)
}
