//! What is wrong within a row: a key, an owner, a mode, a value, a controller.
use crate::tree::said::{elements_at, id_read, integer_at, limit_of, mode_read, table_at};
use crate::tree::told::keys::{Kind, misfit};
use crate::tree::told::texts::wrong_text;
use crate::tree::told::{At, Found, Wrong};
use cg_cgroup::files::{EntryName, LimitFile, Vocabulary};
use cg_format::fault::Place;
use cg_format::format::Format;
use toml::{Table, Value};

/// The first key that isn't in form: of the row, then of `dir`, of `files`, and of each file. Where format 2 has them all, format 1 has one not.
pub(super) fn misshapen<'d>(vocabulary: Vocabulary, place: Place, row: &'d Table) -> Found<'d> {
    if let Some((key, wrong)) = misfit(Kind::of_row(place), row) {
        return (At::key(key), wrong);
    }
    if let Some(found) = misfit_in(row, "dir", Kind::Dir) {
        return found;
    }
    if let Some(found) = misfit_in(row, "files", Kind::Files(vocabulary)) {
        return found;
    }
    match table_at(row, "files").and_then(misfit_of_file) {
        Some(found) => found,
        None => (At::row(), Wrong::NoGroups),
    }
}

/// The first key that isn't in form of the table at a key.
fn misfit_in<'d>(row: &'d Table, key: &'static str, kind: Kind) -> Option<Found<'d>> {
    let (inner, wrong) = misfit(kind, table_at(row, key)?)?;
    Some((At::inner(key, inner), wrong))
}

fn misfit_of_file<'d>(files: &'d Table) -> Option<Found<'d>> {
    for (name, value) in files {
        if let Some(table) = value.as_table() {
            if let Some((key, wrong)) = misfit(Kind::of_file(name.as_str()), table) {
                return Some((At::file(name.as_str(), key), wrong));
            }
        }
    }
    None
}

/// The first owner, group or mode that is out of range. Where none is in format 2, a mode has a bit that format 1 has not.
pub(super) fn bad_entry<'d>(place: Place, row: &'d Table) -> Found<'d> {
    let found = match place {
        Place::Process(_) => match bad_number(row) {
            Some((key, wrong)) => Some((At::key(key), wrong)),
            None => None,
        },
        _ => bad_entry_of(row),
    };
    match found {
        Some(found) => found,
        None => (At::row(), Wrong::NoGroupBit),
    }
}

fn bad_entry_of<'d>(row: &'d Table) -> Option<Found<'d>> {
    if let Some((key, wrong)) = table_at(row, "dir").and_then(bad_number) {
        return Some((At::inner("dir", key), wrong));
    }
    bad_entry_in(table_at(row, "files")?)
}

fn bad_entry_in<'d>(files: &'d Table) -> Option<Found<'d>> {
    for (name, value) in files {
        if let Some((key, wrong)) = value.as_table().and_then(bad_number) {
            return Some((At::file(name.as_str(), key), wrong));
        }
    }
    None
}

fn bad_number<'d>(entry: &'d Table) -> Option<(&'d str, Wrong<'d>)> {
    for key in ["uid", "gid", "mode"] {
        if let Some(number) = integer_at(entry, key) {
            if !is_in_range(key, number) {
                return Some((key, Wrong::OutOfRange(number)));
            }
        }
    }
    None
}

/// Whether an owner, a group or a mode of format 2 may have a number.
fn is_in_range(key: &str, number: i64) -> bool {
    if key == "mode" {
        mode_read(Format::Two, 0, Some(number)).is_some()
    } else {
        id_read(Some(number)).is_some()
    }
}

/// The first limit file that doesn't accept its value.
pub(super) fn bad_value<'d>(row: &'d Table) -> Option<Found<'d>> {
    for (name, value) in table_at(row, "files")? {
        if let Some(table) = value.as_table() {
            if let Some(wrong) = wrong_value(name.as_str(), table) {
                return Some((At::file(name.as_str(), "value"), wrong));
            }
        }
    }
    None
}

/// Why the file of a name doesn't accept the value that its table has.
fn wrong_value<'d>(name: &str, table: &'d Table) -> Option<Wrong<'d>> {
    match EntryName::from_name(name)? {
        EntryName::File(file) => not_accepted(file, table),
        EntryName::Other(_) => wrong_text(table),
        _ => None,
    }
}

fn not_accepted<'d>(file: LimitFile, table: &Table) -> Option<Wrong<'d>> {
    match limit_of(file, Some(table)) {
        Some(_) => None,
        None => Some(Wrong::NotAccepted(file)),
    }
}

/// The first text that names none of these controllers.
pub(super) fn bad_controller<'d>(
    vocabulary: Vocabulary,
    place: Place,
    row: &'d Table,
) -> Option<Found<'d>> {
    let key = match place {
        Place::Top => "controllers",
        _ => "enabled",
    };
    let text = no_controller(vocabulary, elements_at(row, key))?;
    Some((At::key(key), Wrong::NoController { text, vocabulary }))
}

fn no_controller(vocabulary: Vocabulary, elements: &[Value]) -> Option<&str> {
    for element in elements {
        if let Some(text) = element.as_str() {
            if vocabulary.controller(text).is_none() {
                return Some(text);
            }
        }
    }
    None
}
