//! The keys of each kind of table, and the first that is wrong in one.
use crate::tree::form::{FlatTable, flat_takes};
use crate::tree::takes::Takes;
use crate::tree::told::Wrong;
use cg_cgroup::files::{EntryName, LimitFile, Vocabulary};
use cg_cgroup::other_file::OtherFile;
use cg_format::fault::Place;
use cg_format::format::Format;
use std::alloc::{AllocError, Global};
use toml::Table;

/// A kind of table, by the keys that it may have.
#[derive(Clone, Copy, Debug, PartialEq, Eq)]
pub enum Kind {
    Top,
    Cgroup,
    Process,
    Dir,
    /// `files` of a cgroup, in formats of this vocabulary.
    Files(Vocabulary),
    /// `cgroup.procs` or `cgroup.subtree_control`.
    ControlFile,
    LimitFile,
    /// A limit file beyond `LimitFile`.
    FurtherFile,
}

impl Kind {
    /// The kind of a row's table.
    pub fn of_row(place: Place) -> Kind {
        match place {
            Place::Top => Kind::Top,
            Place::Cgroup(_) => Kind::Cgroup,
            Place::Process(_) => Kind::Process,
        }
    }

    /// The kind of the table at a name of `files`.
    pub fn of_file(name: &str) -> Kind {
        match EntryName::from_name(name) {
            Some(EntryName::Procs | EntryName::SubtreeControl) => Kind::ControlFile,
            Some(EntryName::Other(_)) => Kind::FurtherFile,
            _ => Kind::LimitFile,
        }
    }

    /// What a key takes in formats 2 and 4; nothing where there is no such key.
    fn takes(self, key: &str) -> Option<Takes> {
        match self {
            Kind::Top => flat_takes(FlatTable::Document, key),
            Kind::Cgroup => row_takes(key),
            Kind::Process => flat_takes(FlatTable::Process, key),
            Kind::Dir | Kind::ControlFile => flat_takes(FlatTable::Owner(Format::Two), key),
            Kind::Files(vocabulary) => file_takes(vocabulary, key),
            Kind::LimitFile => flat_takes(FlatTable::Limit(Format::Two), key),
            Kind::FurtherFile => flat_takes(FlatTable::Further(Format::Four), key),
        }
    }

    /// The keys, but for the names of files.
    fn plain_keys(self) -> &'static [&'static str] {
        match self {
            Kind::Top => &["format", "controllers", "cgroup", "process"],
            Kind::Cgroup => &["path", "enabled", "dir", "files"],
            Kind::Process => &["pid", "uid", "at"],
            Kind::Dir | Kind::ControlFile => &["uid", "gid", "mode"],
            Kind::Files(_) => &[],
            Kind::LimitFile | Kind::FurtherFile => &["uid", "gid", "mode", "value"],
        }
    }

    /// The keys of formats 2 and 4.
    pub fn keys(self, alloc: Global) -> Result<Vec<&'static str>, AllocError> {
        match self {
            Kind::Files(vocabulary) => file_keys(alloc, vocabulary),
            _ => Vec::from_slice(alloc, self.plain_keys()),
        }
    }

    /// Whether a key has to be there.
    fn needs(self, key: &str) -> bool {
        match self {
            Kind::Top => matches!(key, "format" | "controllers"),
            Kind::Cgroup => key == "path",
            Kind::Process => true,
            _ => false,
        }
    }
}

/// What a key of a cgroup's table takes.
fn row_takes(key: &str) -> Option<Takes> {
    match key {
        "path" => Some(Takes::Text),
        "enabled" => Some(Takes::Texts),
        "dir" | "files" => Some(Takes::Table),
        _ => None,
    }
}

/// What a key of `files` takes.
fn file_takes(vocabulary: Vocabulary, key: &str) -> Option<Takes> {
    let entry = match vocabulary {
        Vocabulary::Format2 => EntryName::in_format_2(key),
        Vocabulary::Format4 => EntryName::from_name(key),
    };
    match entry {
        None | Some(EntryName::Dir) => None,
        Some(_) => Some(Takes::Table),
    }
}

fn file_keys(alloc: Global, vocabulary: Vocabulary) -> Result<Vec<&'static str>, AllocError> {
    let mut keys = Vec::new(alloc);
    keys.push(EntryName::Procs.name())?;
    keys.push(EntryName::SubtreeControl.name())?;
    keys.extend_from_slice(&LimitFile::ALL.map(|file| file.name()))?;
    if vocabulary == Vocabulary::Format4 {
        keys.extend_from_slice(&OtherFile::ALL.map(|file| file.name()))?;
    }
    Ok(keys)
}

/// The first key of a table that there isn't; then the first of its keys that is missing, or whose value is of another type.
pub(super) fn misfit<'d>(kind: Kind, table: &'d Table) -> Option<(&'d str, Wrong<'d>)> {
    if let Some(key) = unknown_key(kind, table) {
        return Some((key, Wrong::Unknown(kind)));
    }
    match kind {
        Kind::Files(_) => no_table(table),
        _ => missing_or_mistyped(kind, table),
    }
}

fn unknown_key(kind: Kind, table: &Table) -> Option<&str> {
    for (key, _) in table {
        if kind.takes(key.as_str()).is_none() {
            return Some(key.as_str());
        }
    }
    None
}

fn missing_or_mistyped<'d>(kind: Kind, table: &'d Table) -> Option<(&'d str, Wrong<'d>)> {
    for key in kind.plain_keys() {
        if let Some(wrong) = wrong_at(kind, table, *key) {
            return Some((*key, wrong));
        }
    }
    None
}

/// What is wrong at a key of a table.
fn wrong_at<'d>(kind: Kind, table: &'d Table, key: &str) -> Option<Wrong<'d>> {
    match (table.get(key), kind.takes(key)) {
        (None, _) if kind.needs(key) => Some(Wrong::Missing),
        (Some(value), Some(takes)) if !takes.fits(value) => Some(Wrong::Mistyped(takes)),
        _ => None,
    }
}

/// The first file of which something else than a table is written.
fn no_table<'d>(files: &'d Table) -> Option<(&'d str, Wrong<'d>)> {
    for (name, value) in files {
        if !Takes::Table.fits(value) {
            return Some((name.as_str(), Wrong::Mistyped(Takes::Table)));
        }
    }
    None
}
