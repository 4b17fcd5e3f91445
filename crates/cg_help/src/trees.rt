//! What is wrong with a tree text, in words: the row's path, the key, the value, and what would be right.
mod cures;
mod keys;
mod numbers;
mod places;
mod rows;
mod syntax;
mod texts;

use crate::input::{is_blank, kind_said};
use crate::paths::why_no_path;
use cg_cgroup::files::Vocabulary;
use cg_text::tree::TreeFault;
use cg_text::tree::told::{Told, Wrong, paths_of, told_of, vocabulary_at};
use keys::{fronted, missing_key_said, mistyped_said, unknown_said};
use numbers::{number_said, value_said};
use places::{RowAt, label};
use rows::{
    again_said, controller_said, enabled_said, file_said, inner_said, nowhere_said, parent_said,
    root_said,
};
use std::alloc::{AllocError, Global};
use std::collections::BTreeSet;
use streams::kept::MOST_BYTES;
use syntax::syntax_said;
use texts::{line_said, no_lines_said};
use toml::Table;

/// What is wrong with the text of a tree, which has this fault.
pub(crate) fn tree_said(
    alloc: Global,
    fault: TreeFault,
    bytes: &[u8],
) -> Result<Option<String>, AllocError> {
    if MOST_BYTES < bytes.len() {
        return Ok(None);
    }
    if let Some(kind) = kind_said(bytes) {
        return plainly(alloc, kind);
    }
    if is_blank(bytes) {
        return plainly(alloc, "nothing was given: a tree begins with format = 2");
    }
    match toml::table_from_slice(alloc, bytes) {
        Ok(top) => match std::str::from_utf8(bytes) {
            Ok(text) => fault_said(alloc, fault, &top, text),
            Err(_) => Ok(None),
        },
        Err(error) if error.is_memory() => Ok(None),
        Err(error) => Ok(Some(syntax_said(alloc, bytes, &error)?)),
    }
}

/// Which controllers and files lines of operations name with the tree of a text: those of formats 1 and 2 where that can't be told.
pub(crate) fn vocabulary_of(alloc: Global, bytes: &[u8]) -> Vocabulary {
    if MOST_BYTES < bytes.len() {
        return Vocabulary::Format2;
    }
    match toml::table_from_slice(alloc, bytes) {
        Ok(top) => vocabulary_at(&top),
        Err(_) => Vocabulary::Format2,
    }
}

/// The first of these paths that no row of a tree's text has, and what may be wrong with it.
pub(crate) fn first_missing_said(
    alloc: Global,
    bytes: &[u8],
    paths: &[&str],
) -> Result<Option<String>, AllocError> {
    if MOST_BYTES < bytes.len() {
        return Ok(None);
    }
    let Ok(top) = toml::table_from_slice(alloc, bytes) else {
        return Ok(None);
    };
    let there = kept_paths(alloc, &top)?;
    for path in paths {
        if !there.contains(*path) {
            return Ok(Some(nowhere_said(alloc, &top, path)?));
        }
    }
    Ok(None)
}

/// The paths that rows have, in their order.
fn kept_paths(alloc: Global, top: &Table) -> Result<BTreeSet<String>, AllocError> {
    let mut paths = BTreeSet::new(alloc);
    for path in paths_of(alloc, top)? {
        paths.insert(String::from_str(alloc, path)?)?;
    }
    Ok(paths)
}

fn fault_said(
    alloc: Global,
    fault: TreeFault,
    top: &Table,
    text: &str,
) -> Result<Option<String>, AllocError> {
    if fault == TreeFault::NoRoot {
        return plainly(alloc, "no row of cgroup has path = '/'");
    }
    let Some(told) = told_of(top, fault) else {
        return Ok(None);
    };
    let label = label(alloc, &told)?;
    if matches!(told.wrong, Wrong::NoTable) {
        return Ok(Some(format!(in alloc; "{label} isn't a table")?));
    }
    let row = RowAt {
        text,
        place: told.place,
        at: told.at,
    };
    match wrong_said(alloc, top, &told, &row)? {
        Some(why) => Ok(Some(row.placed(alloc, label.as_str(), why.as_str())?)),
        None => Ok(None),
    }
}

/// What is wrong there.
fn wrong_said(
    alloc: Global,
    top: &Table,
    told: &Told<'_>,
    row: &RowAt<'_>,
) -> Result<Option<String>, AllocError> {
    let key = told.at.key.unwrap_or("");
    let file = told.at.file.unwrap_or("");
    let why = match told.wrong {
        Wrong::NoGroups => return plainly(
            alloc,
            "in format 1 there is no key gid: write format = 2",
        ),
        Wrong::NoGroupBit => return plainly(alloc, "in format 1 a mode has no bit 0o020"),
        Wrong::Format => return plainly(
            alloc,
            "format is 1, 2 or 4: write format = 2, or 4 for all nine controllers",
        ),
        Wrong::NoPath => return path_said(alloc, told),
        Wrong::Again => return again_said(alloc, told),
        Wrong::NotAccepted(file) => return value_said(alloc, told, file),
        Wrong::NoLines => no_lines_said(alloc, file)?,
        Wrong::NotALine(line) => line_said(alloc, file, line)?,
        Wrong::NoController { text, vocabulary } => controller_said(alloc, key, text, vocabulary)?,
        Wrong::NoParent(parent) => parent_said(alloc, top, parent)?,
        Wrong::NotEnabled { controller, above } => enabled_said(alloc, controller, above)?,
        Wrong::NoFile { controller, above } => file_said(alloc, key, controller, above)?,
        Wrong::NotAtRoot => root_said(alloc, key)?,
        Wrong::NoPid(pid) => format!(in alloc; "pid {pid} isn't one of 1 to 4194303")?,
        Wrong::Nowhere(at) => nowhere_said(alloc, top, at)?,
        Wrong::Inner(at) => inner_said(alloc, at)?,
        _ => return key_said(alloc, top, told, row, key),
    };
    Ok(Some(why))
}

/// What is wrong with a key or a number, behind the table within the row that has it.
fn key_said(
    alloc: Global,
    top: &Table,
    told: &Told<'_>,
    row: &RowAt<'_>,
    key: &str,
) -> Result<Option<String>, AllocError> {
    let why = match told.wrong {
        Wrong::Unknown(kind) => Some(unknown_said(alloc, kind, key, told.held)?),
        Wrong::Missing => Some(missing_key_said(alloc, top, told.place, key)?),
        Wrong::Mistyped(takes) => mistyped_said(alloc, told, takes)?,
        Wrong::OutOfRange(number) => Some(number_said(alloc, row, key, number)?),
        _ => None,
    };
    match why {
        Some(why) => Ok(Some(fronted(alloc, told.at, why.as_str())?)),
        None => Ok(None),
    }
}

fn plainly(alloc: Global, words: &str) -> Result<Option<String>, AllocError> {
    Ok(Some(String::from_str(alloc, words)?))
}

fn path_said(alloc: Global, told: &Told<'_>) -> Result<Option<String>, AllocError> {
    match told.name {
        Some(path) => why_no_path(alloc, path),
        None => Ok(None),
    }
}
