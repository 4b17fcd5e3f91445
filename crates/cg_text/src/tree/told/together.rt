//! What is wrong with a row among the others: its parent, what is enabled there, its files.
use crate::tree::said::{elements_at, table_at, text_at};
use crate::tree::told::{At, Found, Wrong};
use cg_cgroup::files::{Controller, EntryName};
use std::alloc::{AllocError, Global};
use toml::{Table, Value};

/// The paths that rows of cgroups have, in the order of the text.
pub fn paths_of<'d>(alloc: Global, document: &'d Table) -> Result<Vec<&'d str>, AllocError> {
    let mut paths = Vec::new(alloc);
    for element in elements_at(document, "cgroup") {
        if let Some(path) = path_of(element) {
            paths.push(path)?;
        }
    }
    Ok(paths)
}

fn path_of(element: &Value) -> Option<&str> {
    text_at(element.as_table()?, "path")
}

/// The parent's path, of a path that isn't the root; the root's own.
fn parent_of(path: &str) -> &str {
    match path.rsplit_once('/') {
        Some(("", _)) | None => "/",
        Some((parent, _)) => parent,
    }
}

/// The first row of a cgroup that has a path.
fn row_of<'d>(document: &'d Table, path: &str) -> Option<&'d Table> {
    for element in elements_at(document, "cgroup") {
        if path_of(element) == Some(path) {
            return element.as_table();
        }
    }
    None
}

/// What can be enabled at a path: at the root what there is, elsewhere what the parent's row enables.
fn available_at<'d>(document: &'d Table, path: &str) -> &'d [Value] {
    if path == "/" {
        return elements_at(document, "controllers");
    }
    match row_of(document, parent_of(path)) {
        Some(parent) => elements_at(parent, "enabled"),
        None => &[],
    }
}

/// The row that should enable something for a path; nothing for the root.
fn above(path: &str) -> Option<&str> {
    if path == "/" {
        None
    } else {
        Some(parent_of(path))
    }
}

/// That no row has the parent's path.
pub(super) fn orphan<'d>(row: &'d Table) -> Option<Found<'d>> {
    let parent = parent_of(text_at(row, "path")?);
    Some((At::key("path"), Wrong::NoParent(parent)))
}

/// The first controller that a row enables and that isn't enabled above.
pub(super) fn not_enabled<'d>(document: &'d Table, row: &'d Table) -> Option<Found<'d>> {
    let path = text_at(row, "path")?;
    let controller = first_beside(elements_at(row, "enabled"), available_at(document, path))?;
    let wrong = Wrong::NotEnabled {
        controller,
        above: above(path),
    };
    Some((At::key("enabled"), wrong))
}

/// The first text that isn't among others.
fn first_beside<'d>(texts: &'d [Value], others: &[Value]) -> Option<&'d str> {
    for value in texts {
        if let Some(text) = value.as_str() {
            if !is_among(text, others) {
                return Some(text);
            }
        }
    }
    None
}

fn is_among(text: &str, others: &[Value]) -> bool {
    for other in others {
        if other.as_str() == Some(text) {
            return true;
        }
    }
    false
}

/// The first limit file of a row that doesn't stand there.
pub(super) fn not_standing<'d>(document: &'d Table, row: &'d Table) -> Option<Found<'d>> {
    let files = table_at(row, "files")?;
    let path = text_at(row, "path")?;
    let (name, wrong) = match above(path) {
        None => (first_below_root(files)?, Wrong::NotAtRoot),
        Some(above) => {
            let (name, controller) = first_not_under(files, available_at(document, path))?;
            (name, Wrong::NoFile { controller, above })
        }
    };
    Some((At::inner("files", name), wrong))
}

/// The first limit file that the root never has: it has but the two that stand at every cgroup.
fn first_below_root(files: &Table) -> Option<&str> {
    for (name, _) in files {
        if is_below_root(name.as_str()) {
            return Some(name.as_str());
        }
    }
    None
}

fn is_below_root(name: &str) -> bool {
    match EntryName::from_name(name) {
        Some(EntryName::File(file)) => file.controller().is_some(),
        Some(EntryName::Other(_)) => true,
        _ => false,
    }
}

/// The first limit file of a controller that isn't among these texts, with the controller.
fn first_not_under<'d>(files: &'d Table, enabled: &[Value]) -> Option<(&'d str, Controller)> {
    for (name, _) in files {
        if let Some(controller) = controller_of(name.as_str()) {
            if !is_among(controller.name(), enabled) {
                return Some((name.as_str(), controller));
            }
        }
    }
    None
}

/// The controller that brings the limit file of a name.
fn controller_of(name: &str) -> Option<Controller> {
    match EntryName::from_name(name)? {
        EntryName::File(file) => file.controller(),
        EntryName::Other(file) => file.controller(),
        _ => None,
    }
}
