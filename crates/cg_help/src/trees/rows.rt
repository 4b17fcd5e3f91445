//! Rows that don't go together, and texts that name nothing.
use crate::names::{controller_names, listed, near_name};
use crate::paths::{missing_said, names_mount, near_said};
use crate::trees::places::shown_value;
use cg_cgroup::files::{Controller, Vocabulary};
use cg_text::tree::told::{Told, paths_of};
use std::alloc::{AllocError, Global};
use text_places::near::Missing;
use text_places::shown::quoted;
use toml::Table;

/// Which text of `controllers` or `enabled` is no controller of the format.
pub(super) fn controller_said(
    alloc: Global,
    key: &str,
    text: &str,
    vocabulary: Vocabulary,
) -> Result<String, AllocError> {
    let names = controller_names(alloc, vocabulary)?;
    let shown = quoted(alloc, text)?;
    if Controller::from_name(text).is_some() {
        return format!(in alloc;
            "write format = 4, which has '{shown}': in this format {key} has cpu, memory and pids alone; left out, its limits count in no answer"
        );
    }
    if let Some(name) = near_name(alloc, text, names.as_slice())? {
        return format!(in alloc;
            "'{shown}' of {key} is no controller: write {name}; left out, its limits count in no answer"
        );
    }
    match vocabulary {
        Vocabulary::Format2 => format!(in alloc;
            "'{shown}' of {key} isn't cpu, memory or pids: left out, its limits count in no answer"
        ),
        Vocabulary::Format4 => {
            let names = listed(alloc, names.as_slice())?;
            format!(in alloc;
                "'{shown}' of {key} is none of{names}: left out, its limits count in no answer"
            )
        }
    }
}

/// That an earlier row has the same path or PID.
pub(super) fn again_said(alloc: Global, told: &Told<'_>) -> Result<Option<String>, AllocError> {
    let (Some(key), Some(held)) = (told.at.key, told.held) else {
        return Ok(None);
    };
    let shown = shown_value(alloc, held)?;
    Ok(Some(format!(in alloc; "an earlier row has {key} {shown}")?))
}

/// That the row above isn't there.
pub(super) fn parent_said(alloc: Global, top: &Table, parent: &str) -> Result<String, AllocError> {
    let missing = missing_among(alloc, top, parent)?;
    if names_mount(parent) {
        return missing_said(alloc, &missing);
    }
    let shown = quoted(alloc, parent)?;
    let near = near_said(alloc, missing.nearest.as_ref())?;
    format!(in alloc; "no row has the parent's path, '{shown}'{near}")
}

/// What a row enables that isn't enabled above.
pub(super) fn enabled_said(
    alloc: Global,
    controller: &str,
    above: Option<&str>,
) -> Result<String, AllocError> {
    let name = quoted(alloc, controller)?;
    match above {
        Some(above) => {
            let above = quoted(alloc, above)?;
            format!(in alloc; "the row of '{above}' doesn't enable {name}")
        }
        None => format!(in alloc; "{name} isn't in controllers"),
    }
}

/// Why a limit file doesn't stand at a row's cgroup.
pub(super) fn file_said(
    alloc: Global,
    name: &str,
    controller: Controller,
    above: &str,
) -> Result<String, AllocError> {
    let controller = controller.name();
    let above = quoted(alloc, above)?;
    format!(in alloc;
        "{name} doesn't stand there: the row of '{above}' doesn't enable {controller}"
    )
}

/// That a limit file never stands at the root.
pub(super) fn root_said(alloc: Global, name: &str) -> Result<String, AllocError> {
    format!(in alloc; "{name} never stands at the root")
}

/// That a process is in a cgroup that enables controllers.
pub(super) fn inner_said(alloc: Global, at: &str) -> Result<String, AllocError> {
    let shown = quoted(alloc, at)?;
    format!(in alloc;
        "{shown} enables controllers, and only the root may do so with processes in it"
    )
}

/// That no row has a path, and which one is the nearest.
pub(super) fn nowhere_said(alloc: Global, top: &Table, path: &str) -> Result<String, AllocError> {
    missing_said(alloc, &missing_among(alloc, top, path)?)
}

/// A path, and the nearest of those that rows have.
fn missing_among(alloc: Global, top: &Table, path: &str) -> Result<Missing, AllocError> {
    let paths = paths_of(alloc, top)?;
    Missing::among(alloc, path, paths.as_slice())
}
