//! Why a text is no path.
ghost use Rattle.std.specs.Prelude.{◌≡◌, IfOk, option_copied, string_bytes};
ghost use Rattle.std.specs.Option.{option_map};
ghost use Rattle.cg_help.specs.Missing.{names_mount, why_missing, IsNearSaid, IsMissingSaid};

use cg_cgroup::files::LimitFile;
use std::alloc::{AllocError, Global};
use text_places::near::Missing;
use text_places::shown::quoted;

/// The greatest number of bytes of a path, and of a name.
const LONGEST_PATH: usize = 4095;

const LONGEST_NAME: usize = 255;

/// Why a text is no path, in words; nothing where it is one.
pub(crate) fn why_no_path(alloc: Global, text: &str) -> Result<Option<String>, AllocError> {
    let shown = quoted(alloc, text)?;
    let why = why_not(text);
    if why == "" {
        return why_no_name(alloc, text, shown.as_str());
    }
    Ok(Some(format!(in alloc; "'{shown}': {why}")?))
}

/// What is wrong with a text as a whole; nothing where its names decide.
fn why_not(text: &str) -> &'static str {
    if text.is_empty() {
        "a path is empty; the root is /"
    } else if !text.starts_with('/') {
        "a path begins with /, and / is the mount"
    } else if LONGEST_PATH < text.len() {
        "a path has at most 4095 bytes"
    } else if text.ends_with('/') && text != "/" {
        "a path but the root's never ends with /"
    } else {
        ""
    }
}

/// Which name of a path that begins with a slash is none, in words.
fn why_no_name(alloc: Global, text: &str, shown: &str) -> Result<Option<String>, AllocError> {
    for name in text.split('/').skip(1) {
        let why = why_not_named(name);
        if why != "" && text != "/" {
            let name = quoted(alloc, name)?;
            return Ok(Some(format!(in alloc; "'{shown}': the name '{name}' {why}")?));
        }
    }
    Ok(None)
}

/// What is wrong with a name; nothing where it is one.
fn why_not_named(name: &str) -> &'static str {
    if name.is_empty() {
        "is empty: // stands in it"
    } else if LONGEST_NAME < name.len() {
        "has more than 255 bytes"
    } else if !name
        .as_bytes()
        .iter()
        .all(|byte| 33 <= *byte && *byte <= 126)
    {
        "has a space, or a byte that is no printable ASCII"
    } else if is_reserved(name) {
        "is reserved: a file or a directory's own entry has it"
    } else {
        ""
    }
}

fn is_reserved(name: &str) -> bool {
    let is_standing = matches!(
        name,
        "." | ".." | "cgroup.controllers" | "cgroup.procs" | "cgroup.subtree_control"
    );
    is_standing || LimitFile::from_name(name).is_some()
}

/// What may be wrong with a path that no row of the tree has, and which one is the nearest.
pub(crate) fn missing_said(alloc: Global, missing: &Missing) -> Result<String, AllocError>
    ensures { IfOk result (λ said. IsMissingSaid missing.now (string_bytes said)) }
{
    let shown = quoted(alloc, missing.name.as_str())?;
    let why = why_missing(missing.name.as_str());
    let near = near_said(alloc, missing.nearest.as_ref())?;
    format!(in alloc; "'{shown}{why}{near}")
}

/// Whether a path begins with where a host has its cgroups, which no path of a tree does.
pub(crate) fn names_mount(path: &str) -> bool
    ensures { result ≡ names_mount path.now }
{
    path.as_bytes().strip_prefix(b"/sys/fs/cgroup").is_some()
}

/// What may be wrong with a path, behind its quote.
fn why_missing(path: &str) -> &'static str
    ensures { result.now ≡ why_missing path.now }
{
    if names_mount(path) {
        "' begins with the mount: paths are below /sys/fs/cgroup, and don't name it"
    } else {
        "' has to be the path of a row of the tree"
    }
}

/// Which path is the nearest.
pub(crate) fn near_said(alloc: Global, nearest: Option<&String>) -> Result<String, AllocError>
    ensures { IfOk result (λ said. IsNearSaid (option_map string_bytes (option_copied nearest.entry)) (string_bytes said)) }
{
    match nearest {
        Some(near) => {
            let shown = quoted(alloc, near.as_str())?;
            format!(in alloc; "; the nearest is '{shown}'")
        }
        None => Ok(String::new(alloc)),
    }
}
