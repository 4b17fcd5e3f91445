//! Files, looked at once more. What is no regular file isn't opened again: a pipe would wait for whoever writes it.
use cg_cgroup::memory::NoMemory;
use std::alloc::Global;
use streams::files::{FileKind, Files};
use streams::read::read_input;
use text_places::shown::quoted;

/// What a regular file has; nothing where it can't be read, or is another kind of file.
pub(crate) fn read_again<F: Files>(alloc: Global, files: &F, name: &str) -> Option<Vec<u8>> {
    match files.kind(name) {
        Ok(FileKind::Regular) => read_input(alloc, files.open(name).ok()?).ok(),
        _ => None,
    }
}

/// Why a file can't be read, in words.
pub(crate) fn why_unread<F: Files>(
    alloc: Global,
    files: &F,
    name: &str,
) -> Result<Option<String>, NoMemory> {
    let shown = quoted(alloc, name)?;
    match files.kind(name) {
        Err(error) => Ok(Some(format!(in alloc; "{shown}: {error}")?)),
        Ok(FileKind::Directory) => Ok(Some(format!(in alloc; "{shown} is a directory")?)),
        Ok(FileKind::Regular) => why_closed(alloc, files, name, shown.as_str()),
        Ok(FileKind::Other) => Ok(None),
    }
}

/// Why a regular file can't be opened, in words.
fn why_closed<F: Files>(
    alloc: Global,
    files: &F,
    name: &str,
    shown: &str,
) -> Result<Option<String>, NoMemory> {
    match files.open(name) {
        Err(error) => Ok(Some(format!(in alloc; "{shown}: {error}")?)),
        Ok(_) => Ok(None),
    }
}
