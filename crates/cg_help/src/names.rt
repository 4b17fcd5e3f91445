//! Names of which one has to stand somewhere.
use cg_cgroup::files::{Controller, Vocabulary};
use std::alloc::{AllocError, Global};
use text_places::near::nearest_of;
use text_places::shown::quoted;

/// What is to be written for a word that is none of these names.
pub(crate) fn none_said(
    alloc: Global,
    written: &str,
    names: &[&str],
) -> Result<String, AllocError> {
    let shown = quoted(alloc, written)?;
    match near_name(alloc, written, names)? {
        Some(name) => format!(in alloc; "'{shown}': write {name}"),
        None => {
            let names = listed(alloc, names)?;
            format!(in alloc; "'{shown}' is none of{names}")
        }
    }
}

/// The name that was meant: one that differs by case alone, else the nearest where it has the same digits, since `8MB` is no
/// misspelt `1MB`.
pub(crate) fn near_name<'a>(
    alloc: Global,
    written: &str,
    names: &[&'a str],
) -> Result<Option<&'a str>, AllocError> {
    for name in names {
        if name.eq_ignore_ascii_case(written) {
            return Ok(Some(*name));
        }
    }
    match nearest_of(alloc, written, names)? {
        Some(name) if has_same_digits(written, name) => Ok(Some(name)),
        _ => Ok(None),
    }
}

fn has_same_digits(one: &str, other: &str) -> bool {
    let digits = one.bytes().filter(|byte| byte.is_ascii_digit());
    digits.eq(other.bytes().filter(|byte| byte.is_ascii_digit()))
}

/// Names, each behind a space.
pub(crate) fn listed(alloc: Global, names: &[&str]) -> Result<String, AllocError> {
    let mut list = String::new(alloc);
    for name in names {
        list.push_str(" ")?;
        list.push_str(name)?;
    }
    Ok(list)
}

/// The names of a vocabulary's controllers.
pub(crate) fn controller_names(
    alloc: Global,
    vocabulary: Vocabulary,
) -> Result<Vec<&'static str>, AllocError> {
    let mut names = Vec::new(alloc);
    for controller in Controller::ALL {
        if vocabulary.has(controller) {
            names.push(controller.name())?;
        }
    }
    Ok(names)
}
