//! Where in a tree text something stands that is told, and how rows and values are shown.
use cg_text::tree::Place;
use cg_text::tree::told::{At, Told};
use std::alloc::{AllocError, Global};
use text_places::position::Position;
use text_places::scan::{Step, place_of};
use text_places::shown::quoted;
use toml::Value;

/// How many bytes a number has at most that is told as it is written.
const LONGEST_NUMBER: usize = 64;

/// A place in a row of a text.
#[derive(Clone, Copy)]
pub(super) struct RowAt<'a> {
    pub text: &'a str,
    pub place: Place,
    pub at: At<'a>,
}

impl<'a> RowAt<'a> {
    /// Where the key stands to which these lead, the last one first.
    fn place_of(&self, alloc: Global, keys: &[&str]) -> Result<Option<usize>, AllocError> {
        let mut steps = Vec::new(alloc);
        if let Some((array, number)) = numbered_in(self.place) {
            steps.push(Step::Key(array))?;
            steps.push(Step::Element((number as usize).saturating_sub(1)))?;
        }
        for key in keys.iter().rev() {
            steps.push(Step::Key(*key))?;
        }
        if steps.is_empty() {
            return Ok(None);
        }
        place_of(alloc, self.text, steps.as_slice())
    }

    /// The keys that lead to the place, the last one first.
    fn keys(&self, alloc: Global) -> Result<Vec<&'a str>, AllocError> {
        let mut keys = Vec::new(alloc);
        for key in [self.at.key, self.at.file, self.at.table] {
            if let Some(key) = key {
                keys.push(key)?;
            }
        }
        Ok(keys)
    }

    /// Where the place is, or the innermost table around it that has one.
    fn nearest_place(&self, alloc: Global) -> Result<Option<usize>, AllocError> {
        let all = self.keys(alloc)?;
        let mut keys = all.as_slice();
        for _ in 0..=keys.len() {
            if let Some(place) = self.place_of(alloc, keys)? {
                return Ok(Some(place));
            }
            keys = keys.get(1..).unwrap_or(&[]);
        }
        Ok(None)
    }

    /// The number there, as it is written.
    pub fn written(&self, alloc: Global) -> Result<Option<&'a str>, AllocError> {
        match self.place_of(alloc, self.keys(alloc)?.as_slice())? {
            Some(place) => Ok(number_behind(self.text, place)),
            None => Ok(None),
        }
    }

    /// What is wrong there, behind its place where there is one, and above the line that has it.
    pub fn placed(&self, alloc: Global, label: &str, why: &str) -> Result<String, AllocError> {
        match self.nearest_place(alloc)? {
            Some(offset) => {
                let position = Position::at(self.text.as_bytes(), offset);
                let (named, drawn) = (position.named(alloc)?, position.drawn(alloc)?);
                format!(in alloc; "{named}, {label}: {why}\n{drawn}")
            }
            None => format!(in alloc; "{label}: {why}"),
        }
    }
}

/// The number behind the equals sign that follows a place.
fn number_behind(text: &str, place: usize) -> Option<&str> {
    let (_, behind) = text.get(place..)?.split_once('=')?;
    let behind = behind.trim_start();
    let len = behind
        .bytes()
        .take_while(|byte| byte.is_ascii_alphanumeric() || matches!(*byte, b'_' | b'+' | b'-'))
        .count();
    if len == 0 || LONGEST_NUMBER < len {
        None
    } else {
        behind.get(..len)
    }
}

/// The array of a row, and its number there.
fn numbered_in(place: Place) -> Option<(&'static str, u32)> {
    match place {
        Place::Top => None,
        Place::Cgroup(number) => Some(("cgroup", number)),
        Place::Process(number) => Some(("process", number)),
    }
}

/// How a row is named: by its number, and by its path or place.
pub(super) fn label(alloc: Global, told: &Told<'_>) -> Result<String, AllocError> {
    let (kind, number, key) = match told.place {
        Place::Top => return String::from_str(alloc, "the top table"),
        Place::Cgroup(number) => ("cgroup", number, "path"),
        Place::Process(number) => ("process", number, "at"),
    };
    match told.name {
        Some(text) => {
            let shown = quoted(alloc, text)?;
            format!(in alloc; "row {number} of {kind}, {key} '{shown}'")
        }
        None => format!(in alloc; "row {number} of {kind}"),
    }
}

/// A value as it is shown.
pub(super) fn shown_value(alloc: Global, value: &Value) -> Result<String, AllocError> {
    match value {
        Value::Integer(number) => format!(in alloc; "{number}"),
        Value::String(text) => {
            let shown = quoted(alloc, text.as_str())?;
            format!(in alloc; "'{shown}'")
        }
        other => String::from_str(alloc, other.type_str()),
    }
}
