//! Common slips, and what to write in their place.
use cg_cgroup::files::EntryName;
use cg_text::tree::takes::Takes;
use cg_text::tree::told::keys::Kind;
use std::alloc::{AllocError, Global};
use text_places::shown::quoted;
use toml::{Table, Value};

const A_REPORT: &str =
    "this is a report of zirofen-host, and no tree: zirofen-host snapshot writes a host's tree";

const JSON: &str = "this is JSON, and a tree is TOML: it begins with format = 2";

const YAML: &str =
    "this looks like YAML, and a tree is TOML: write key = value, and [[cgroup]] above each row";

const AN_ANSWER: &str = "this is an answer of zirofen, and no tree";

/// Where a key belongs that stands in the wrong table.
pub(super) fn belongs(kind: Kind, key: &str) -> Option<&'static str> {
    if kind != Kind::Top && matches!(key, "format" | "controllers") {
        return Some("to the top table: write it above the first [[cgroup]]");
    }
    match (kind, key) {
        (Kind::Top, "path" | "enabled" | "dir" | "files") => Some(
            "to a row: write it below [[cgroup]]",
        ),
        (Kind::Cgroup, "uid" | "gid" | "mode") => Some(
            "to the directory or to a file: write dir = { uid = 1000 }, or files = { \"cgroup.procs\" = { uid = 1000 } }",
        ),
        (Kind::Cgroup, "pid" | "at") => Some("to a row of its own: write it below [[process]]"),
        (Kind::Cgroup, name) if EntryName::from_name(name).is_some() => Some(
            "to files: write it within files = { .. }, or below [cgroup.files]",
        ),
        (Kind::Files(_), "path" | "enabled" | "dir" | "files") => Some(
            "to the row: write it above [cgroup.files]",
        ),
        (Kind::Files(_), "uid" | "gid" | "mode" | "value") => Some(
            "to one file: write \"memory.max\" = { value = 4096 }",
        ),
        _ => None,
    }
}

/// Whether a key that is missing at the top stands in a row.
pub(super) fn stands_in_a_row(top: &Table, key: &str) -> bool {
    has_row_with(top, "cgroup", key) || has_row_with(top, "process", key)
}

fn has_row_with(top: &Table, rows: &str, key: &str) -> bool {
    let Some(rows) = top.get(rows).and_then(|rows| rows.as_array()) else {
        return false;
    };
    for row in rows.iter() {
        if row.as_table().is_some_and(|row| row.contains_key(key)) {
            return true;
        }
    }
    false
}

/// What to write in place of a text, or of a table, that stands where something else is wanted.
pub(super) fn instead(
    alloc: Global,
    key: &str,
    held: &Value,
    takes: Takes,
) -> Result<Option<String>, AllocError> {
    match (held, takes) {
        (Value::Table(_), Takes::Tables) => Ok(Some(format!(in alloc;
            "write [[{key}]] above each row"
        )?)),
        (Value::String(text), Takes::Integer) => number_instead(alloc, key, text.as_str()),
        _ => Ok(None),
    }
}

/// What to write in place of a text where a number is wanted.
fn number_instead(alloc: Global, key: &str, text: &str) -> Result<Option<String>, AllocError> {
    let shown = quoted(alloc, text)?;
    if key == "mode" && is_octal(text) {
        let digits = text.trim_start_matches('0');
        return Ok(Some(format!(in alloc; "write 0o{digits}, without quotes")?));
    }
    if is_digits(text) {
        return Ok(Some(format!(in alloc; "write {shown}, without quotes")?));
    }
    match key {
        "uid" if is_name(text) => Ok(Some(format!(in alloc; "`id -u {shown}` prints it")?)),
        "gid" if is_name(text) => Ok(Some(format!(in alloc; "`getent group {shown}` prints it")?)),
        _ => Ok(None),
    }
}

fn is_digits(text: &str) -> bool {
    !text.is_empty() && text.bytes().all(|byte| byte.is_ascii_digit())
}

/// Whether a text has the digits of a mode, three of them behind zeros.
fn is_octal(text: &str) -> bool {
    let digits = text.trim_start_matches('0');
    digits.len() == 3 && digits.bytes().all(|byte| matches!(byte, b'0'..=b'7'))
}

/// Whether a text may be the name of an account or a group.
fn is_name(text: &str) -> bool {
    !text.is_empty()
        && !text.starts_with('-')
        && text.bytes().all(|byte| byte.is_ascii_alphanumeric()
            || matches!(byte, b'_' | b'-' | b'.'))
}

/// The bytes of a size like `2G`.
pub(super) fn size_of(text: &str) -> Option<u64> {
    let text = text.strip_suffix("iB").unwrap_or(text);
    let (digits, unit) = size_parts(text)?;
    let number: u64 = digits.parse().ok()?;
    number.checked_mul(unit)
}

/// The digits of a size, and of how many bytes its unit is.
fn size_parts(text: &str) -> Option<(&str, u64)> {
    for (name, unit) in [
        ("K", 1024_u64),
        ("M", 1_048_576),
        ("G", 1_073_741_824),
        ("T", 1_099_511_627_776),
    ] {
        if let Some(digits) = text.strip_suffix(name) {
            return if is_digits(digits) {
                Some((digits, unit))
            } else {
                None
            };
        }
    }
    None
}

/// What a text is that is no TOML, where that can be told.
pub(super) fn other_kind(text: &str) -> Option<&'static str> {
    let text = text.trim_start();
    if text.starts_with('{') {
        let is_report = text.contains("\"subtrees\"") && text.contains("\"program\"");
        return Some(if is_report { A_REPORT } else { JSON });
    }
    let line = text.lines().next()?;
    if is_answer(line) {
        Some(AN_ANSWER)
    } else if line == "---" || is_of_yaml(line) {
        Some(YAML)
    } else {
        None
    }
}

/// Whether the first line is that of an answer or of a pair.
fn is_answer(line: &str) -> bool {
    line == "contained"
        || line == "escapes"
        || line.starts_with("unsettled ")
        || line.starts_with("pair ")
}

/// Whether a key stands before a colon.
fn is_of_yaml(line: &str) -> bool {
    match line.split_once(':') {
        Some((key, value)) => is_name(key) && (value.is_empty() || value.starts_with(' ')),
        None => false,
    }
}
