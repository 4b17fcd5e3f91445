//! What a table says at its keys, as far as it is in range.
ghost use Rattle.std.specs.Prelude.{◌≡◌, ℕ, List, [], ◌∷◌, false, map, filter_map, Some, IfOk, option_and_then};
ghost use Rattle.std.specs.String.{string_bytes};
ghost use Rattle.std.specs.Fmt.{signed_decimal};
ghost use Rattle.std.specs.Option.{option_map, option_map_or, option_copied};
ghost use Rattle.std.specs.Ordering.{is_eq, nat_cmp};
ghost use Rattle.std.specs.Cmp.Lexicographic.{slice_cmp};
ghost use Rattle.cg_model.specs.Clauses.{first, absent};
ghost use Rattle.toml.specs.Data.{get_member, as_array, as_str};
ghost use Rattle.toml.specs.View.{view, array_view, table_view};
ghost use Rattle.cg_format.specs.Form.{vocabulary};
ghost use Rattle.cg_format.specs.Said.{id_read, mode_read, pid_read, controllers_said, known_said, elements_at, text_at, integer_at, table_at, format_said, path_said, owner_said, limit_of, limit_said, is_text_line, lines_text, text_of, text_said};
ghost use Rattle.cg_text.specs.Faults.{Passes};
ghost use Rattle.cg_text.specs.Rows.{written, line_added};

use cg_cgroup::files::{Controller, ControllerSet, Limit, LimitFile, Vocabulary};
use cg_cgroup::memory::NoMemory;
use cg_cgroup::path::{Path, PathFault};
use cg_cgroup::process::Pid;
use cg_cgroup::told::FileText;
use cg_cgroup::user::Entry;
use cg_cgroup::value::is_one_line;
use cg_format::fault::TreeFault;
use cg_format::format::Format;
use std::alloc::Global;
use toml::value::Array;
use toml::{Table, Value};

/// The value at a key.
pub fn member<'a>(table: &'a Table, key: &str) -> Option<&'a Value>
    ensures { option_map (λ v. view v.now) result ≡ get_member key.now (table_view table.now) }
{
    table.get(key)
}

fn array_at<'a>(table: &'a Table, key: &str) -> Option<&'a Array>
    ensures { option_map (λ items. array_view items.now) result
        ≡ option_and_then as_array (get_member key.now (table_view table.now)) }
{
    member(table, key)?.as_array()
}

/// The elements of the array at a key, and none where it is left out.
#[tactic(auto, using(crate::proofs::SaidLaws::elements_view))]
pub fn elements_at<'a>(table: &'a Table, key: &str) -> &'a [Value]
    ensures { map view result.now ≡ elements_at key.now (table_view table.now) }
{
    match array_at(table, key) {
        None => &[],
        Some(items) => items.as_slice(),
    }
}

/// Takes the elements of the array at a key out of a table; there are none where it is left out.
pub fn take_elements(alloc: Global, table: &mut Table, key: &str) -> Vec<Value>
    ensures taken { map view result.items ≡ elements_at key.now (table_view table.old) }
    ensures others { (other : List ℕ) → is_eq (slice_cmp nat_cmp other key.now) ≡ false
        → get_member other (table_view table.new) ≡ get_member other (table_view table.old) }
{
    match table.remove(key) {
        None => Vec::new(alloc),
        Some(value) => array_of(value).unwrap_or(Vec::new(alloc)),
    }
}

fn array_of(value: Value) -> Option<Array>
    ensures { option_map array_view result ≡ as_array (view value) }
{
    match value {
        Value::Array(items) => Some(items),
        _ => None,
    }
}

pub fn text_at<'a>(table: &'a Table, key: &str) -> Option<&'a str>
    ensures { option_copied result ≡ text_at key.now (table_view table.now) }
{
    member(table, key)?.as_str()
}

pub fn integer_at(table: &Table, key: &str) -> Option<i64>
    ensures { result ≡ integer_at key.now (table_view table.now) }
{
    member(table, key)?.as_integer()
}

pub fn table_at<'a>(table: &'a Table, key: &str) -> Option<&'a Table>
    ensures { option_map (λ t. table_view t.now) result ≡ table_at key.now (table_view table.now) }
{
    member(table, key)?.as_table()
}

pub fn format_at(document: &Table) -> Option<Format>
    ensures { result ≡ format_said (table_view document.now) }
{
    match integer_at(document, "format")? {
        1 => Some(Format::One),
        2 => Some(Format::Two),
        4 => Some(Format::Four),
        _ => None,
    }
}

/// Which controllers a document's format names; those of formats 1 and 2 where it says no format.
pub fn vocabulary_at(document: &Table) -> Vocabulary
    ensures { result ≡ option_map_or vocabulary (format_said (table_view document.now)) Vocabulary.Format2 }
{
    match format_at(document) {
        Some(format) => format.vocabulary(),
        None => Vocabulary::Format2,
    }
}

/// The controllers that the texts at a key name. `None` where one names none.
fn controllers_at(table: &Table, key: &str) -> Option<ControllerSet>
    ensures { result ≡ controllers_said key.now (table_view table.now) }
{
    let elements = elements_at(table, key);
    let mut controllers = ControllerSet::none();
    for element in elements {
        if let Some(text) = element.as_str() {
            controllers = controllers.with(Controller::from_name(text)?, true);
        }
    }
    Some(controllers)
}

/// The controllers that the texts at a key name. `None` where one names none that the format has.
pub fn known_at(table: &Table, key: &str, format: Format) -> Option<ControllerSet>
    ensures { result ≡ known_said format key.now (table_view table.now) }
{
    let controllers = controllers_at(table, key)?;
    if format.vocabulary().has_all(controllers) {
        Some(controllers)
    } else {
        None
    }
}

/// The path at a key, or `fault` where there is none.
pub fn path_at(alloc: Global, table: &Table, key: &str, fault: TreeFault) -> Result<Path, TreeFault>
    ensures { Passes (λ path. path_said key.now (table_view table.now) ≡ Some path)
        (first (absent (path_said key.now (table_view table.now)) fault)) result }
{
    let Some(text) = text_at(table, key) else {
        return Err(fault);
    };
    match Path::parse(alloc, text) {
        Ok(path) => Ok(path),
        Err(PathFault::BadPath) => Err(fault),
        Err(PathFault::NoMemory) => Err(TreeFault::NoMemory),
    }
}

/// A uid or a gid, 0 where it is missing. `None` where it is out of range.
pub fn id_read(written: Option<i64>) -> Option<u32>
    ensures { result ≡ id_read written }
{
    match written {
        None => Some(0),
        Some(number) => u32::try_from(number).ok(),
    }
}

/// A mode. `None` where it is out of range or has a bit that its format has not.
pub fn mode_read(format: Format, missing: u16, written: Option<i64>) -> Option<u16>
    ensures { result ≡ mode_read format missing written }
{
    let mode = match written {
        None => missing,
        Some(number) => u16::try_from(number).ok()?,
    };
    if mode > 0o777 || (format == Format::One && mode & 0o020 == 0o020) {
        return None;
    }
    Some(mode)
}

pub fn pid_read(written: i64) -> Option<Pid>
    ensures { result ≡ pid_read written }
{
    Pid::new(u32::try_from(written).ok()?)
}

/// The integer at a key of a table that may be left out.
fn number_at(table: Option<&Table>, key: &str) -> Option<i64>
    ensures { result ≡ integer_at key.now (written table.entry) }
{
    integer_at(table?, key)
}

/// The owner, the group and the mode of an entry, as its table says them.
pub fn owner_of(format: Format, missing: u16, table: Option<&Table>) -> Option<Entry>
    ensures { result ≡ owner_said format missing (written table.entry) }
{
    let uid = id_read(number_at(table, "uid"))?;
    let gid = id_read(number_at(table, "gid"))?;
    let mode = mode_read(format, missing, number_at(table, "mode"))?;
    Some(Entry { uid, gid, mode })
}

/// The value that a key of a limit file's table has: a number from 0 on, or no limit.
fn limit_read(value: &Value) -> Option<Limit>
    ensures { result ≡ limit_of (view value.now) }
{
    match value {
        Value::Integer(number) => Some(Limit::At(u64::try_from(*number).ok()?)),
        Value::String(text) if text.as_str() == "max" => Some(Limit::Max),
        _ => None,
    }
}

/// The value of a limit file, as its table says it. `None` where the file doesn't accept it.
pub fn limit_of(file: LimitFile, table: Option<&Table>) -> Option<Limit>
    ensures { result ≡ limit_said file (written table.entry) }
{
    let Some(value) = member_of(table, "value") else {
        return Some(file.default_value());
    };
    let limit = limit_read(value)?;
    if file.accepts(limit) {
        Some(limit)
    } else {
        None
    }
}

/// What stands at a key of a table that may be left out.
fn member_of<'a>(table: Option<&'a Table>, key: &str) -> Option<&'a Value>
    ensures { option_map (λ v. view v.now) result ≡ get_member key.now (written table.entry) }
{
    member(table?, key)
}

/// The most bytes of a line of a value of a limit file beyond `LimitFile`.
const LONGEST_LINE: usize = 4095;

/// Whether a text is such a line: printable words, one or more, with one space between them.
pub fn is_text_line(text: &str) -> bool
    ensures { result ≡ is_text_line text.now }
{
    text.len() <= LONGEST_LINE && is_one_line(text)
}

/// Puts a line behind others.
fn add_line(text: &mut String, is_first: bool, line: &str) -> Result<(), NoMemory>
    ensures { IfOk result (λ _. string_bytes text.new ≡ line_added is_first (string_bytes text.old) line.now) }
{
    if !is_first {
        text.push_str("\n")?;
    }
    text.push_str(line)?;
    Ok(())
}

/// The text of the lines among these. `None` where there is none, or one isn't as it has to be.
fn text_of_lines(alloc: Global, lines: &[Value]) -> Result<Option<FileText>, NoMemory>
    ensures { IfOk result (λ text. text ≡ lines_text (filter_map as_str (map view lines.now))) }
{
    let mut text = String::new(alloc);
    let mut is_first = true;
    for value in lines {
        if let Some(line) = value.as_str() {
            if !is_text_line(line) {
                return Ok(None);
            }
            add_line(&mut text, is_first, line)?;
            is_first = false;
        }
    }
    if is_first {
        return Ok(None);
    }
    Ok(Some(FileText { text }))
}

fn text_of_line(alloc: Global, line: &str) -> Result<Option<FileText>, NoMemory>
    ensures { IfOk result (λ text. text ≡ lines_text (line.now ∷ [])) }
{
    if !is_text_line(line) {
        return Ok(None);
    }
    Ok(Some(FileText {
        text: String::from_str(alloc, line)?,
    }))
}

/// The decimal digits of an integer.
fn text_of_integer(alloc: Global, number: i64) -> Result<FileText, NoMemory>
    ensures { IfOk result (λ text. text ≡ signed_decimal number) }
{
    Ok(FileText {
        text: number.to_string(alloc)?,
    })
}

/// The text that a value of a limit file beyond `LimitFile` is. `None` where it is none.
fn text_of(alloc: Global, value: &Value) -> Result<Option<FileText>, NoMemory>
    ensures { IfOk result (λ text. text ≡ text_of (view value.now)) }
{
    match value {
        Value::Integer(number) => Ok(Some(text_of_integer(alloc, *number)?)),
        Value::String(line) => text_of_line(alloc, line.as_str()),
        Value::Array(lines) => text_of_lines(alloc, lines.as_slice()),
        _ => Ok(None),
    }
}

/// The value that the table of such a file says, where it says one. `None` where what it says is none.
pub fn text_said(alloc: Global, table: &Table) -> Result<Option<Option<FileText>>, NoMemory>
    ensures { IfOk result (λ text. text ≡ text_said (table_view table.now)) }
{
    let Some(value) = member(table, "value") else {
        return Ok(Some(None));
    };
    match text_of(alloc, value)? {
        Some(text) => Ok(Some(Some(text))),
        None => Ok(None),
    }
}
