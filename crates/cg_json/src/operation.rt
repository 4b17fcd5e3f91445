//! The objects of operations.
ghost use Rattle.std.specs.Prelude.{◌≡◌, ◌≤◌, codes, IfOk, OnOk, string_bytes};
ghost use Rattle.cg_cgroup.specs.Paths.{path_text};
ghost use Rattle.cg_cgroup.specs.Files.{other_name};
ghost use Rattle.cg_lines.specs.OperationLines.{change_word};
ghost use Rattle.cg_model.specs.declared.operation.Op.TheVariants.{Fork};
ghost use Rattle.serde_json.specs.View.{view, members_view};
ghost use Rattle.cg_json.specs.Members.{put_text};
ghost use Rattle.cg_json.specs.Operations.{of_path, of_process, of_entry, put_mode, limit_value, words_value, control_members, set_members, chmod_members, op_members, op_value, ops_value};

use crate::members::{put_number, put_text, text_alone};
use cg_advice::text::mode_word;
use cg_cgroup::files::{EntryName, Limit, LimitFile};
use cg_cgroup::other_file::OtherFile;
use cg_cgroup::path::Path;
use cg_cgroup::process::Pid;
use cg_cgroup::told::FileText;
use cg_model::changes::Change;
use cg_model::operation::Op;
use serde_json::{Map, Value, put};
use std::alloc::{AllocError, Global};

/// A list of operations, in order.
pub fn ops_value(alloc: Global, ops: &[Op]) -> Result<Value, AllocError>
    ensures { IfOk result (λ value. view value ≡ ops_value ops.now) }
{
    let mut list = Vec::new(alloc);
    for op in ops {
        let value = op_value(alloc, op)?;
        list.push(value)?;
    }
    Ok(Value::from(list))
}

/// The object of an operation: its word, and what it names.
fn op_value(alloc: Global, op: &Op) -> Result<Value, AllocError>
    ensures { IfOk result (λ value. view value ≡ op_value op.now) }
{
    let members = op_members(alloc, op)?;
    Ok(Value::from(members))
}

fn op_members(alloc: Global, op: &Op) -> Result<Map<String, Value>, AllocError>
    ensures { IfOk result (λ members. members_view members.entries ≡ op_members op.now) }
{
    match op {
        Op::Move { pid, to } => move_members(alloc, *pid, whole(to)),
        Op::Control { at, changes } => control_members(alloc, whole(at), changes.as_slice()),
        Op::Mkdir { path } => of_path(alloc, "mkdir", whole(path)),
        Op::Rmdir { path } => of_path(alloc, "rmdir", whole(path)),
        Op::Set { at, file, value } => set_members(alloc, whole(at), *file, *value),
        Op::SetOther { at, file, value } => set_other_members(alloc, whole(at), *file, value),
        Op::Fork { parent, child } => fork_members(alloc, *parent, *child),
        Op::Exit { pid } => of_process(alloc, "exit", *pid),
        Op::Chmod { at, entry, mode } => chmod_members(alloc, whole(at), *entry, mode.get()),
    }
}

fn whole(path: &Path) -> &str
    ensures { result.now ≡ path_text path.now }
{
    path.prefix(path.depth())
}

/// An operation's word, and the text of a path.
fn of_path(alloc: Global, word: &str, place: &str) -> Result<Map<String, Value>, AllocError>
    ensures { IfOk result (λ members. members_view members.entries ≡ of_path word.now place.now) }
{
    let mut members = text_alone(alloc, "operation", word)?;
    put_text(&mut members, alloc, "path", place)?;
    Ok(members)
}

/// An operation's word, and a process.
fn of_process(alloc: Global, word: &str, pid: Pid) -> Result<Map<String, Value>, AllocError>
    ensures { IfOk result (λ members. members_view members.entries ≡ of_process word.now pid) }
{
    let mut members = text_alone(alloc, "operation", word)?;
    put_number(&mut members, alloc, "pid", u64::from(pid.get()))?;
    Ok(members)
}

/// An operation's word, the text of a path, and the name of an entry there.
pub fn of_entry(
    alloc: Global,
    word: &str,
    place: &str,
    entry: &str,
) -> Result<Map<String, Value>, AllocError>
    ensures { IfOk result (λ members. members_view members.entries ≡ of_entry word.now place.now entry.now) }
{
    let mut members = of_path(alloc, word, place)?;
    put_text(&mut members, alloc, "entry", entry)?;
    Ok(members)
}

fn move_members(alloc: Global, pid: Pid, to: &str) -> Result<Map<String, Value>, AllocError>
    ensures { IfOk result (λ members. members_view members.entries ≡ put_text (codes "path") to.now (of_process (codes "move") pid)) }
{
    let mut members = of_process(alloc, "move", pid)?;
    put_text(&mut members, alloc, "path", to)?;
    Ok(members)
}

fn control_members(
    alloc: Global,
    place: &str,
    changes: &[Change],
) -> Result<Map<String, Value>, AllocError>
    ensures { IfOk result (λ members. members_view members.entries ≡ control_members place.now changes.now) }
{
    let words = words_value(alloc, changes)?;
    let mut members = of_path(alloc, "control", place)?;
    put(&mut members, alloc, "changes", words)?;
    Ok(members)
}

/// A list of the changes' words, in order.
fn words_value(alloc: Global, changes: &[Change]) -> Result<Value, AllocError>
    ensures { IfOk result (λ value. view value ≡ words_value changes.now) }
{
    let mut list = Vec::new(alloc);
    for change in changes {
        let word = change_word(alloc, *change)?;
        list.push(Value::from(word))?;
    }
    Ok(Value::from(list))
}

/// A plus or a minus sign and the controller.
fn change_word(alloc: Global, change: Change) -> Result<String, AllocError>
    ensures { IfOk result (λ word. string_bytes word ≡ change_word change) }
{
    let mut word = String::from_str(alloc, if change.on { "+" } else { "-" })?;
    word.push_str(change.controller.name())?;
    Ok(word)
}

pub fn set_members(
    alloc: Global,
    place: &str,
    file: LimitFile,
    value: Limit,
) -> Result<Map<String, Value>, AllocError>
    ensures { IfOk result (λ members. members_view members.entries ≡ set_members place.now file value) }
{
    let value = limit_value(alloc, value)?;
    let mut members = of_entry(alloc, "set", place, file.name())?;
    put(&mut members, alloc, "value", value)?;
    Ok(members)
}

/// A number, or `max`.
pub fn limit_value(alloc: Global, limit: Limit) -> Result<Value, AllocError>
    ensures { IfOk result (λ value. view value ≡ limit_value limit) }
{
    match limit {
        Limit::Max => Value::try_from_str(alloc, "max"),
        Limit::At(number) => Ok(Value::from(number)),
    }
}

fn set_other_members(
    alloc: Global,
    place: &str,
    file: OtherFile,
    value: &FileText,
) -> Result<Map<String, Value>, AllocError>
    ensures { IfOk result (λ members. members_view members.entries
        ≡ put_text (codes "value") value.now (of_entry (codes "set") place.now (other_name file))) }
{
    let mut members = of_entry(alloc, "set", place, file.name())?;
    put_text(&mut members, alloc, "value", value.text.as_str())?;
    Ok(members)
}

fn fork_members(alloc: Global, parent: Pid, child: Pid) -> Result<Map<String, Value>, AllocError>
    ensures { IfOk result (λ members. members_view members.entries ≡ op_members (Fork parent child)) }
{
    let mut members = of_process(alloc, "fork", parent)?;
    put_number(&mut members, alloc, "child", u64::from(child.get()))?;
    Ok(members)
}

pub fn chmod_members(
    alloc: Global,
    place: &str,
    entry: EntryName,
    mode: u16,
) -> Result<Map<String, Value>, AllocError>
    requires { mode ≤ 511 }
    ensures { IfOk result (λ members. members_view members.entries ≡ chmod_members place.now entry mode) }
{
    let mut members = of_entry(alloc, "chmod", place, entry.name())?;
    put_mode(&mut members, alloc, mode)?;
    Ok(members)
}

/// A mode in three octal digits.
pub fn put_mode(
    members: &mut Map<String, Value>,
    alloc: Global,
    mode: u16,
) -> Result<(), AllocError>
    requires { mode ≤ 511 }
    ensures { OnOk result (members_view members.new.entries ≡ put_mode mode (members_view members.old.entries)) }
{
    let word = mode_word(alloc, mode)?;
    put_text(members, alloc, "mode", word.as_str())
}
