//! Tries of one write: the limits of a subtree, what its parent enables, its removal.
ghost use Rattle.std.specs.Prelude.{◌≡◌, false, IfOk, Some, option_copied};
ghost use Rattle.std.specs.List.{list_any};
ghost use Rattle.std.specs.Option.{option_map_or};
ghost use Rattle.std.specs.FinMap as map;
ghost use Rattle.cg_cgroup.specs.Paths.{is_root, parent};
ghost use Rattle.cg_cgroup.specs.Values.{has_value_line};
ghost use Rattle.cg_cgroup.specs.Files.{enables};
ghost use Rattle.cg_model.specs.States.{row_at};
ghost use Rattle.cg_model.specs.WellFormed.{enabled_at};
ghost use Rattle.cg_model.specs.Tries.{other_value, other_text, device_of, on_device};
ghost use Rattle.cg_tries.specs.Finding.{if_allowed, set_of, first_listed_set, other_set_from, other_set_of, writes_some, writes_untold, first_other_set, first_set, control_of, told_control_of, first_control, first_write};
ghost use Rattle.std.specs.String.{string_bytes};

use crate::asker::Asker;
use cg_cgroup::cgroup::Cgroup;
use cg_cgroup::files::{Controller, Limit, LimitFile};
use cg_cgroup::memory::NoMemory;
use cg_cgroup::other_file::OtherFile;
use cg_cgroup::told::{FileText, ToldFiles};
use cg_cgroup::user::{Entry, User};
use cg_cgroup::value::{device_in, has_value_line};
use cg_model::changes::{Change, Changes};
use cg_model::hierarchy::Hierarchy;
use cg_model::operation::Op;
use cg_model::operations::Operations;
use cg_model::told::is_told;
use cg_ops::refusal;
use std::alloc::Global;

/// An operation alone, where nothing refuses it.
fn if_allowed<H: Hierarchy>(asker: &Asker<H>, op: Op) -> Result<Option<Operations>, NoMemory>
    ensures { IfOk result (λ found. found ≡ if_allowed (H.state asker.now.tree.now) asker.now.user.now op) }
{
    if refusal(asker.tree, asker.user, &op).is_some() {
        return Ok(None);
    }
    Ok(Some(Operations::only(asker.alloc, op)?))
}

/// Another value that the file accepts.
fn other_value(file: LimitFile, value: Limit) -> Limit
    ensures { result ≡ other_value file value }
{
    match (file, value) {
        (LimitFile::CpuWeight, Limit::At(100)) => Limit::At(1),
        (LimitFile::CpuWeight, _) => Limit::At(100),
        (_, Limit::At(_)) => Limit::Max,
        (_, Limit::Max) => Limit::At(0),
    }
}

/// A limit of the subtree to another value, where the user may set it.
fn set_of<H: Hierarchy>(
    asker: &Asker<H>,
    cgroup: &Cgroup,
    file: LimitFile,
) -> Result<Option<Operations>, NoMemory>
    requires { row_at (H.state asker.now.tree.now) asker.now.subtree.now ≡ Some cgroup.now }
    ensures { IfOk result (λ found. found ≡ set_of (H.state asker.now.tree.now) asker.now.user.now asker.now.subtree.now file) }
{
    let Some(held) = cgroup.file(file) else {
        return Ok(None);
    };
    let at = asker.subtree.try_clone(asker.alloc)?;
    let value = other_value(file, held.value);
    if_allowed(asker, Op::Set { at, file, value })
}

/// The first file of `LimitFile` of the subtree that the user may set to another value.
fn first_listed_set<H: Hierarchy>(
    asker: &Asker<H>,
    cgroup: &Cgroup,
) -> Result<Option<Operations>, NoMemory>
    requires { row_at (H.state asker.now.tree.now) asker.now.subtree.now ≡ Some cgroup.now }
    ensures { IfOk result (λ found. found ≡ first_listed_set (H.state asker.now.tree.now) asker.now.user.now asker.now.subtree.now) }
{
    for file in LimitFile::ALL {
        if let Some(found) = set_of(asker, cgroup, file)? {
            return Ok(Some(found));
        }
    }
    Ok(None)
}

/// Whether a file has this line, as far as its value is told.
fn has_line_of(had: Option<&FileText>, line: &str) -> bool
    ensures { result ≡ option_map_or (λ value. has_value_line value line.now) (option_copied had.entry) false }
{
    match had {
        Some(value) => has_value_line(&value.text, line),
        None => false,
    }
}

/// The device or resource that is told in the value of a file whose lines begin with one.
fn device_of(file: OtherFile, had: Option<&FileText>) -> Option<&str>
    ensures { option_copied result ≡ device_of file (option_copied had.entry) }
{
    match had {
        Some(value) if file.is_of_devices() => device_in(&value.text),
        _ => None,
    }
}

/// A text, behind the name of a device where there is one.
fn on_device(alloc: Global, device: Option<&str>, text: &str) -> Result<String, NoMemory>
    ensures { IfOk result (λ made. string_bytes made ≡ on_device (option_copied device.entry) text.now) }
{
    let Some(device) = device else {
        return Ok(String::from_str(alloc, text)?);
    };
    let mut line = String::from_str(alloc, device)?;
    line.push(' ')?;
    line.push_str(text)?;
    Ok(line)
}

/// Another text than the file's, the one that loosens it where it has no such line.
fn other_text(alloc: Global, file: OtherFile, had: Option<&FileText>) -> Result<String, NoMemory>
    ensures { IfOk result (λ made. string_bytes made ≡ other_text file (option_copied had.entry)) }
{
    let device = device_of(file, had);
    let loose = on_device(alloc, device, file.loose())?;
    if has_line_of(had, &loose) {
        on_device(alloc, device, file.other())
    } else {
        Ok(loose)
    }
}

/// A limit file of the subtree beyond `LimitFile` to another text than it had, where the user writes it.
fn set_from<H: Hierarchy>(
    asker: &Asker<H>,
    file: OtherFile,
    entry: &Entry,
    had: Option<&FileText>,
) -> Result<Option<Operations>, NoMemory>
    ensures { IfOk result (λ found. found
        ≡ other_set_from asker.now.user.now asker.now.subtree.now file entry.now (option_copied had.entry)) }
{
    if !asker.user.may_write(entry) {
        return Ok(None);
    }
    let at = asker.subtree.try_clone(asker.alloc)?;
    let text = other_text(asker.alloc, file, had)?;
    let value = FileText { text };
    Ok(Some(Operations::only(asker.alloc, Op::SetOther { at, file, value })?))
}

/// The same where it stands, if these are told.
#[tactic(auto, using(crate::proofs::OtherSets::set_told))]
fn other_set_of<H: Hierarchy>(
    asker: &Asker<H>,
    cgroup: &Cgroup,
    files: Option<&ToldFiles>,
    file: OtherFile,
) -> Result<Option<Operations>, NoMemory>
    requires row { row_at (H.state asker.now.tree.now) asker.now.subtree.now ≡ Some cgroup.now }
    requires told { option_copied files ≡ map.get (H.state asker.now.tree.now).told asker.now.subtree.now }
    ensures { IfOk result (λ found. found ≡ other_set_of (H.state asker.now.tree.now) asker.now.user.now asker.now.subtree.now file) }
{
    if let Some(files) = files {
        if let Some(told) = files.get(file) {
            return set_from(asker, file, &told.entry, told.value.as_ref());
        }
    }
    match cgroup.untold(file) {
        Some(entry) => set_from(asker, file, &entry, None),
        None => Ok(None),
    }
}

/// Whether the user writes an entry, where it is there.
fn writes_some(user: &User, entry: &Option<Entry>) -> bool
    ensures { result ≡ writes_some user.now entry.now }
{
    match entry {
        Some(entry) => user.may_write(entry),
        None => false,
    }
}

/// Whether the user writes one of these entries.
fn writes_any(user: &User, entries: &[Option<Entry>]) -> bool
    ensures { result ≡ list_any (writes_some user.now) entries.now }
{
    entries.iter().any(|entry| writes_some(user, entry))
}

/// Whether the user writes a limit file of a cgroup beyond `LimitFile`, where nothing is told of these: all that a
/// controller brings at once.
fn writes_untold(user: &User, cgroup: &Cgroup) -> bool
    ensures { result ≡ writes_untold user.now cgroup.now }
{
    writes_some(user, &cgroup.freeze) || writes_any(user, &cgroup.others.entries)
}

/// The first file beyond `LimitFile` of the subtree that the user may set to another text.
fn first_other_set<H: Hierarchy>(
    asker: &Asker<H>,
    cgroup: &Cgroup,
) -> Result<Option<Operations>, NoMemory>
    requires { row_at (H.state asker.now.tree.now) asker.now.subtree.now ≡ Some cgroup.now }
    ensures { IfOk result (λ found. found ≡ first_other_set (H.state asker.now.tree.now) asker.now.user.now asker.now.subtree.now) }
{
    let files = asker.tree.told(asker.subtree, asker.subtree.depth());
    if files.is_none() && !writes_untold(asker.user, cgroup) {
        return Ok(None);
    }
    for file in OtherFile::ALL {
        if let Some(found) = other_set_of(asker, cgroup, files, file)? {
            return Ok(Some(found));
        }
    }
    Ok(None)
}

/// The first limit of the subtree that the user may set to another value.
fn first_set<H: Hierarchy>(
    asker: &Asker<H>,
    cgroup: &Cgroup,
) -> Result<Option<Operations>, NoMemory>
    requires { row_at (H.state asker.now.tree.now) asker.now.subtree.now ≡ Some cgroup.now }
    ensures { IfOk result (λ found. found ≡ first_set (H.state asker.now.tree.now) asker.now.user.now asker.now.subtree.now) }
{
    match first_listed_set(asker, cgroup)? {
        Some(set) => Ok(Some(set)),
        None => first_other_set(asker, cgroup),
    }
}

/// Whether the subtree's parent enables a controller.
#[tactic(auto, using(cg_model::proofs::Prefixes::take_parent))]
fn is_enabled_above<H: Hierarchy>(asker: &Asker<H>, controller: Controller) -> bool
    requires { is_root asker.now.subtree.now ≡ false }
    ensures { result ≡ enables (enabled_at (H.state asker.now.tree.now) (parent asker.now.subtree.now)) controller }
{
    match asker.tree.get(asker.subtree, asker.subtree.parent_len()) {
        Some(parent) => parent.enabled.contains(controller),
        None => false,
    }
}

/// The change of a controller that has an effect at the subtree's parent, where the user may make it.
#[tactic(auto, using(cg_model::proofs::Prefixes::take_parent))]
fn control_of<H: Hierarchy>(
    asker: &Asker<H>,
    controller: Controller,
) -> Result<Option<Operations>, NoMemory>
    requires { is_root asker.now.subtree.now ≡ false }
    ensures { IfOk result (λ found. found ≡ control_of (H.state asker.now.tree.now) asker.now.user.now asker.now.subtree.now controller) }
{
    let on = !is_enabled_above(asker, controller);
    let mut changes = Changes::new(asker.alloc);
    changes.push(Change { on, controller })?;
    let at = asker
        .subtree
        .try_prefix(asker.alloc, asker.subtree.parent_len())?;
    if_allowed(asker, Op::Control { at, changes })
}

/// The same of a controller that is told of; none of another.
fn told_control_of<H: Hierarchy>(
    asker: &Asker<H>,
    controller: Controller,
) -> Result<Option<Operations>, NoMemory>
    requires { is_root asker.now.subtree.now ≡ false }
    ensures { IfOk result (λ found. found ≡ told_control_of (H.state asker.now.tree.now) asker.now.user.now asker.now.subtree.now controller) }
{
    if is_told(asker.tree, controller) {
        control_of(asker, controller)
    } else {
        Ok(None)
    }
}

/// The first change of one controller that is told of, at the subtree's parent, that the user may make and that has an effect.
#[tactic(auto, using(crate::proofs::Walks::first_control_told))]
fn first_control<H: Hierarchy>(asker: &Asker<H>) -> Result<Option<Operations>, NoMemory>
    requires { is_root asker.now.subtree.now ≡ false }
    ensures { IfOk result (λ found. found ≡ first_control (H.state asker.now.tree.now) asker.now.user.now asker.now.subtree.now) }
{
    for controller in Controller::ALL {
        if let Some(found) = told_control_of(asker, controller)? {
            return Ok(Some(found));
        }
    }
    Ok(None)
}

/// The first write that breaks the subtree: to one of its limits, to its parent's `cgroup.subtree_control`, or its removal.
pub fn first_write<H: Hierarchy>(
    asker: &Asker<H>,
    cgroup: &Cgroup,
) -> Result<Option<Operations>, NoMemory>
    requires row { row_at (H.state asker.now.tree.now) asker.now.subtree.now ≡ Some cgroup.now }
    requires not_root { is_root asker.now.subtree.now ≡ false }
    ensures { IfOk result (λ found. found ≡ first_write (H.state asker.now.tree.now) asker.now.user.now asker.now.subtree.now) }
{
    if let Some(set) = first_set(asker, cgroup)? {
        return Ok(Some(set));
    }
    if let Some(control) = first_control(asker)? {
        return Ok(Some(control));
    }
    let path = asker.subtree.try_clone(asker.alloc)?;
    if_allowed(asker, Op::Rmdir { path })
}
