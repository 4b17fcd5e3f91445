//! Setting a limit file beyond `LimitFile`, or its mode: what is told of it.
ghost use Rattle.std.specs.Prelude.{◌≡◌, [], OnOk, OnErr, IfOk};
ghost use Rattle.cg_cgroup.specs.declared.files.EntryName.TheVariants.{Other};
ghost use Rattle.cg_model.specs.States.{entry_at, told_text, with_text, with_mode};
ghost use Rattle.cg_model.specs.WellFormed.{IsWellFormed};
ghost use Rattle.cg_model.specs.Clauses.{first};
ghost use Rattle.cg_model.specs.Bars.{set_other_bars, chmod_bars};

use cg_cgroup::files::EntryName;
use cg_cgroup::memory::NoMemory;
use cg_cgroup::other_file::OtherFile;
use cg_cgroup::path::Path;
use cg_cgroup::told::{FileText, ToldFile};
use cg_cgroup::user::{Entry, Mode, User};
use cg_model::files::{entry_at, told_at, untold_at};
use cg_model::hierarchy::Hierarchy;
use cg_model::outcome::Refusal;
use std::alloc::Global;

/// The first refusal that a write of a value meets.
pub fn refusal<H: Hierarchy>(tree: &H, user: &User, at: &Path, file: OtherFile) -> Option<Refusal>
    ensures { result ≡ first (set_other_bars (H.state tree.now) user.now at.now file) }
{
    let len = at.depth();
    if tree.get(at, len).is_none() {
        return Some(Refusal::NoSuchCgroup { len });
    }
    let entry = EntryName::Other(file);
    let Some(held) = entry_at(tree, at, len, entry) else {
        return Some(Refusal::NoSuchFile { entry });
    };
    if !user.may_write(&held) {
        return Some(Refusal::NoAccess { len, entry });
    }
    None
}

/// Writes a value that nothing refuses. Nothing has changed where memory is wanted.
pub fn set<H: Hierarchy>(
    alloc: Global,
    tree: &mut H,
    user: &User,
    at: &Path,
    file: OtherFile,
    value: &FileText,
) -> Result<(), NoMemory>
    requires { set_other_bars (H.state tree.old) user.now at.now file ≡ [] }
    ensures ok { OnOk result (H.state tree.new ≡ with_text (H.state tree.old) at.now file value.now) }
    ensures err { OnErr result (H.state tree.new ≡ H.state tree.old) }
{
    let Some(entry) = owned(tree, at, file) else {
        unreachable!()
    };
    let value = Some(value.try_clone(alloc)?);
    tree.tell(alloc, at, file, ToldFile { entry, value })
}

/// Sets the mode of a file, which nothing refuses. Nothing has changed where memory is wanted.
pub fn set_mode<H: Hierarchy>(
    alloc: Global,
    tree: &mut H,
    user: &User,
    at: &Path,
    file: OtherFile,
    mode: Mode,
) -> Result<(), NoMemory>
    requires { chmod_bars (H.state tree.old) user.now at.now (Other file) ≡ [] }
    ensures ok { OnOk result (H.state tree.new ≡ with_mode (H.state tree.old) at.now (Other file) mode) }
    ensures err { OnErr result (H.state tree.new ≡ H.state tree.old) }
{
    let Some(entry) = owned(tree, at, file) else {
        unreachable!()
    };
    let value = kept_value(alloc, tree, at, file)?;
    let entry = Entry {
        mode: mode.get(),
        ..entry
    };
    tree.tell(alloc, at, file, ToldFile { entry, value })
}

/// The owner, group and mode of a file, where it stands.
fn owned<H: Hierarchy>(tree: &H, at: &Path, file: OtherFile) -> Option<Entry>
    ensures entry { result ≡ entry_at (H.state tree.now) at.now (Other file) }
    ensures formed { IsWellFormed (H.state tree.now) }
{
    let len = at.depth();
    match tree.told(at, len) {
        Some(files) => match files.get(file) {
            Some(told) => Some(told.entry),
            None => untold_at(tree, at, len, file),
        },
        None => untold_at(tree, at, len, file),
    }
}

/// A copy of the value that is told of a file, if one is.
fn kept_value<H: Hierarchy>(
    alloc: Global,
    tree: &H,
    at: &Path,
    file: OtherFile,
) -> Result<Option<FileText>, NoMemory>
    ensures { IfOk result (λ value. value ≡ told_text (H.state tree.now) at.now file) }
{
    let Some(told) = told_at(tree, at, at.depth(), file) else {
        return Ok(None);
    };
    match &told.value {
        Some(value) => Ok(Some(value.try_clone(alloc)?)),
        None => Ok(None),
    }
}
