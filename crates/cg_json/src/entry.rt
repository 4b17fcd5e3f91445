//! The objects of guarded entries that let somebody in, and of changes.
ghost use Rattle.std.specs.Prelude.{◌≡◌, ◌≤◌, ◌++◌, ◌∷◌, [], cond, map, length, option_to_list, IfOk, OnOk};
ghost use Rattle.std.specs.Option.{ForSome};
ghost use Rattle.cg_advice.specs.AdviceLines.{IsShown, class_name, len_of};
ghost use Rattle.cg_advice.specs.WayLines.{has_way};
ghost use Rattle.serde_json.specs.Data.{string};
ghost use Rattle.serde_json.specs.View.{view, members_view};
ghost use Rattle.cg_json.specs.Entries.{put_owner, at_guard, entry_members, classes_value, mend_members, mend_value, changes_by, changes_value};

use crate::members::{put_number, put_text, text_alone};
use crate::operation::{chmod_members, of_entry, put_mode, set_members};
use cg_advice::mend::{chmod_of, chown_of, class_name};
use cg_advice::ways::Ways;
use cg_cgroup::path::Path;
use cg_model::guard::GuardedEntry;
use cg_model::mend::{Class, Mend};
use serde_json::{Map, Value};
use std::alloc::{AllocError, Global};

/// A guard, and the text of a path.
pub fn at_guard(alloc: Global, guard: &str, place: &str) -> Result<Map<String, Value>, AllocError>
    ensures { IfOk result (λ members. members_view members.entries ≡ at_guard guard.now place.now) }
{
    let mut members = text_alone(alloc, "guard", guard)?;
    put_text(&mut members, alloc, "path", place)?;
    Ok(members)
}

/// A guard on an entry, and the entry with its owner, group and mode.
pub fn entry_members(
    alloc: Global,
    subtree: &Path,
    at: &GuardedEntry,
) -> Result<Map<String, Value>, AllocError>
    requires { IsShown subtree.now at.now }
    ensures { IfOk result (λ members. members_view members.entries ≡ entry_members subtree.now at.now) }
{
    let mut members = at_guard(alloc, at.guard.name(), subtree.prefix(at.len))?;
    put_text(&mut members, alloc, "entry", at.name.name())?;
    put_owner(&mut members, alloc, at.entry.uid, at.entry.gid)?;
    put_mode(&mut members, alloc, at.entry.mode)?;
    Ok(members)
}

/// An owner and a group.
fn put_owner(
    members: &mut Map<String, Value>,
    alloc: Global,
    uid: u32,
    gid: u32,
) -> Result<(), AllocError>
    ensures { OnOk result (members_view members.new.entries ≡ put_owner uid gid (members_view members.old.entries)) }
{
    put_number(members, alloc, "uid", u64::from(uid))?;
    put_number(members, alloc, "gid", u64::from(gid))
}

/// A list of the classes by which users get in, in their order.
pub fn classes_value(alloc: Global, ways: Ways) -> Result<Value, AllocError>
    ensures { IfOk result (λ value. view value ≡ classes_value ways) }
{
    let mut list = Vec::new(alloc);
    push_class(&mut list, alloc, ways, Class::Owner)?;
    push_class(&mut list, alloc, ways, Class::Group)?;
    push_class(&mut list, alloc, ways, Class::Others)?;
    Ok(Value::from(list))
}

/// The word of a class behind others, where a user gets in by it.
fn push_class(
    list: &mut Vec<Value>,
    alloc: Global,
    ways: Ways,
    class: Class,
) -> Result<(), AllocError>
    ensures { OnOk result (map view list.new.items
        ≡ map view list.old.items ++ cond (has_way ways class) (string (class_name class) ∷ []) []) }
{
    if ways.has(class) {
        let word = Value::try_from_str(alloc, class_name(class))?;
        list.push(word)?;
    }
    Ok(())
}

/// A list of what mends an entry for all who get in, in order.
pub fn changes_value(
    alloc: Global,
    subtree: &Path,
    at: &GuardedEntry,
    ways: Ways,
) -> Result<Value, AllocError>
    requires { IsShown subtree.now at.now }
    ensures { IfOk result (λ value. view value ≡ changes_value subtree.now (changes_by ways at.now)) }
{
    let mut list = Vec::new(alloc);
    push_mend(&mut list, alloc, subtree, chown_of(ways, at))?;
    push_mend(&mut list, alloc, subtree, chmod_of(ways, at))?;
    Ok(Value::from(list))
}

/// The object of a change behind others, where there is one.
pub fn push_mend(
    list: &mut Vec<Value>,
    alloc: Global,
    subtree: &Path,
    mend: Option<Mend>,
) -> Result<(), AllocError>
    requires { ForSome mend (λ mend. len_of mend ≤ length subtree.now) }
    ensures { OnOk result (map view list.new.items ≡ map view list.old.items ++ map (mend_value subtree.now) (option_to_list mend)) }
{
    if let Some(mend) = mend {
        let members = mend_members(alloc, subtree, &mend)?;
        list.push(Value::from(members))?;
    }
    Ok(())
}

/// A change. A chmod and a set are operations.
fn mend_members(
    alloc: Global,
    subtree: &Path,
    mend: &Mend,
) -> Result<Map<String, Value>, AllocError>
    requires { len_of mend.now ≤ length subtree.now }
    ensures { IfOk result (λ members. members_view members.entries ≡ mend_members subtree.now mend.now) }
{
    match *mend {
        Mend::Chown {
            len,
            name,
            uid,
            gid,
        } => {
            let mut members = of_entry(alloc, "chown", subtree.prefix(len), name.name())?;
            put_owner(&mut members, alloc, uid, gid)?;
            Ok(members)
        }
        Mend::Chmod { len, name, mode } => {
            chmod_members(alloc, subtree.prefix(len), name, mode.get())
        }
        Mend::Set { len, file, value } => set_members(alloc, subtree.prefix(len), file, value),
    }
}
