//! The advice for users and subtrees, as text.
ghost use Rattle.std.specs.Prelude.{◌≡◌, ◌≤◌, ◌++◌, true, false, cond, [], map, length, option_to_list, IfOk, OnOk, OnErr, IfSome, string_bytes};
ghost use Rattle.std.specs.List.{All, flat_map, list_all};
ghost use Rattle.std.specs.Option.{ForSome, option_map};
ghost use Rattle.cg_model.specs.WellFormed.{has_row};
ghost use Rattle.cg_model.specs.Guards.{IsSubtree};
ghost use Rattle.cg_model.specs.Once.{once};
ghost use Rattle.cg_lines.specs.OperationLines.{mode_word};
ghost use Rattle.cg_cgroup.specs.declared.files.Limit.TheVariants.{At};
ghost use Rattle.cg_model.specs.Clauses.{unless};
ghost use Rattle.cg_model.specs.Mends.{same_place};
ghost use Rattle.cg_model.specs.declared.mend.Mend.TheVariants.{Set};
ghost use Rattle.cg_advice.specs.AdviceLines.{owner_word, mend_line, mend_lines, fails_line, over_line, over_lines, is_pair_guarded, advice_lines, IsShown, len_of};
ghost use Rattle.cg_advice.specs.WayLines.{has_way, lines_by};
ghost use Rattle.cg_advice.specs.Ways.{pair_of, entering, gathered_lines};
ghost use Rattle.cg_advice.specs.Thinned.{table_path};
ghost use Rattle.cg_cgroup.specs.Paths.{same_path};

use crate::entrants::entrants;
use crate::gathered::{Gathered, key_of};
use crate::mend::{chmod_of, chown_of, class_name};
use crate::pair::{Entrant, Pair};
use crate::table::Table;
use crate::ways::Ways;
use cg_cgroup::files::{Limit, LimitFile};
use cg_cgroup::memory::NoMemory;
use cg_cgroup::path::Path;
use cg_guards::failed::{failed_guard, fits_depth, fits_descendants, is_over};
use cg_lines::lines::op_text;
use cg_model::guard::{Guard, GuardedEntry};
use cg_model::hierarchy::Hierarchy;
use cg_model::mend::{Class, Mend};
use cg_model::operation::Op;
use std::alloc::{AllocError, Global};
use std::collections::BTreeSet;

/// What to change where a guard of its subtree fails against the user of a pair: for each entry that lets one in, where the
/// pairs meet it first, a line for each class by which one does, and below the last the changes that mend it for all; then
/// the same of the limits of the subtrees that are over one. `None` exactly where no guard fails.
///
/// # Errors
/// `NoMemory` where an allocation was refused, which never happens where no guard fails.
pub fn advice_lines<H: Hierarchy>(
    alloc: Global,
    tree: &H,
    pairs: &[Pair<'_>],
) -> Result<Option<Vec<u8>>, NoMemory>
    requires { All (λ pair. IsSubtree (H.state tree.now) pair.subtree.now) pairs.now }
    ensures lines { IfOk result (λ found. option_map (λ text. text.items) found ≡ advice_lines (H.state tree.now) (map pair_of pairs.now)) }
    ensures memory { OnErr result (list_all (is_pair_guarded (H.state tree.now)) (map pair_of pairs.now) ≡ false) }
{
    if are_guarded(tree, pairs) {
        return Ok(None);
    }
    let mut text = Vec::new(alloc);
    let met = entrants(alloc, tree, pairs)?;
    push_entries(alloc, &mut text, met.entrants.as_slice())?;
    push_all_limits(alloc, &mut text, tree, met.tables.as_slice())?;
    Ok(Some(text))
}

/// Whether no guard of its subtree fails for the user of any pair.
pub(crate) fn are_guarded<H: Hierarchy>(tree: &H, pairs: &[Pair<'_>]) -> bool
    requires { All (λ pair. IsSubtree (H.state tree.now) pair.subtree.now) pairs.now }
    ensures { result ≡ list_all (is_pair_guarded (H.state tree.now)) (map pair_of pairs.now) }
{
    for pair in pairs {
        if failed_guard(tree, pair.user, pair.subtree).is_some() {
            return false;
        }
    }
    true
}

/// The lines of each entry that lets one in, where it is met first, behind a text.
fn push_entries(alloc: Global, text: &mut Vec<u8>, entrants: &[Entrant<'_>]) -> Result<(), NoMemory>
    ensures { OnOk result (text.new.items ≡ text.old.items
        ++ flat_map (gathered_lines (map entering entrants.now)) (once same_place (map entering entrants.now))) }
{
    let gathered = Gathered::of(alloc, entrants)?;
    let mut seen = BTreeSet::new(alloc);
    for each in entrants {
        let key = key_of(alloc, each)?;
        let ways = gathered.at(&key);
        let is_new = seen.insert(key)?;
        if is_new {
            push_lines(alloc, text, each.pair.subtree, &each.at, ways)?;
        }
    }
    Ok(())
}

/// The lines of an entry, by what users get in there, behind a text.
///
/// # Errors
/// `NoMemory` where an allocation was refused.
pub fn push_lines(
    alloc: Global,
    text: &mut Vec<u8>,
    subtree: &Path,
    at: &GuardedEntry,
    ways: Ways,
) -> Result<(), NoMemory>
    requires { IsShown subtree.now at.now }
    ensures { OnOk result (text.new.items ≡ text.old.items ++ lines_by ways subtree.now at.now) }
{
    push_class(alloc, text, subtree, at, ways, Class::Owner)?;
    push_class(alloc, text, subtree, at, ways, Class::Group)?;
    push_class(alloc, text, subtree, at, ways, Class::Others)?;
    push_mend(alloc, text, subtree, chown_of(ways, at))?;
    push_mend(alloc, text, subtree, chmod_of(ways, at))?;
    Ok(())
}

/// The line of a class, where a user gets in by it.
fn push_class(
    alloc: Global,
    text: &mut Vec<u8>,
    subtree: &Path,
    at: &GuardedEntry,
    ways: Ways,
    class: Class,
) -> Result<(), NoMemory>
    requires { IsShown subtree.now at.now }
    ensures { OnOk result (text.new.items ≡ text.old.items ++ cond (has_way ways class) (fails_line subtree.now at.now class) []) }
{
    if ways.has(class) {
        let line = fails_line(alloc, subtree, at, class)?.into_bytes();
        text.extend_from_slice(line.as_slice())?;
    }
    Ok(())
}

/// The lines of the limits of each subtree that is over one, each once, behind a text.
fn push_all_limits<H: Hierarchy>(
    alloc: Global,
    text: &mut Vec<u8>,
    tree: &H,
    tables: &[Table<'_>],
) -> Result<(), NoMemory>
    requires { All (λ table. has_row (H.state tree.now) (table_path table) ≡ true) tables.now }
    ensures { OnOk result (text.new.items ≡ text.old.items
        ++ flat_map (over_lines (H.state tree.now)) (once same_path (map table_path tables.now))) }
{
    let mut seen = BTreeSet::new(alloc);
    for table in tables {
        let is_new = seen.insert(table.subtree)?;
        if is_new {
            push_limits(alloc, text, tree, table.subtree)?;
        }
    }
    Ok(())
}

/// The lines of the limits of the subtree, where it is over one, behind a text.
///
/// # Errors
/// `NoMemory` where an allocation was refused.
pub fn push_limits<H: Hierarchy>(
    alloc: Global,
    text: &mut Vec<u8>,
    tree: &H,
    subtree: &Path,
) -> Result<(), NoMemory>
    requires { has_row (H.state tree.now) subtree.now ≡ true }
    ensures { OnOk result (text.new.items ≡ text.old.items ++ over_lines (H.state tree.now) subtree.now) }
{
    if !is_over(tree, subtree) {
        return Ok(());
    }
    let line = over_line(alloc, subtree)?.into_bytes();
    text.extend_from_slice(line.as_slice())?;
    let len = subtree.depth();
    let Some(cgroup) = tree.get(subtree, len) else {
        unreachable!()
    };
    let fits = fits_descendants(tree, subtree, cgroup);
    let count = tree.count_below(subtree, len);
    let descendants = raised(subtree, LimitFile::MaxDescendants, fits, count);
    push_mend(alloc, text, subtree, descendants)?;
    let fits = fits_depth(tree, subtree, cgroup);
    let levels = tree.depth_below(subtree, len);
    let depth = raised(subtree, LimitFile::MaxDepth, fits, levels);
    push_mend(alloc, text, subtree, depth)?;
    Ok(())
}

/// The line of a subtree that is over its limits.
pub fn over_line(alloc: Global, subtree: &Path) -> Result<String, AllocError>
    ensures { IfOk result (λ line. string_bytes line ≡ over_line subtree.now) }
{
    let guard = Guard::AlreadyOver.name();
    let place = subtree.prefix(subtree.depth());
    format!(in alloc; "fails {guard} {place}\n")
}

/// A limit of the subtree raised to what is there, where that doesn't fit.
fn raised(subtree: &Path, file: LimitFile, fits: bool, there: u64) -> Option<Mend>
    ensures mend { option_to_list result ≡ unless fits (Set (length subtree.now) file (At there)) }
    ensures within { IfSome result (λ mend. len_of mend ≤ length subtree.now) }
{
    if fits {
        return None;
    }
    Some(Mend::Set {
        len: subtree.depth(),
        file,
        value: Limit::At(there),
    })
}

/// The line of a guard that fails on an entry: the entry's owner, group and mode, and a class by which it is reached.
pub fn fails_line(
    alloc: Global,
    subtree: &Path,
    at: &GuardedEntry,
    class: Class,
) -> Result<String, AllocError>
    requires { IsShown subtree.now at.now }
    ensures { IfOk result (λ line. string_bytes line ≡ fails_line subtree.now at.now class) }
{
    let guard = at.guard.name();
    let place = subtree.prefix(at.len);
    let name = at.name.name();
    let owner = owner_word(alloc, at.entry.uid, at.entry.gid)?;
    let mode = mode_word(alloc, at.entry.mode)?;
    let class = class_name(class);
    format!(in alloc; "fails {guard} {place} {name} {owner} {mode} {class}\n")
}

/// The line of a change, where there is one.
fn push_mend(
    alloc: Global,
    text: &mut Vec<u8>,
    subtree: &Path,
    mend: Option<Mend>,
) -> Result<(), NoMemory>
    requires { ForSome mend (λ mend. len_of mend ≤ length subtree.now) }
    ensures { OnOk result (text.new.items ≡ text.old.items ++ mend_lines subtree.now (option_to_list mend)) }
{
    let Some(mend) = mend else {
        return Ok(());
    };
    let line = mend_line(alloc, subtree, &mend)?;
    text.extend_from_slice(line.as_slice())?;
    Ok(())
}

/// The line of a change. A chmod and a set are operations.
fn mend_line(alloc: Global, subtree: &Path, mend: &Mend) -> Result<Vec<u8>, NoMemory>
    requires { len_of mend.now ≤ length subtree.now }
    ensures { IfOk result (λ line. line.items ≡ mend_line subtree.now mend.now) }
{
    match *mend {
        Mend::Chown {
            len,
            name,
            uid,
            gid,
        } => {
            let place = subtree.prefix(len);
            let name = name.name();
            let owner = owner_word(alloc, uid, gid)?;
            Ok(format!(in alloc; "chown {place} {name} {owner}\n")?.into_bytes())
        }
        Mend::Chmod { len, name, mode } => {
            let at = subtree.try_prefix(alloc, len)?;
            op_text(
                alloc,
                &Op::Chmod {
                    at,
                    entry: name,
                    mode,
                },
            )
        }
        Mend::Set { len, file, value } => {
            let at = subtree.try_prefix(alloc, len)?;
            op_text(alloc, &Op::Set { at, file, value })
        }
    }
}

/// An owner and a group, in one word.
pub fn owner_word(alloc: Global, uid: u32, gid: u32) -> Result<String, AllocError>
    ensures { IfOk result (λ word. string_bytes word ≡ owner_word uid gid) }
{
    format!(in alloc; "{uid}:{gid}")
}

/// A mode in three octal digits.
pub fn mode_word(alloc: Global, mode: u16) -> Result<String, AllocError>
    requires { mode ≤ 511 }
    ensures { IfOk result (λ word. string_bytes word ≡ mode_word mode) }
{
    let owner = mode / 64;
    let group = mode / 8 % 8;
    let others = mode % 8;
    let word = format!(in alloc; "{owner}{group}{others}")?;
    Ok(word)
}
