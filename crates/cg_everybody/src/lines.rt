//! The lines of a report on everybody.
ghost use Rattle.std.specs.Prelude.{◌≡◌, ◌++◌, ◌∷◌, [], cond, false, IfOk, OnOk, map, string_bytes};
ghost use Rattle.std.specs.List.{All, flat_map};
ghost use Rattle.cg_model.specs.Guards.{guarded_entries, IsSubtree};
ghost use Rattle.cg_cgroup.specs.Paths.{is_root};
ghost use Rattle.cg_advice.specs.AdviceLines.{IsShown, fails_line, over_line};
ghost use Rattle.cg_everybody.specs.Everybody.{opens_to, classes_in, entrance_lines, found_lines, subtree_line, headed, everybody_lines, everybody_of};
ghost use Rattle.cg_everybody.specs.Entrances.{entrance_spot, IsWalked, class_lines};

use crate::asked::Asked;
use crate::entrance::Entrance;
use crate::walk::Walk;
use cg_advice::text::{fails_line, over_line};
use cg_cgroup::memory::NoMemory;
use cg_cgroup::path::Path;
use cg_guards::failed::is_over;
use cg_model::guard::GuardedEntry;
use cg_model::hierarchy::Hierarchy;
use cg_model::mend::Class;
use std::alloc::{AllocError, Global};

/// Of each subtree that somebody who is asked about may break, its line, and below it a line for each class of users that an entry lets
/// in on which a guard stands, and one where the subtree is over its limits. There are none exactly where each subtree is contained
/// against everybody who is asked about.
///
/// # Errors
/// `NoMemory` where an allocation was refused.
pub fn everybody_lines<H: Hierarchy>(
    alloc: Global,
    tree: &H,
    asked: &Asked<'_>,
    subtrees: &[Path],
) -> Result<Vec<u8>, NoMemory>
    requires { All (IsSubtree (H.state tree.now)) subtrees.now }
    ensures { IfOk result (λ text. text.items ≡ everybody_lines (H.state tree.now) (everybody_of asked.now) subtrees.now) }
{
    let mut walk = Walk::new(alloc);
    let mut text = Vec::new(alloc);
    for subtree in subtrees {
        let found = found_lines(alloc, tree, asked, &mut walk, subtree)?;
        push_headed(alloc, &mut text, subtree, found.as_slice())?;
    }
    Ok(text)
}

/// Lines of a subtree behind a text, below the line of the subtree, where there are any.
fn push_headed(
    alloc: Global,
    text: &mut Vec<u8>,
    subtree: &Path,
    found: &[u8],
) -> Result<(), NoMemory>
    ensures { OnOk result (text.new.items ≡ text.old.items ++ headed subtree.now found.now) }
{
    if found.is_empty() {
        return Ok(());
    }
    let line = subtree_line(alloc, subtree)?.into_bytes();
    text.extend_from_slice(line.as_slice())?;
    text.extend_from_slice(found)?;
    Ok(())
}

/// The line of a subtree.
pub(crate) fn subtree_line(alloc: Global, subtree: &Path) -> Result<String, AllocError>
    ensures { IfOk result (λ line. string_bytes line ≡ subtree_line subtree.now) }
{
    let place = subtree.prefix(subtree.depth());
    format!(in alloc; "subtree {place}\n")
}

/// What lets somebody break a subtree, which is the next of a walk, in the order of the guards.
fn found_lines<'a, H: Hierarchy>(
    alloc: Global,
    tree: &H,
    asked: &Asked<'_>,
    walk: &mut Walk<'a>,
    subtree: &'a Path,
) -> Result<Vec<u8>, NoMemory>
    requires subtree { IsSubtree (H.state tree.now) subtree.now }
    requires walked { IsWalked (H.state tree.now) (everybody_of asked.now) walk.old }
    ensures lines { IfOk result (λ text. text.items ≡ found_lines (H.state tree.now) (everybody_of asked.now) subtree.now) }
    ensures walked { OnOk result (IsWalked (H.state tree.now) (everybody_of asked.now) walk.new) }
{
    let mut text = guards_lines(alloc, tree, asked, walk, subtree)?;
    if is_over(tree, subtree) {
        let line = over_line(alloc, subtree)?.into_bytes();
        text.extend_from_slice(line.as_slice())?;
    }
    Ok(text)
}

/// The lines of the guarded entries of a subtree that let somebody in, which is the next of a walk.
fn guards_lines<'a, H: Hierarchy>(
    alloc: Global,
    tree: &H,
    asked: &Asked<'_>,
    walk: &mut Walk<'a>,
    subtree: &'a Path,
) -> Result<Vec<u8>, NoMemory>
    requires not_root { is_root subtree.now ≡ false }
    requires walked { IsWalked (H.state tree.now) (everybody_of asked.now) walk.old }
    ensures lines { IfOk result (λ text.
        text.items ≡ flat_map (entrance_lines (H.state tree.now) (everybody_of asked.now) subtree.now) (guarded_entries subtree.now)) }
    ensures walked { OnOk result (IsWalked (H.state tree.now) (everybody_of asked.now) walk.new) }
{
    let mut found = Vec::new(alloc);
    walk.next(&mut found, tree, asked, subtree)?;
    let text = entrances_lines(alloc, asked, found.as_slice())?;
    Ok(text)
}

/// The lines of entries that let somebody in.
fn entrances_lines(
    alloc: Global,
    asked: &Asked<'_>,
    found: &[Entrance<'_>],
) -> Result<Vec<u8>, NoMemory>
    ensures { IfOk result (λ text. text.items ≡ flat_map (class_lines (everybody_of asked.now)) (map entrance_spot found.now)) }
{
    let mut text = Vec::new(alloc);
    for each in found {
        push_entry(alloc, &mut text, asked, each.subtree, &each.at)?;
    }
    Ok(text)
}

/// A line for each class that an entry lets in, behind a text.
pub(crate) fn push_entry(
    alloc: Global,
    text: &mut Vec<u8>,
    asked: &Asked<'_>,
    subtree: &Path,
    at: &GuardedEntry,
) -> Result<(), NoMemory>
    requires { IsShown subtree.now at.now }
    ensures { OnOk result (text.new.items ≡ text.old.items ++ flat_map (fails_line subtree.now at.now) (classes_in (everybody_of asked.now) at.now.entry)) }
{
    push_class(alloc, text, asked, subtree, at, Class::Owner)?;
    push_class(alloc, text, asked, subtree, at, Class::Group)?;
    push_class(alloc, text, asked, subtree, at, Class::Others)?;
    Ok(())
}

/// The line of a class, where an entry lets it in.
fn push_class(
    alloc: Global,
    text: &mut Vec<u8>,
    asked: &Asked<'_>,
    subtree: &Path,
    at: &GuardedEntry,
    class: Class,
) -> Result<(), NoMemory>
    requires { IsShown subtree.now at.now }
    ensures { OnOk result (text.new.items ≡ text.old.items ++ cond (opens_to (everybody_of asked.now) at.now.entry class) (fails_line subtree.now at.now class) []) }
{
    if asked.opens_to(&at.entry, class) {
        let line = fails_line(alloc, subtree, at, class)?.into_bytes();
        text.extend_from_slice(line.as_slice())?;
    }
    Ok(())
}
