//! Whom each guarded entry of subtrees lets in, and what their limits count.
ghost use Rattle.std.specs.Prelude.{◌≡◌, ◌++◌, false, IfOk, OnOk};
ghost use Rattle.std.specs.List.{All, flat_map};
ghost use Rattle.cg_cgroup.specs.Paths.{is_root};
ghost use Rattle.cg_model.specs.Guards.{guarded_entries, IsSubtree};
ghost use Rattle.cg_advice.specs.AdviceLines.{IsShown};
ghost use Rattle.cg_everybody.specs.Everybody.{everybody_of};
ghost use Rattle.cg_everybody.specs.Explained.{entry_explained, guarded_explained, subtree_explained, everybody_explained};

use crate::asked::Asked;
use crate::lines::{push_entry, subtree_line};
use cg_cgroup::memory::NoMemory;
use cg_cgroup::path::Path;
use cg_explain::first::is_told_of;
use cg_explain::pair::push_limits;
use cg_explain::text::holds_line;
use cg_guards::table::{Top, guarded_count, guarded_entry};
use cg_model::guard::GuardedEntry;
use cg_model::hierarchy::Hierarchy;
use std::alloc::Global;

/// Of each subtree its line, and below it of each guarded entry that is there, in the order of the guards, a line for each class of users
/// that it lets in of those who are asked about, or one that it lets nobody in; and last those of its two limits, with what they count. Of
/// a limit file beyond `LimitFile` of which nothing is told, and that lets nobody in, there is no line.
///
/// # Errors
/// `NoMemory` where an allocation was refused.
pub fn everybody_explained<H: Hierarchy>(
    alloc: Global,
    tree: &H,
    asked: &Asked<'_>,
    subtrees: &[Path],
) -> Result<Vec<u8>, NoMemory>
    requires { All (IsSubtree (H.state tree.now)) subtrees.now }
    ensures { IfOk result (λ text. text.items ≡ everybody_explained (H.state tree.now) (everybody_of asked.now) subtrees.now) }
{
    let mut text = Vec::new(alloc);
    for subtree in subtrees {
        push_subtree(alloc, &mut text, tree, asked, subtree)?;
    }
    Ok(text)
}

/// The lines of a subtree behind a text.
fn push_subtree<H: Hierarchy>(
    alloc: Global,
    text: &mut Vec<u8>,
    tree: &H,
    asked: &Asked<'_>,
    subtree: &Path,
) -> Result<(), NoMemory>
    requires { IsSubtree (H.state tree.now) subtree.now }
    ensures { OnOk result (text.new.items ≡ text.old.items ++ subtree_explained (H.state tree.now) (everybody_of asked.now) subtree.now) }
{
    let line = subtree_line(alloc, subtree)?.into_bytes();
    text.extend_from_slice(line.as_slice())?;
    push_guarded(alloc, text, tree, asked, subtree)?;
    push_limits(alloc, text, tree, subtree)?;
    Ok(())
}

/// The lines of the guarded entries of a subtree behind a text.
fn push_guarded<H: Hierarchy>(
    alloc: Global,
    text: &mut Vec<u8>,
    tree: &H,
    asked: &Asked<'_>,
    subtree: &Path,
) -> Result<(), NoMemory>
    requires { is_root subtree.now ≡ false }
    ensures { OnOk result (text.new.items ≡ text.old.items
        ++ flat_map (guarded_explained (H.state tree.now) (everybody_of asked.now) subtree.now) (guarded_entries subtree.now)) }
{
    let top = Top::of(tree, subtree);
    for place in 0..guarded_count(subtree) {
        let Some(at) = guarded_entry(tree, subtree, top, place) else {
            continue;
        };
        push_explained(alloc, text, tree, asked, subtree, &at)?;
    }
    Ok(())
}

/// The lines of an entry behind a text.
fn push_explained<H: Hierarchy>(
    alloc: Global,
    text: &mut Vec<u8>,
    tree: &H,
    asked: &Asked<'_>,
    subtree: &Path,
    at: &GuardedEntry,
) -> Result<(), NoMemory>
    requires { IsShown subtree.now at.now }
    ensures { OnOk result (text.new.items ≡ text.old.items ++ entry_explained (H.state tree.now) (everybody_of asked.now) subtree.now at.now) }
{
    if asked.lets_anybody_in(&at.entry) {
        push_entry(alloc, text, asked, subtree, at)?;
    } else if is_told_of(tree, subtree, at.name) {
        let line = holds_line(alloc, subtree, at)?.into_bytes();
        text.extend_from_slice(line.as_slice())?;
    }
    Ok(())
}
