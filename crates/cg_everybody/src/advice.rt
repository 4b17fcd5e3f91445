//! What to change so that nobody is let in who is asked about.
ghost use Rattle.std.specs.Prelude.{◌≡◌, ◌++◌, ◌∷◌, [], map, take, IfOk, OnOk};
ghost use Rattle.std.specs.List.{All, flat_map};
ghost use Rattle.cg_cgroup.specs.Files.{entry_text};
ghost use Rattle.cg_cgroup.specs.Paths.{same_path};
ghost use Rattle.cg_model.specs.Guards.{IsSubtree};
ghost use Rattle.cg_model.specs.Once.{once};
ghost use Rattle.cg_advice.specs.AdviceLines.{over_lines};
ghost use Rattle.cg_advice.specs.Found.{stand_let};
ghost use Rattle.cg_everybody.specs.Advice.{handed_back, ways_into, same_spot, let_into, let_lines, everybody_advice};
ghost use Rattle.cg_everybody.specs.Everybody.{entrances, everybody_of};
ghost use Rattle.cg_everybody.specs.Entrances.{entrance_spot};

use crate::asked::Asked;
use crate::entrance::Entrance;
use crate::walk::Walk;
use cg_advice::pair::Stand;
use cg_advice::text::{push_limits, push_lines};
use cg_advice::ways::Ways;
use cg_cgroup::memory::NoMemory;
use cg_cgroup::path::Path;
use cg_cgroup::user::Entry;
use cg_model::hierarchy::Hierarchy;
use cg_model::mend::Class;
use std::alloc::Global;
use std::collections::BTreeSet;

/// For each entry that lets somebody in who is asked about, where the subtrees meet it first, a line for each class that it lets in, and
/// below the last the changes that take it from them; then the same of the limits of each subtree that is over one. There are none exactly
/// where each subtree is contained against everybody who is asked about.
///
/// # Errors
/// `NoMemory` where an allocation was refused.
pub fn everybody_advice<H: Hierarchy>(
    alloc: Global,
    tree: &H,
    asked: &Asked<'_>,
    subtrees: &[Path],
) -> Result<Vec<u8>, NoMemory>
    requires { All (IsSubtree (H.state tree.now)) subtrees.now }
    ensures { IfOk result (λ text. text.items ≡ everybody_advice (H.state tree.now) (everybody_of asked.now) subtrees.now) }
{
    let found = all_entrances(alloc, tree, asked, subtrees)?;
    let stands = stands_of(alloc, asked, found.as_slice())?;
    let mut text = Vec::new(alloc);
    push_stands(alloc, &mut text, stands.as_slice())?;
    push_all_limits(alloc, &mut text, tree, subtrees)?;
    Ok(text)
}

/// The entries that let somebody in, of one subtree after another.
pub(crate) fn all_entrances<'a, H: Hierarchy>(
    alloc: Global,
    tree: &H,
    asked: &Asked<'_>,
    subtrees: &'a [Path],
) -> Result<Vec<Entrance<'a>>, NoMemory>
    requires { All (IsSubtree (H.state tree.now)) subtrees.now }
    ensures { IfOk result (λ found. map entrance_spot found.items ≡ flat_map (entrances (H.state tree.now) (everybody_of asked.now)) subtrees.now) }
{
    let mut walk = Walk::new(alloc);
    let mut found = Vec::new(alloc);
    for subtree in subtrees {
        walk.next(&mut found, tree, asked, subtree)?;
    }
    Ok(found)
}

/// Each entry that lets somebody in, where it is met first, and by what.
pub(crate) fn stands_of<'a>(
    alloc: Global,
    asked: &Asked<'_>,
    found: &[Entrance<'a>],
) -> Result<Vec<Stand<'a>>, NoMemory>
    ensures { IfOk result (λ stands. map stand_let stands.items
        ≡ map (let_into (everybody_of asked.now)) (once same_spot (map entrance_spot found.now))) }
{
    let mut stands = Vec::new(alloc);
    let mut seen = BTreeSet::new(alloc);
    for each in found {
        let key = key_of(alloc, each)?;
        let is_new = seen.insert(key)?;
        if is_new {
            push_stand(&mut stands, asked, each)?;
        }
    }
    Ok(stands)
}

/// An entry that lets somebody in, and by what, behind others.
fn push_stand<'a>(
    stands: &mut Vec<Stand<'a>>,
    asked: &Asked<'_>,
    each: &Entrance<'a>,
) -> Result<(), NoMemory>
    ensures { OnOk result (map stand_let stands.new.items
        ≡ map stand_let stands.old.items ++ (let_into (everybody_of asked.now) (entrance_spot each.now) ∷ [])) }
{
    let ways = ways_into(asked, &each.at.entry);
    stands.push(Stand {
        subtree: each.subtree,
        at: each.at,
        ways,
    })?;
    Ok(())
}

/// The lines of entries behind a text.
fn push_stands(alloc: Global, text: &mut Vec<u8>, stands: &[Stand<'_>]) -> Result<(), NoMemory>
    ensures { OnOk result (text.new.items ≡ text.old.items ++ flat_map (λ stand. let_lines (stand_let stand)) stands.now) }
{
    for stand in stands {
        push_lines(alloc, text, stand.subtree, &stand.at, stand.ways)?;
    }
    Ok(())
}

/// An entry: the path of its cgroup, and its name.
fn key_of(alloc: Global, each: &Entrance<'_>) -> Result<(Path, &'static str), NoMemory>
    ensures path { IfOk result (λ key. key.0 ≡ take each.now.at.len each.now.subtree.now) }
    ensures name { IfOk result (λ key. key.1.now ≡ entry_text each.now.at.name) }
{
    let path = each.subtree.try_prefix(alloc, each.at.len)?;
    Ok((path, each.at.name.name()))
}

/// By what an entry lets somebody in, and by which bits once root has it in place of an owner who is let in.
pub(crate) fn ways_into(asked: &Asked<'_>, entry: &Entry) -> Ways
    ensures { result ≡ ways_into (everybody_of asked.now) entry.now }
{
    let given = handed_back(asked, entry);
    let owner = asked.opens_to(entry, Class::Owner);
    let group = asked.opens_to(entry, Class::Group);
    let others = asked.opens_to(entry, Class::Others);
    let inside = asked.opens_to(&given, Class::Group);
    let outside = asked.opens_to(&given, Class::Others);
    Ways {
        owner,
        group,
        others,
        inside,
        outside,
    }
}

/// An entry, which is root's in place of an owner who is let in.
fn handed_back(asked: &Asked<'_>, entry: &Entry) -> Entry
    ensures { result ≡ handed_back (everybody_of asked.now) entry.now }
{
    if asked.opens_to(entry, Class::Owner) {
        Entry {
            uid: 0,
            gid: entry.gid,
            mode: entry.mode,
        }
    } else {
        *entry
    }
}

/// The lines of the limits of each subtree that is over one, each once, behind a text.
fn push_all_limits<H: Hierarchy>(
    alloc: Global,
    text: &mut Vec<u8>,
    tree: &H,
    subtrees: &[Path],
) -> Result<(), NoMemory>
    requires { All (IsSubtree (H.state tree.now)) subtrees.now }
    ensures { OnOk result (text.new.items ≡ text.old.items ++ flat_map (over_lines (H.state tree.now)) (once same_path subtrees.now)) }
{
    let mut seen = BTreeSet::new(alloc);
    for subtree in subtrees {
        let is_new = seen.insert(subtree)?;
        if is_new {
            push_limits(alloc, text, tree, subtree)?;
        }
    }
    Ok(())
}
