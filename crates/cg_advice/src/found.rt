//! What lets users in and what is over its limits, with what mends it, before it is written.
ghost use Rattle.std.specs.Prelude.{◌≡◌, ◌++◌, true, [], ◌∷◌, map, cond, Some, None, option_to_list, IfOk, OnOk};
ghost use Rattle.std.specs.List.{All, flat_map};
ghost use Rattle.std.specs.Option.{option_map};
ghost use Rattle.cg_cgroup.specs.Paths.{same_path};
ghost use Rattle.cg_model.specs.WellFormed.{has_row};
ghost use Rattle.cg_model.specs.Guards.{IsSubtree};
ghost use Rattle.cg_model.specs.Once.{once};
ghost use Rattle.cg_model.specs.Mends.{same_place};
ghost use Rattle.cg_advice.specs.Ways.{pair_of, entering};
ghost use Rattle.cg_advice.specs.Thinned.{table_path};
ghost use Rattle.cg_advice.specs.Found.{stand_let, let_gathered, over_raised, raised_of, found_parts, advice_parts};

use crate::entrants::entrants;
use crate::gathered::{Gathered, key_of};
use crate::pair::{Entrant, Over, Pair, Stand};
use crate::table::Table;
use crate::text::are_guarded;
use crate::ways::Ways;
use cg_cgroup::memory::NoMemory;
use cg_cgroup::path::Path;
use cg_guards::failed::{fits_depth, fits_descendants, is_over};
use cg_model::hierarchy::Hierarchy;
use std::alloc::Global;
use std::collections::BTreeSet;

/// Each entry that lets users in, where the pairs meet it first, with by what they do; and each subtree that is over its limits.
#[derive(Drop)]
pub struct Found<'a> {
    pub stands: Vec<Stand<'a>>,
    pub overs: Vec<Over<'a>>,
}

/// What is to be changed where a guard of its subtree fails against the user of a pair. `None` exactly where no guard fails.
///
/// # Errors
/// `NoMemory` where an allocation was refused.
pub fn advice<'a, H: Hierarchy>(
    alloc: Global,
    tree: &H,
    pairs: &[Pair<'a>],
) -> Result<Option<Found<'a>>, NoMemory>
    requires { All (λ pair. IsSubtree (H.state tree.now) pair.subtree.now) pairs.now }
    ensures { IfOk result (λ found. option_map found_parts found ≡ advice_parts (H.state tree.now) (map pair_of pairs.now)) }
{
    if are_guarded(tree, pairs) {
        return Ok(None);
    }
    let met = entrants(alloc, tree, pairs)?;
    let stands = stands_of(alloc, met.entrants.as_slice())?;
    let overs = overs_of(alloc, tree, met.tables.as_slice())?;
    Ok(Some(Found { stands, overs }))
}

/// Each entry that lets one in, where it is met first.
fn stands_of<'a>(alloc: Global, entrants: &[Entrant<'a>]) -> Result<Vec<Stand<'a>>, NoMemory>
    ensures { IfOk result (λ stands. map stand_let stands.items
        ≡ map (let_gathered (map entering entrants.now)) (once same_place (map entering entrants.now))) }
{
    let gathered = Gathered::of(alloc, entrants)?;
    let mut stands = Vec::new(alloc);
    let mut seen = BTreeSet::new(alloc);
    for each in entrants {
        let key = key_of(alloc, each)?;
        let ways = gathered.at(&key);
        let is_new = seen.insert(key)?;
        if is_new {
            push_stand(&mut stands, each, ways)?;
        }
    }
    Ok(stands)
}

/// The entry that lets one in, and by what users get in there, behind others.
fn push_stand<'a>(
    stands: &mut Vec<Stand<'a>>,
    each: &Entrant<'a>,
    ways: Ways,
) -> Result<(), NoMemory>
    ensures { OnOk result (map stand_let stands.new.items
        ≡ map stand_let stands.old.items ++ ((each.now.pair.subtree.now, each.now.at, ways) ∷ [])) }
{
    stands.push(Stand {
        subtree: each.pair.subtree,
        at: each.at,
        ways,
    })?;
    Ok(())
}

/// Each subtree of tables that is over its limits, once.
fn overs_of<'a, H: Hierarchy>(
    alloc: Global,
    tree: &H,
    tables: &[Table<'a>],
) -> Result<Vec<Over<'a>>, NoMemory>
    requires { All (λ table. has_row (H.state tree.now) (table_path table) ≡ true) tables.now }
    ensures { IfOk result (λ overs. map over_raised overs.items
        ≡ flat_map (raised_of (H.state tree.now)) (once same_path (map table_path tables.now))) }
{
    let mut overs = Vec::new(alloc);
    let mut seen = BTreeSet::new(alloc);
    for table in tables {
        let is_new = seen.insert(table.subtree)?;
        if is_new {
            push_over(&mut overs, over_of(tree, table.subtree))?;
        }
    }
    Ok(overs)
}

/// The subtree, where it is over its limits.
pub fn over_of<'a, H: Hierarchy>(tree: &H, subtree: &'a Path) -> Option<Over<'a>>
    requires { has_row (H.state tree.now) subtree.now ≡ true }
    ensures { map over_raised (option_to_list result) ≡ raised_of (H.state tree.now) subtree.now }
{
    if !is_over(tree, subtree) {
        return None;
    }
    let len = subtree.depth();
    let Some(cgroup) = tree.get(subtree, len) else {
        unreachable!()
    };
    let fits = fits_descendants(tree, subtree, cgroup);
    let count = tree.count_below(subtree, len);
    let descendants = excess(fits, count);
    let fits = fits_depth(tree, subtree, cgroup);
    let levels = tree.depth_below(subtree, len);
    let depth = excess(fits, levels);
    Some(Over {
        subtree,
        descendants,
        depth,
    })
}

/// How many there are, where that doesn't fit.
fn excess(fits: bool, there: u64) -> Option<u64>
    ensures { result ≡ cond fits None (Some there) }
{
    if fits { None } else { Some(there) }
}

/// One that is over its limits, where there is one, behind others.
pub fn push_over<'a>(overs: &mut Vec<Over<'a>>, over: Option<Over<'a>>) -> Result<(), NoMemory>
    ensures { OnOk result (map over_raised overs.new.items
        ≡ map over_raised overs.old.items ++ map over_raised (option_to_list over.entry)) }
{
    if let Some(over) = over {
        overs.push(over)?;
    }
    Ok(())
}
