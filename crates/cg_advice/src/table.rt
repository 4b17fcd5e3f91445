//! A table for each subtree that is named: the entries on which its guards stand.
ghost use Rattle.std.specs.Prelude.{◌≡◌, ◌++◌, List, [], ◌∷◌, Some, map, false, slice_get, IfOk, OnOk};
ghost use Rattle.std.specs.List.{All};
ghost use Rattle.cg_cgroup.specs.Paths.{Names, is_root};
ghost use Rattle.cg_model.specs.Guards.{IsSubtree};
ghost use Rattle.cg_model.specs.Mends.{Entrant as Entering};
ghost use Rattle.cg_advice.specs.Ways.{no_ways};
ghost use Rattle.cg_advice.specs.Thinned.{spot_of, spots, table_path, is_table_of, IsTable, AreTabled};

use crate::pair::Stand;
use crate::ways::Ways;
use cg_cgroup::memory::NoMemory;
use cg_cgroup::path::Path;
use cg_guards::table::{Top, guarded_count, guarded_entry};
use cg_model::hierarchy::Hierarchy;
use std::alloc::Global;
use std::collections::BTreeMap;

/// A subtree, and the entries on which its guards stand.
#[derive(Drop)]
pub struct Table<'a> {
    pub subtree: &'a Path,
    pub stands: Vec<Stand<'a>>,
}

/// The places of tables, by their subtrees.
pub type Places<'a> = BTreeMap<&'a Path, usize>;

/// The place of a subtree's table, which is looked for at a guess first, and made where there is none.
pub fn place_of<'a, H: Hierarchy>(
    alloc: Global,
    tree: &H,
    tables: &mut Vec<Table<'a>>,
    places: &mut Places<'a>,
    guess: usize,
    subtree: &'a Path,
) -> Result<usize, NoMemory>
    requires { IsSubtree (H.state tree.now) subtree.now }
    ensures place { IfOk result (λ place. slice_get (map table_path tables.new.items) place ≡ Some subtree.now) }
    ensures tables { OnOk result ((all : List Entering) → All (IsTable (H.state tree.now) all) tables.old.items
        → All (IsTable (H.state tree.now) all) tables.new.items) }
    ensures named { OnOk result ((paths : List Names) → AreTabled (map table_path tables.old.items) paths
        → AreTabled (map table_path tables.new.items) (paths ++ subtree.now ∷ [])) }
{
    if is_table_of(tables.as_slice(), guess, subtree) {
        return Ok(guess);
    }
    let known = places.get(&subtree).copied().unwrap_or(guess);
    if is_table_of(tables.as_slice(), known, subtree) {
        return Ok(known);
    }
    let place = tables.len();
    let stands = stands_of(alloc, tree, subtree)?;
    tables.push(Table { subtree, stands })?;
    places.insert(subtree, place)?;
    Ok(place)
}

/// Whether the table of a place is a subtree's.
fn is_table_of(tables: &[Table<'_>], place: usize, subtree: &Path) -> bool
    ensures { result ≡ is_table_of tables.now place subtree.now }
{
    match tables.get(place) {
        Some(table) => table.subtree == subtree,
        None => false,
    }
}

/// The entries on which a subtree's guards stand, where nobody was met yet.
fn stands_of<'a, H: Hierarchy>(
    alloc: Global,
    tree: &H,
    subtree: &'a Path,
) -> Result<Vec<Stand<'a>>, NoMemory>
    requires { is_root subtree.now ≡ false }
    ensures spots { IfOk result (λ stands. map spot_of stands.items ≡ spots (H.state tree.now) subtree.now) }
    ensures ways { IfOk result (λ stands. All (λ stand. stand.ways ≡ no_ways) stands.items) }
{
    let top = Top::of(tree, subtree);
    let mut stands = Vec::new(alloc);
    for place in 0..guarded_count(subtree) {
        let Some(at) = guarded_entry(tree, subtree, top, place) else {
            continue;
        };
        let ways = Ways::none();
        stands.push(Stand { subtree, at, ways })?;
    }
    Ok(stands)
}
