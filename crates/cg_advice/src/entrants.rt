//! Who gets in: the users of pairs, and the guarded entries that they reach.
ghost use Rattle.std.specs.Prelude.{map, IfOk};
ghost use Rattle.std.specs.List.{All};
ghost use Rattle.cg_model.specs.Guards.{IsSubtree};
ghost use Rattle.cg_advice.specs.Ways.{pair_of, entering};
ghost use Rattle.cg_advice.specs.Thinned.{HaveEntered};

use crate::pair::{Entrant, Pair};
use crate::stand::enter_all;
use crate::table::{Places, Table, place_of};
use cg_cgroup::memory::NoMemory;
use cg_model::hierarchy::Hierarchy;
use std::alloc::Global;
use std::collections::BTreeMap;

/// Who gets in, without those who get in by nothing new, and a table of each subtree.
#[derive(Drop)]
pub struct Met<'a> {
    pub entrants: Vec<Entrant<'a>>,
    pub tables: Vec<Table<'a>>,
}

/// All who get in by something new, by pairs and then guards. The pairs mostly name the subtrees in turn, so each table is looked
/// for behind the last.
pub fn entrants<'a, H: Hierarchy>(
    alloc: Global,
    tree: &H,
    pairs: &[Pair<'a>],
) -> Result<Met<'a>, NoMemory>
    requires { All (λ pair. IsSubtree (H.state tree.now) pair.subtree.now) pairs.now }
    ensures { IfOk result (λ met. HaveEntered (H.state tree.now) (map pair_of pairs.now) (map entering met.entrants.items) met.tables.items) }
{
    let mut entrants = Vec::new(alloc);
    let mut tables: Vec<Table<'a>> = Vec::new(alloc);
    let mut places: Places<'a> = BTreeMap::new(alloc);
    let mut next = 0;
    for pair in pairs {
        let place = place_of(alloc, tree, &mut tables, &mut places, next, pair.subtree)?;
        let table = &mut tables[place];
        enter_all(&mut entrants, table.stands.as_mut_slice(), pair.user)?;
        next = if place + 1 < tables.len() {
            place + 1
        } else {
            0
        };
    }
    Ok(Met { entrants, tables })
}
