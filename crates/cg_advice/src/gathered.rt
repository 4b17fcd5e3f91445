//! By what users get in at each entry that lets one in.
ghost use Rattle.std.specs.Prelude.{◌≡◌, map, take, unwrap_or, IfOk};
ghost use Rattle.std.specs.BTreeMap.{get};
ghost use Rattle.cg_cgroup.specs.Files.{entry_text};
ghost use Rattle.cg_advice.specs.Ways.{entering, AreGathered, key_cmp, no_ways};

use crate::pair::Entrant;
use crate::ways::Ways;
use cg_cgroup::memory::NoMemory;
use cg_cgroup::path::Path;
use std::alloc::Global;
use std::collections::BTreeMap;

/// An entry: the path of its cgroup, and its name.
pub type Key = (Path, &'static str);

/// By what users get in at each entry that lets one in.
#[derive(Drop)]
pub struct Gathered {
    pub ways: BTreeMap<Key, Ways>,
}

/// The key of the entry that lets one in.
pub fn key_of(alloc: Global, each: &Entrant<'_>) -> Result<Key, NoMemory>
    ensures path { IfOk result (λ key. key.0 ≡ take each.now.at.len each.now.pair.subtree.now) }
    ensures name { IfOk result (λ key. key.1.now ≡ entry_text each.now.at.name) }
{
    let path = each.pair.subtree.try_prefix(alloc, each.at.len)?;
    Ok((path, each.at.name.name()))
}

impl Gathered {
    /// Those of all who get in.
    pub fn of(alloc: Global, entrants: &[Entrant<'_>]) -> Result<Gathered, NoMemory>
        ensures { IfOk result (λ gathered. AreGathered gathered.ways (map entering entrants.now)) }
    {
        let mut gathered = Gathered {
            ways: BTreeMap::new(alloc),
        };
        for each in entrants {
            let key = key_of(alloc, each)?;
            let ways = gathered.at(&key).with(each.pair.user, &each.at.entry);
            gathered.ways.insert(key, ways)?;
        }
        Ok(gathered)
    }

    /// Those of an entry; none where it lets nobody in.
    pub fn at(&self, key: &Key) -> Ways
        ensures { result ≡ unwrap_or (get key_cmp self.now.ways key.now) no_ways }
    {
        match self.ways.get(key) {
            Some(ways) => *ways,
            None => Ways::none(),
        }
    }
}
