//! Numbers by path.
ghost use Rattle.std.specs.Prelude.{◌≡◌, ◌≤◌, ◌<◌, ◌^◌, true, false, length, take, fold, max, map as map_list, Some, IfOk, OnOk, OnErr};
ghost use Rattle.std.specs.FinMap as map;
ghost use Rattle.std.specs.String.{string_bytes, string_cmp};
ghost use Rattle.std.specs.BTreeMap.{keys, IsOrdered};
ghost use Rattle.cg_cgroup.specs.Paths.{names_at, IsPath};
ghost use Rattle.cg_cgroup.specs.PathText.{names_text};
ghost use Rattle.cg_places.specs.TextKeys.{IsText};
ghost use Rattle.cg_places.specs.Levels.{deepest, levels_below, levels_behind};

use cg_cgroup::memory::NoMemory;
use cg_cgroup::path::{Path, PathFault};
use std::alloc::Global;
use std::collections::{BTreeMap, BTreeSet};
use std::marker::Model;

/// A map from paths to numbers, kept under the paths' texts.
#[derive(Drop)]
pub struct PathIndex {
    numbers: BTreeMap<String, usize>,
}

impl Model for PathIndex {
    ghost use Rattle.std.specs.Prelude.{ℕ};
    ghost use Rattle.std.specs.Coded.{coded_ℕ, coded_list};
    ghost use Rattle.std.specs.FinMap as map;
    ghost use Rattle.cg_cgroup.specs.Paths.{path_cmp};
    ghost use Rattle.cg_places.specs.TextKeys.{numbers_of, AreTexts};

    ghost Value = { map.FinMap path_cmp ℕ };

    ghost coded = { map.code (coded_list (coded_list coded_ℕ)) coded_ℕ };

    ghost view = { λ t. numbers_of t.numbers.entries };

    ghost invariant = { λ t. AreTexts t.numbers.entries };
}

impl PathIndex {
    /// An empty table.
    pub fn new(alloc: Global) -> PathIndex
        ensures { result ≡ map.empty }
    {
        PathIndex {
            numbers: BTreeMap::new(alloc),
        }
    }

    /// How many numbers are kept; at least as many as there are paths.
    pub fn size(&self) -> usize
        ensures bound { map.len self.now ≤ result }
        ensures small { result < 2 ^ 63 }
    {
        self.numbers.len()
    }

    /// The number of the path of the first `len` names of `path`.
    pub fn get(&self, path: &Path, len: usize) -> Option<usize>
        requires { len ≤ length path.now }
        ensures { result ≡ map.get self.now (take len path.now) }
    {
        self.numbers.get(path.prefix(len)).copied()
    }

    /// The number of the path of the first `len` names of `path`, which is in the table.
    pub fn number(&self, path: &Path, len: usize) -> usize
        requires within { len ≤ length path.now }
        requires there { map.contains_key self.now (take len path.now) ≡ true }
        ensures { map.get self.now (take len path.now) ≡ Some result }
    {
        let Some(number) = self.get(path, len) else {
            unreachable!()
        };
        number
    }

    /// The number of a path of the table.
    pub fn whole(&self, path: &Path) -> usize
        requires { map.contains_key self.now path.now ≡ true }
        ensures { map.get self.now path.now ≡ Some result }
    {
        self.number(path, path.depth())
    }

    /// Adds a path. Fails where memory is wanted.
    pub fn insert(&mut self, alloc: Global, path: &Path, number: usize) -> Result<(), NoMemory>
        requires { map.contains_key self.old path.now ≡ false }
        ensures ok { OnOk result (self.new ≡ map.insert self.old path.now number) }
        ensures err { OnErr result (self.new ≡ self.old) }
    {
        let text = String::from_str(alloc, path.prefix(path.depth()))?;
        self.numbers.insert(text, number)?;
        Ok(())
    }

    /// Removes a path of the table.
    pub fn remove(&mut self, path: &Path)
        ensures { self.new ≡ map.remove self.old path.now }
    {
        let _ = self.numbers.remove(path.prefix(path.depth()));
    }

    /// How many levels the deepest path of the table below that of the first `len` names of `path` lies below it; 0 where
    /// there is none.
    pub fn depth_below(&self, path: &Path, len: usize) -> u64
        requires { len ≤ length path.now }
        ensures { result ≡ deepest (take len path.now) (map.keys self.now) }
    {
        deepest_text(&self.numbers, front(path, len))
    }

    /// Every path of the table, in order. Fails where memory is wanted.
    pub fn paths(&self, alloc: Global) -> Result<Vec<Path>, NoMemory>
        ensures { IfOk result (λ paths. paths.items ≡ map.keys self.now) }
    {
        let mut paths = BTreeSet::new(alloc);
        for (text, _number) in &self.numbers {
            paths.insert(path_of(alloc, text)?)?;
        }
        list_of(alloc, paths)
    }

    /// An equal table. Fails where memory is wanted.
    pub fn try_clone(&self) -> Result<Self, NoMemory>
        ensures { IfOk result (λ copy. copy ≡ self.now) }
    {
        Ok(PathIndex {
            numbers: self.numbers.clone()?,
        })
    }
}

/// The paths of a set, in order. Fails where memory is wanted.
fn list_of(alloc: Global, paths: BTreeSet<Path>) -> Result<Vec<Path>, NoMemory>
    ensures { IfOk result (λ list. list.items ≡ paths.keys) }
{
    Ok(paths.into_iter().collect(alloc)?)
}

/// The path of a text that is one's. Fails where memory is wanted.
fn path_of(alloc: Global, text: &String) -> Result<Path, NoMemory>
    requires { IsText (string_bytes text.now) }
    ensures { IfOk result (λ path. path ≡ names_at (string_bytes text.now)) }
{
    match Path::parse(alloc, text.as_str()) {
        Ok(path) => Ok(path),
        Err(PathFault::BadPath) => unreachable!(),
        Err(PathFault::NoMemory) => Err(NoMemory),
    }
}

/// The text of the first `len` names of a path alone: nothing for none.
fn front(path: &Path, len: usize) -> &str
    requires { len ≤ length path.now }
    ensures text { result.now ≡ names_text (take len path.now) }
    ensures path { IsPath path.now }
{
    let prefix = path.prefix(len);
    if len == 0 { "" } else { prefix }
}

/// How many levels the deepest of the texts' paths lies below that of another text, which is the root for nothing.
fn deepest_text(numbers: &BTreeMap<String, usize>, top: &str) -> u64
    ensures deepest { result ≡ fold max 0 (map_list (λ k. levels_below top.now (string_bytes k)) (keys numbers.now)) }
    ensures ordered { IsOrdered string_cmp numbers.now }
{
    numbers
        .keys()
        .map(|text| levels_below(top.as_bytes(), text.as_bytes()))
        .fold(0, |deepest, levels| deepest.max(levels))
}

/// How many levels the path of a text lies below that of another; 0 where it isn't below.
fn levels_below(top: &[u8], text: &[u8]) -> u64
    ensures { result ≡ levels_below top.now text.now }
{
    if !text.starts_with(top) {
        return 0;
    }
    levels_behind(&text[top.len()..])
}

/// How many slashes a text has that begins with one and has more; 0 where it doesn't.
fn levels_behind(rest: &[u8]) -> u64
    ensures { result ≡ levels_behind rest.now }
{
    if rest.len() < 2 || rest[0] != b'/' {
        return 0;
    }
    rest.iter().filter(|byte| **byte == b'/').count() as u64
}
