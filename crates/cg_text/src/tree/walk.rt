//! The rows together: one walk over them in the order of their paths.
ghost use Rattle.std.specs.Prelude.{◌≡◌, List, [], ◌∷◌, ◌++◌, map, Some, None, is_some, not, ◌||◌, cond, IfOk, OnOk};
ghost use Rattle.std.specs.Option.{option_map, option_to_list};
ghost use Rattle.std.specs.List.{list_all};
ghost use Rattle.std.specs.List.Sorted.{IsPermutation, IsStableByKey};
ghost use Rattle.toml.specs.Data.{Members};
ghost use Rattle.cg_cgroup.specs.Paths.{path_cmp, is_root};
ghost use Rattle.cg_cgroup.specs.Files.{brought_files, all_others, brought_by, stands_by, stands_under};
ghost use Rattle.cg_cgroup.specs.Cgroups.{file_of};
ghost use Rattle.cg_cgroup.specs.Told.{told_in};
ghost use Rattle.cg_cgroup.specs.declared.controllers.ControllerSet.{ControllerSet};
ghost use Rattle.cg_model.specs.Clauses.{first};
ghost use Rattle.cg_format.specs.declared.format.Format.{Format};
ghost use Rattle.cg_text.specs.declared.tree.row.Row.{Row};
ghost use Rattle.cg_format.specs.TextFaults.{tell_standing, cgroup_faults};
ghost use Rattle.cg_format.specs.Tables.{AreEntriesOf, AreToldOf};
ghost use Rattle.cg_text.specs.Faults.{Passes};
ghost use Rattle.cg_text.specs.Rows.{AreReadAs};
ghost use Rattle.cg_text.specs.Walk.{has_met, is_past, tells_past, names_past, over_at, fitted_to, entries_from, noted, least_behind, least_fault, has_root, is_front, fronts_above, HasMet, AreInOrder, IsNext};

use crate::tree::row::Row;
use cg_cgroup::brought::BroughtFiles;
use cg_cgroup::cgroup::{Cgroup, LimitEntry};
use cg_cgroup::files::{BROUGHT_COUNT, ControllerSet, LimitFile};
use cg_cgroup::memory::NoMemory;
use cg_cgroup::other_file::OtherFile;
use cg_cgroup::others::OtherFiles;
use cg_cgroup::path::Path;
use cg_cgroup::told::ToldFiles;
use cg_cgroup::user::Entry;
use cg_format::fault::{Place, TreeFault};
use std::alloc::{AllocError, Global};

/// A cgroup above others: how many names its path has, and what it enables.
#[derive(Clone, Copy, Debug, PartialEq, Eq)]
struct Above {
    len: usize,
    enabled: ControllerSet,
}

/// For each test of rows together the least number of a row that fails it.
#[derive(Clone, Copy, Debug, PartialEq, Eq)]
struct Least {
    twice: Option<u32>,
    orphan: Option<u32>,
    not_within: Option<u32>,
    no_file: Option<u32>,
}

impl Least {
    const NONE: Least = Least {
        twice: None,
        orphan: None,
        not_within: None,
        no_file: None,
    };

    /// The fault of the first test that a row fails.
    fn fault(self, has_root: bool) -> Option<TreeFault>
        ensures { result ≡ least_fault self has_root }
    {
        if let Some(number) = self.twice {
            return Some(TreeFault::Duplicate(Place::Cgroup(number)));
        }
        if !has_root {
            return Some(TreeFault::NoRoot);
        }
        if let Some(number) = self.orphan {
            return Some(TreeFault::NoParent(Place::Cgroup(number)));
        }
        if let Some(number) = self.not_within {
            return Some(TreeFault::TopDown(Place::Cgroup(number)));
        }
        let number = self.no_file?;
        Some(TreeFault::NoSuchFile(Place::Cgroup(number)))
    }
}

pub fn is_root(path: &Path) -> bool
    ensures { result ≡ is_root path.now }
{
    path.depth() == 0
}

/// The least number behind a row of this number.
fn noted(least: Option<u32>, number: u32, fails: bool) -> Option<u32>
    ensures { result ≡ noted least number fails }
{
    if !fails {
        return least;
    }
    match least {
        Some(least) if least < number => Some(least),
        _ => Some(number),
    }
}

/// Whether a set goes past what there is, where that is known.
fn is_past(set: ControllerSet, available: Option<ControllerSet>) -> bool
    ensures { result ≡ is_past set available }
{
    match available {
        None => false,
        Some(available) => !set.is_within(&available),
    }
}

/// Whether something is told of a file.
fn is_told(told: &ToldFiles, file: OtherFile) -> bool
    ensures { result ≡ is_some (told_in told.now file) }
{
    told.get(file).is_some()
}

/// Whether each file of which something is told stands under a parent that enables `over`.
fn are_brought(told: &ToldFiles, over: ControllerSet) -> bool
    ensures { result ≡ list_all (λ file. not (is_some (told_in told.now file)) || stands_by over (brought_by file)) all_others }
{
    OtherFile::ALL
        .iter()
        .all(|file| !is_told(told, *file) || file.stands_under(over))
}

/// Whether what is told of at a path stands under a parent that enables `over`.
fn tell_standing(path: &Path, over: ControllerSet, told: &ToldFiles) -> bool
    ensures { result ≡ tell_standing path.now over (Some told.now) }
{
    !is_root(path) && are_brought(told, over)
}

/// Whether what is told of at a path doesn't stand under what is over it, where that is known.
fn tells_past(path: &Path, told: &Option<ToldFiles>, over: Option<ControllerSet>) -> bool
    ensures { result ≡ tells_past path.now told.now over }
{
    match (told, over) {
        (Some(told), Some(over)) => !tell_standing(path, over, told),
        _ => false,
    }
}

/// Whether a row names a file that doesn't stand under what is over it, where that is known.
fn names_past(row: &Row, over: Option<ControllerSet>) -> bool
    ensures { result ≡ names_past row.now over }
{
    is_past(row.needed, over) || tells_past(&row.path, &row.told, over)
}

/// What may be enabled at a path: what is over it, and at the root what there is.
fn available(
    path: &Path,
    over: Option<ControllerSet>,
    controllers: ControllerSet,
) -> Option<ControllerSet>
    ensures { result ≡ cond (is_root path.now) (Some controllers) over }
{
    if is_root(path) {
        Some(controllers)
    } else {
        over
    }
}

/// What is enabled over a path of so many names, and nothing over the root. `None` where its parent isn't there.
fn over(above: &[Above], len: usize) -> Option<ControllerSet>
    ensures { result ≡ over_at above.now len }
{
    if len == 0 {
        return Some(ControllerSet::none());
    }
    let parent = above.last()?;
    if parent.len == len - 1 {
        Some(parent.enabled)
    } else {
        None
    }
}

/// A limit file where it stands under a parent that enables `over`.
fn standing(over: ControllerSet, file: LimitFile, held: Option<LimitEntry>) -> Option<LimitEntry>
    ensures { result ≡ cond (stands_under over file) held None }
{
    if file.stands_under(over) { held } else { None }
}

/// The files that controllers bring, where they stand.
fn standing_files(over: ControllerSet, cgroup: &Cgroup) -> [Option<LimitEntry>; BROUGHT_COUNT]
    ensures { result ≡ map (λ file. cond (stands_under over file) (file_of cgroup.now file) None) brought_files }
{
    LimitFile::BROUGHT.map(|file| standing(over, file, cgroup.file(file)))
}

/// A cgroup with the files that stand at it.
fn fitted(over: ControllerSet, cgroup: Cgroup) -> Cgroup
    ensures { result ≡ fitted_to over cgroup }
{
    Cgroup {
        files: BroughtFiles {
            entries: standing_files(over, &cgroup),
        },
        others: OtherFiles::under(over, Entry::ROOT_FILE),
        ..cgroup
    }
}

/// The cgroups of rows, in the order of their paths, and what is told of limit files beyond `LimitFile`.
#[derive(Drop)]
pub struct WalkedRows {
    pub cgroups: Vec<(Path, Cgroup)>,
    pub told: Vec<(Path, ToldFiles)>,
}

/// Puts what is told of at a path, if something is, behind the rest.
fn tell(
    told: &mut Vec<(Path, ToldFiles)>,
    alloc: Global,
    path: &Path,
    here: Option<ToldFiles>,
) -> Result<(), NoMemory>
    ensures { OnOk result (told.new.items
        ≡ told.old.items ++ option_to_list (option_map (λ files. (path.now, files)) here)) }
{
    if let Some(files) = here {
        told.push((path.try_clone(alloc)?, files))?;
    }
    Ok(())
}

/// How far a walk has come.
#[derive(Drop)]
struct Walk {
    /// The cgroups that were met, with the files that stand at them.
    entries: Vec<(Path, Cgroup)>,
    /// What was told of them.
    told: Vec<(Path, ToldFiles)>,
    /// Those of them whose path is a front of the last one's, from the root down.
    above: Vec<Above>,
    least: Least,
}

impl Walk {
    fn new(alloc: Global, rows: usize) -> Result<Walk, AllocError>
        ensures { (controllers : ControllerSet) → IfOk result (HasMet controllers []) }
    {
        Ok(Walk {
            entries: Vec::with_capacity(alloc, rows)?,
            told: Vec::new(alloc),
            above: Vec::new(alloc),
            least: Least::NONE,
        })
    }

    /// Whether the last cgroup that was met has this path.
    fn has_met(&self, path: &Path) -> bool
        ensures { (met : List Row) (row : Row) → self.now.entries.items ≡ entries_from [] met → IsNext met row → row.path ≡ path.now
            → result ≡ has_met met path.now }
    {
        match self.entries.last() {
            None => false,
            Some((last, _)) => last == path,
        }
    }

    /// Whether the last of the cgroups above has a path that is a front of this one.
    fn is_below(&self, path: &Path) -> bool
        ensures { result ≡ is_front self.now.above.items (map (λ entry. entry.0) self.now.entries.items) path.now }
    {
        match (self.above.last(), self.entries.last()) {
            (Some(top), Some((last, _))) => top.len < path.depth() && path.holds(top.len, last),
            _ => false,
        }
    }

    /// Takes off the cgroups that aren't above a path.
    fn leave(&mut self, path: &Path)
        ensures left { (controllers : ControllerSet) (met : List Row) (row : Row) → HasMet controllers met self.old → IsNext met row → row.path ≡ path.now
            → self.new.above.items ≡ fronts_above met path.now }
        ensures entries { self.new.entries ≡ self.old.entries }
        ensures told { self.new.told ≡ self.old.told }
        ensures least { self.new.least ≡ self.old.least }
    {
        while !self.above.is_empty() && !self.is_below(path) {
            self.above.pop();
        }
    }

    /// Keeps the row's number for each test that it fails.
    fn test(&mut self, row: &Row, over: Option<ControllerSet>, controllers: ControllerSet)
        ensures tested { (met : List Row) → self.old.entries.items ≡ entries_from [] met → IsNext met row.now
            → self.new.least ≡ least_behind controllers (has_met met row.now.path) over row.now self.old.least }
        ensures entries { self.new.entries ≡ self.old.entries }
        ensures told { self.new.told ≡ self.old.told }
        ensures above { self.new.above ≡ self.old.above }
    {
        let least = self.least;
        let twice = self.has_met(&row.path);
        let available = available(&row.path, over, controllers);
        self.least = Least {
            twice: noted(least.twice, row.number, twice),
            orphan: noted(least.orphan, row.number, over.is_none()),
            not_within: noted(
                least.not_within,
                row.number,
                is_past(row.cgroup.enabled, available),
            ),
            no_file: noted(least.no_file, row.number, names_past(row, over)),
        };
    }

    /// Goes on to a row, whose path is that of the last one or comes after it.
    fn step(&mut self, alloc: Global, row: Row, controllers: ControllerSet) -> Result<(), NoMemory>
        ensures { (met : List Row) → HasMet controllers met self.old → IsNext met row
            → OnOk result (HasMet controllers (met ++ row ∷ []) self.new) }
    {
        self.leave(&row.path);
        let len = row.path.depth();
        let over = over(&self.above, len);
        self.test(&row, over, controllers);
        let Row {
            path,
            cgroup,
            told,
            ..
        } = row;
        tell(&mut self.told, alloc, &path, told)?;
        self.above.push(Above {
            len,
            enabled: cgroup.enabled,
        })?;
        let over = over.unwrap_or(ControllerSet::none());
        self.entries.push((path, fitted(over, cgroup)))?;
        Ok(())
    }

    /// What was met, or the first fault of the rows.
    fn end(self) -> Result<WalkedRows, TreeFault>
        ensures { Passes (λ walked. (walked.cgroups ≡ self.entries) × (walked.told ≡ self.told))
            (least_fault self.least (has_root self.entries.items)) result }
    {
        let has_root = match self.entries.first() {
            None => false,
            Some((path, _)) => is_root(path),
        };
        match self.least.fault(has_root) {
            None => Ok(WalkedRows {
                cgroups: self.entries,
                told: self.told,
            }),
            Some(fault) => Err(fault),
        }
    }
}

/// Puts rows in the order of their paths. Those of one path stay as they were.
fn sort(rows: &mut Vec<Row>) -> Result<(), AllocError>
    ensures order { OnOk result (AreInOrder rows.new.items) }
    ensures same { IsPermutation rows.old.items rows.new.items }
    ensures stable { IsStableByKey (λ row. row.path) path_cmp rows.old.items rows.new.items }
{
    if rows.is_sorted_by(|row, next| row.path <= next.path) {
        return Ok(());
    }
    rows.sort_by(|row, other| row.path.cmp(&other.path))
}

/// The cgroups of rows in the order of their paths, with the files that stand at them, and what is told of further ones,
/// or the first fault of the rows together.
pub fn walked(
    alloc: Global,
    rows: Vec<Row>,
    controllers: ControllerSet,
) -> Result<WalkedRows, TreeFault>
    ensures { (format : Format) (tables : List Members) → AreReadAs format 1 tables rows.items
        → Passes (λ walked. AreEntriesOf format tables walked.cgroups.items × AreToldOf format tables walked.told.items)
        (first (cgroup_faults format (Some controllers) tables)) result }
{
    let mut rows = rows;
    sort(&mut rows)?;
    let mut walk = Walk::new(alloc, rows.len())?;
    for row in rows {
        walk.step(alloc, row, controllers)?;
    }
    walk.end()
}
