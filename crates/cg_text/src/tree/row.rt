//! A cgroup's row, read into what the tree keeps of it.
ghost use Rattle.std.specs.Prelude.{◌≡◌, ◌≤◌, true, false, length, map, filter_map, Some, is_some};
ghost use Rattle.std.specs.Option.{option_map, option_map_or, ok_or};
ghost use Rattle.std.specs.List.{list_all, list_any};
ghost use Rattle.toml.specs.Data.{Members, as_table};
ghost use Rattle.toml.specs.View.{view, table_view};
ghost use Rattle.cg_cgroup.specs.Files.{brought_files, all_others};
ghost use Rattle.cg_cgroup.specs.Told.{told_by};
ghost use Rattle.cg_cgroup.specs.declared.files.EntryName.TheVariants.{File};
ghost use Rattle.cg_model.specs.Clauses.{first, unless};
ghost use Rattle.cg_format.specs.declared.fault.Place.TheVariants.{Cgroup as AtCgroup};
ghost use Rattle.cg_format.specs.declared.fault.TreeFault.TheVariants.{BadEntry, BadValue};
ghost use Rattle.cg_format.specs.declared.format.TheConstants.{MOST_ROWS_OF_4};
ghost use Rattle.cg_format.specs.Tables.{freeze_at};
ghost use Rattle.cg_format.specs.TextFaults.{each_cgroup, row_faults};
ghost use Rattle.cg_text.specs.Faults.{Passes};
ghost use Rattle.cg_text.specs.Rows.{table_in, owner_in, limit_in, entry_with, is_file_of, names, needs, needed_by, file_in, entry_faults, IsCgroupOf, IsReadAs, AreReadAs};
ghost use Rattle.cg_text.specs.Rows.{has_beyond, names_other, is_owned, has_text, tells_in, are_owned_in, have_texts_in, told_at, told_with, told_of};

use crate::tree::form::row_number;
use crate::tree::said::{known_at, limit_of, owner_of, path_at, table_at, text_said};
use crate::tree::walk::is_root;
use cg_cgroup::brought::BroughtFiles;
use cg_cgroup::cgroup::{Cgroup, LimitEntry};
use cg_cgroup::files::{BROUGHT_COUNT, Controller, ControllerSet, EntryName, Limit, LimitFile};
use cg_cgroup::other_file::{OTHER_COUNT, OtherFile};
use cg_cgroup::others::OtherFiles;
use cg_cgroup::path::Path;
use cg_cgroup::told::{ToldFile, ToldFiles};
use cg_cgroup::user::{Entry, Mode};
use cg_format::fault::{Place, TreeFault};
use cg_format::format::Format;
use std::alloc::Global;
use toml::{Table, Value};

/// A cgroup as its row says it, with all limit files that controllers bring, whether or not they stand.
#[derive(Debug, Drop)]
pub struct Row {
    pub number: u32,
    pub path: Path,
    pub cgroup: Cgroup,
    /// The controllers whose files the row names.
    pub needed: ControllerSet,
    /// What the row tells of the limit files beyond `LimitFile`, where it names one.
    pub told: Option<ToldFiles>,
}

/// What is written of a cgroup's entries, and where.
#[derive(Clone, Copy, Debug)]
struct Entries<'a> {
    place: Place,
    format: Format,
    dir: Option<&'a Table>,
    files: Option<&'a Table>,
}

impl<'a> Entries<'a> {
    fn table(self, name: EntryName) -> Option<&'a Table>
        ensures { option_map (λ t. table_view t.now) result ≡ table_in self.entry name }
    {
        match name {
            EntryName::Dir => self.dir,
            file => table_at(self.files?, file.name()),
        }
    }

    /// The owner, the group and the mode of an entry, where they are so.
    fn owner_at(self, name: EntryName) -> Option<Entry>
        ensures { result ≡ owner_in self.entry name }
    {
        let missing = match name {
            EntryName::Dir => Mode::DIRECTORY,
            _ => Mode::FILE,
        };
        owner_of(self.format, missing.get(), self.table(name))
    }

    /// The owner, the group and the mode of an entry.
    fn owner(self, name: EntryName) -> Result<Entry, TreeFault>
        ensures { result ≡ ok_or (owner_in self.entry name) (BadEntry self.entry.place) }
    {
        self.owner_at(name).ok_or(TreeFault::BadEntry(self.place))
    }

    fn file(self, file: LimitFile) -> Result<Entry, TreeFault>
        ensures { result ≡ ok_or (owner_in self.entry (File file)) (BadEntry self.entry.place) }
    {
        self.owner(EntryName::File(file))
    }

    /// The value of a limit file, where it is so.
    fn value_at(self, file: LimitFile) -> Option<Limit>
        ensures { result ≡ limit_in self.entry file }
    {
        limit_of(file, self.table(EntryName::File(file)))
    }

    /// A limit file of this owner.
    fn held(self, entry: Entry, file: LimitFile) -> Result<LimitEntry, TreeFault>
        ensures { result ≡ ok_or (option_map (entry_with entry) (limit_in self.entry file)) (BadValue self.entry.place) }
    {
        match self.value_at(file) {
            None => Err(TreeFault::BadValue(self.place)),
            Some(value) => Ok(LimitEntry { entry, value }),
        }
    }

    fn names(self, file: LimitFile) -> bool
        ensures { result ≡ is_some (table_in self.entry (File file)) }
    {
        self.table(EntryName::File(file)).is_some()
    }

    /// Whether a file of a controller is named.
    #[tactic(auto, unfolding(crate::specs::Rows::needs))]
    fn needs(self, controller: Controller) -> bool
        ensures { result ≡ needs (names self.entry) controller }
    {
        LimitFile::ALL
            .iter()
            .any(|file| is_file_of(controller, *file) && self.names(*file))
    }

    /// The controllers whose files are named.
    fn needed(self) -> ControllerSet
        ensures { result ≡ needed_by self.entry }
    {
        ControllerSet {
            flags: Controller::ALL.map(|controller| self.needs(controller)),
        }
    }

    /// A limit file, where its owner and its value are so.
    fn file_at(self, file: LimitFile) -> Option<LimitEntry>
        ensures { result ≡ file_in self.entry file }
    {
        let entry = self.owner_at(EntryName::File(file))?;
        let value = self.value_at(file)?;
        Some(LimitEntry { entry, value })
    }

    /// The files that controllers bring.
    fn brought(self) -> [Option<LimitEntry>; BROUGHT_COUNT]
        ensures { result ≡ map (file_in self.entry) brought_files }
    {
        LimitFile::BROUGHT.map(|file| self.file_at(file))
    }

    fn has_owners(self) -> bool
        ensures { result ≡ list_all (λ file. is_some (owner_in self.entry (File file))) brought_files }
    {
        LimitFile::BROUGHT
            .iter()
            .all(|file| self.owner_at(EntryName::File(*file)).is_some())
    }

    /// Whether the owner of each of these files is so; where each file is, nothing is read again.
    fn are_owned(self, files: &[Option<LimitEntry>]) -> bool
        requires { files.now ≡ map (file_in self) brought_files }
        ensures { result ≡ list_all (λ file. is_some (owner_in self.entry (File file))) brought_files }
    {
        if are_there(files) {
            return true;
        }
        self.has_owners()
    }

    /// The cgroup that has these entries, or the first fault of an entry, and then of a value.
    fn cgroup(self, enabled: ControllerSet, freeze: Option<Entry>) -> Result<Cgroup, TreeFault>
        ensures { Passes (IsCgroupOf self.entry enabled freeze) (first (entry_faults self.entry)) result }
    {
        let files = self.brought();
        let dir = self.owner(EntryName::Dir)?;
        let procs = self.owner(EntryName::Procs)?;
        let subtree_control = self.owner(EntryName::SubtreeControl)?;
        let max_descendants = self.file(LimitFile::MaxDescendants)?;
        let max_depth = self.file(LimitFile::MaxDepth)?;
        if !self.are_owned(&files) {
            return Err(TreeFault::BadEntry(self.place));
        }
        let max_descendants = self.held(max_descendants, LimitFile::MaxDescendants)?;
        let max_depth = self.held(max_depth, LimitFile::MaxDepth)?;
        if !are_there(&files) {
            return Err(TreeFault::BadValue(self.place));
        }
        Ok(Cgroup {
            dir,
            procs,
            subtree_control,
            max_descendants,
            max_depth,
            freeze,
            files: BroughtFiles { entries: files },
            others: OtherFiles::none(),
            enabled,
        })
    }
}

/// The limit files beyond `LimitFile`.
impl<'a> Entries<'a> {
    /// Whether a file's key is no name of formats 1 and 2.
    fn has_beyond(self) -> bool
        ensures { result ≡ option_map_or (λ table. has_beyond (table_view table.now)) self.entry.files false }
    {
        match self.files {
            None => false,
            Some(files) => has_beyond(files),
        }
    }

    fn names_other(self) -> bool
        ensures { result ≡ list_any (names_other self.entry) all_others }
    {
        OtherFile::ALL
            .iter()
            .any(|file| self.table(EntryName::Other(*file)).is_some())
    }

    /// Whether one is named that the format has. Where each key is one of format 2, none is looked for.
    fn tells(self) -> bool
        ensures { result ≡ tells_in self.entry }
    {
        match self.format {
            Format::Four => self.has_beyond() && self.names_other(),
            _ => false,
        }
    }

    fn has_other_owners(self) -> bool
        ensures { result ≡ list_all (is_owned self.entry) all_others }
    {
        OtherFile::ALL
            .iter()
            .all(|file| self.owner_at(EntryName::Other(*file)).is_some())
    }

    /// Whether the owner of each is so.
    fn others_are_owned(self, tells: bool) -> bool
        requires { tells ≡ tells_in self }
        ensures { result ≡ are_owned_in self.entry }
    {
        !tells || self.has_other_owners()
    }

    /// What is told of one.
    fn told_at(self, alloc: Global, file: OtherFile) -> Result<Option<ToldFile>, TreeFault>
        ensures { Passes (λ told. told ≡ told_at self.entry file)
            (first (unless (has_text self.entry file) (BadValue self.entry.place))) result }
    {
        let Some(table) = self.table(EntryName::Other(file)) else {
            return Ok(None);
        };
        let Some(value) = text_said(alloc, table)? else {
            return Err(TreeFault::BadValue(self.place));
        };
        match owner_of(self.format, Mode::FILE.get(), Some(table)) {
            None => Ok(None),
            Some(entry) => Ok(Some(ToldFile { entry, value })),
        }
    }

    /// Tells of one what is told of it here.
    fn tell(self, alloc: Global, file: OtherFile, files: &mut ToldFiles) -> Result<(), TreeFault>
        ensures { Passes (λ _. files.new ≡ told_with (told_at self.entry file) file files.old)
            (first (unless (has_text self.entry file) (BadValue self.entry.place))) result }
    {
        if let Some(told) = self.told_at(alloc, file)? {
            files.set(file, told);
        }
        Ok(())
    }

    /// What is told of each.
    fn told_of_all(self, alloc: Global) -> Result<ToldFiles, TreeFault>
        ensures { Passes (λ files. files ≡ told_by (told_at self.entry))
            (first (unless (list_all (has_text self.entry) all_others) (BadValue self.entry.place))) result }
    {
        let mut files = ToldFiles::none(alloc)?;
        for at in 0..OTHER_COUNT {
            self.tell(alloc, OtherFile::ALL[at], &mut files)?;
        }
        Ok(files)
    }

    /// What is told of each, where one is named.
    fn told(self, alloc: Global, tells: bool) -> Result<Option<ToldFiles>, TreeFault>
        requires { tells ≡ tells_in self }
        ensures { Passes (λ told. told ≡ told_of self.entry)
            (first (unless (have_texts_in self.entry) (BadValue self.entry.place))) result }
    {
        if !tells {
            return Ok(None);
        }
        let files = self.told_of_all(alloc)?;
        Ok(Some(files))
    }
}

/// Whether a table has a key that is no name of formats 1 and 2.
fn has_beyond(table: &Table) -> bool
    ensures { result ≡ has_beyond (table_view table.now) }
{
    for (key, _) in table {
        if EntryName::in_format_2(key.as_str()).is_none() {
            return true;
        }
    }
    false
}

/// Whether a controller brings a file.
fn is_file_of(controller: Controller, file: LimitFile) -> bool
    ensures { result ≡ is_file_of controller file }
{
    match file.controller() {
        None => false,
        Some(own) => own == controller,
    }
}

/// Whether each of these files is there.
fn are_there(files: &[Option<LimitEntry>]) -> bool
    ensures { result ≡ list_all is_some files.now }
{
    files.iter().all(|file| file.is_some())
}

/// `cgroup.freeze` of the cgroup at a path: root's, and none at the root.
fn freeze_at(path: &Path) -> Option<Entry>
    ensures { result ≡ freeze_at path.now }
{
    if is_root(path) {
        return None;
    }
    Some(Entry::ROOT_FILE)
}

/// The row of a cgroup's table, or its first fault.
fn row_of(alloc: Global, format: Format, number: u32, table: &Table) -> Result<Row, TreeFault>
    ensures { Passes (IsReadAs format number (table_view table.now))
        (first (row_faults format (AtCgroup number) (table_view table.now))) result }
{
    let place = Place::Cgroup(number);
    let path = path_at(alloc, table, "path", TreeFault::BadPath(place))?;
    let enabled = known_at(table, "enabled", format).ok_or(TreeFault::BadController(place))?;
    let entries = Entries {
        place,
        format,
        dir: table_at(table, "dir"),
        files: table_at(table, "files"),
    };
    let tells = entries.tells();
    if !entries.others_are_owned(tells) {
        return Err(TreeFault::BadEntry(place));
    }
    let cgroup = entries.cgroup(enabled, freeze_at(&path))?;
    let told = entries.told(alloc, tells)?;
    Ok(Row {
        number,
        path,
        cgroup,
        needed: entries.needed(),
        told,
    })
}

/// The row of an element that is a cgroup's table, or its first fault.
fn row_in(alloc: Global, format: Format, number: u32, element: Value) -> Result<Row, TreeFault>
    requires { is_some (as_table (view element)) ≡ true }
    ensures { (table : Members) → Some table ≡ as_table (view element)
        → Passes (IsReadAs format number table) (first (row_faults format (AtCgroup number) table)) result }
{
    let Some(table) = element.as_table() else {
        unreachable!()
    };
    row_of(alloc, format, number, table)
}

/// The rows of cgroups' tables, or the first fault of the first that has one. A table is dropped once it is read.
pub fn rows_of(alloc: Global, format: Format, elements: Vec<Value>) -> Result<Vec<Row>, TreeFault>
    requires few { length elements.items ≤ MOST_ROWS_OF_4 }
    requires tables { list_all (λ held. is_some (as_table (view held))) elements.items ≡ true }
    ensures { Passes (λ rows. AreReadAs format 1 (filter_map as_table (map view elements.items)) rows.items)
        (first (each_cgroup (λ _. row_faults format) (filter_map as_table (map view elements.items)))) result }
{
    let mut rows = Vec::with_capacity(alloc, elements.len())?;
    for element in elements {
        let number = row_number(rows.len());
        rows.push(row_in(alloc, format, number, element)?)?;
    }
    Ok(rows)
}
