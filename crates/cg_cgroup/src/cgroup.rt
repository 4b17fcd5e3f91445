//! One cgroup: its entries, its limits and what it enables for its children.
ghost use Rattle.std.specs.Prelude.{◌≡◌, map};
ghost use Rattle.cg_cgroup.specs.Files.{all_controllers, brought_files};
ghost use Rattle.cg_cgroup.specs.Cgroups.{file_of, untold_in, entry_in, value_in, with_value_in, with_value_of, with_mode_in, with_file_mode_of, file_made_by, refitted, refitted_other, other_in, with_files_of, cgroup_made_by};

use crate::brought::BroughtFiles;
use crate::controllers::CONTROLLER_COUNT;
use crate::files::{BROUGHT_COUNT, Controller, ControllerSet, EntryName, Limit, LimitFile};
use crate::other_file::OtherFile;
use crate::others::OtherFiles;
use crate::user::{Entry, Mode, User};

/// A limit file: its owner and mode, and its value.
#[derive(Clone, Copy, Debug, PartialEq, Eq)]
pub struct LimitEntry {
    pub entry: Entry,
    pub value: Limit,
}

impl LimitEntry {
    /// A limit file that has just been made: the user's, with mode 0o644 and its default value.
    pub fn made_by(user: &User, file: LimitFile) -> LimitEntry
        ensures { result ≡ file_made_by user.now file }
    {
        LimitEntry {
            entry: Entry::made_by(user, Mode::FILE),
            value: file.default_value(),
        }
    }

    /// The file with another value.
    pub fn with_value(self, value: Limit) -> LimitEntry
        ensures { result ≡ with_value_of value self }
    {
        LimitEntry { value, ..self }
    }

    /// The file with another mode.
    pub fn with_mode(self, mode: Mode) -> LimitEntry
        ensures { result ≡ with_file_mode_of mode self }
    {
        let mut file = self;
        file.entry.mode = mode.get();
        file
    }
}

/// A cgroup.
#[derive(Clone, Copy, Debug, PartialEq, Eq)]
pub struct Cgroup {
    pub dir: Entry,
    pub procs: Entry,
    pub subtree_control: Entry,
    pub max_descendants: LimitEntry,
    pub max_depth: LimitEntry,
    /// `cgroup.freeze`, which stands at each cgroup but the root.
    pub freeze: Option<Entry>,
    pub files: BroughtFiles,
    pub others: OtherFiles,
    pub enabled: ControllerSet,
}

impl Cgroup {
    /// A new cgroup under a parent that enables these controllers: its directory has mode 0o755, its files have mode
    /// 0o644 and default values, all are the user's, and it enables nothing.
    pub fn made_by(user: &User, enabled: ControllerSet) -> Cgroup
        ensures { result ≡ cgroup_made_by user.now enabled }
    {
        let mut cgroup = Cgroup {
            dir: Entry::made_by(user, Mode::DIRECTORY),
            procs: Entry::made_by(user, Mode::FILE),
            subtree_control: Entry::made_by(user, Mode::FILE),
            max_descendants: LimitEntry::made_by(user, LimitFile::MaxDescendants),
            max_depth: LimitEntry::made_by(user, LimitFile::MaxDepth),
            freeze: Some(Entry::made_by(user, Mode::FILE)),
            files: BroughtFiles::none(),
            others: OtherFiles::none(),
            enabled: ControllerSet::none(),
        };
        cgroup.refit(enabled, user);
        cgroup
    }

    /// A limit file, where it stands.
    pub fn file(&self, file: LimitFile) -> Option<LimitEntry>
        ensures { result ≡ file_of self.now file }
    {
        match file {
            LimitFile::MaxDescendants => Some(self.max_descendants),
            LimitFile::MaxDepth => Some(self.max_depth),
            _ => self.files.get(file.place()),
        }
    }

    /// The owner, group and mode of the other limit files that a controller brings, where they stand.
    pub fn other(&self, controller: Controller) -> Option<Entry>
        ensures { result ≡ other_in self.now controller }
    {
        self.others.get(controller)
    }

    /// The owner, group and mode of a limit file beyond `LimitFile` of which nothing is told, where it stands.
    pub fn untold(&self, file: OtherFile) -> Option<Entry>
        ensures { result ≡ untold_in self.now file }
    {
        match file.controller() {
            None => self.freeze,
            Some(controller) => self.other(controller),
        }
    }

    /// The owner, group and mode of an entry, where it is there and nothing else is told of it.
    pub fn entry(&self, name: EntryName) -> Option<Entry>
        ensures { result ≡ entry_in self.now name }
    {
        match name {
            EntryName::Dir => Some(self.dir),
            EntryName::Procs => Some(self.procs),
            EntryName::SubtreeControl => Some(self.subtree_control),
            EntryName::File(file) => self.file(file).map(|held| held.entry),
            EntryName::Other(file) => self.untold(file),
        }
    }

    /// The value of a limit file, where it stands.
    pub fn limit(&self, file: LimitFile) -> Option<Limit>
        ensures { result ≡ value_in self.now file }
    {
        self.file(file).map(|held| held.value)
    }

    /// Sets the value of a limit file, where it stands.
    pub fn set_value(&mut self, file: LimitFile, value: Limit)
        ensures { self.new ≡ with_value_in file value self.old }
    {
        match file {
            LimitFile::MaxDescendants => self.max_descendants.value = value,
            LimitFile::MaxDepth => self.max_depth.value = value,
            _ => self.files.set_value(file.place(), value),
        }
    }

    /// Sets the mode of an entry, where it is there and none of `OtherFile`.
    pub fn set_mode(&mut self, name: EntryName, mode: Mode)
        ensures { self.new ≡ with_mode_in name mode self.old }
    {
        match name {
            EntryName::Dir => self.dir.mode = mode.get(),
            EntryName::Procs => self.procs.mode = mode.get(),
            EntryName::SubtreeControl => self.subtree_control.mode = mode.get(),
            EntryName::File(file) => self.set_file_mode(file, mode),
            EntryName::Other(_) => {}
        }
    }

    /// Sets the mode of a limit file, where it stands.
    fn set_file_mode(&mut self, file: LimitFile, mode: Mode)
        ensures { self.new ≡ with_mode_in (EntryName.File file) mode self.old }
    {
        match file {
            LimitFile::MaxDescendants => self.max_descendants.entry.mode = mode.get(),
            LimitFile::MaxDepth => self.max_depth.entry.mode = mode.get(),
            _ => self.files.set_mode(file.place(), mode),
        }
    }

    /// Makes and removes limit files as a parent that enables these controllers has them. A file that stays is kept
    /// as it is; a new one is the user's.
    pub fn refit(&mut self, enabled: ControllerSet, user: &User)
        ensures { self.new ≡ with_files_of enabled user.now self.old }
    {
        self.files = BroughtFiles {
            entries: refitted_files(self, enabled, user),
        };
        self.others = OtherFiles {
            entries: refitted_others(self, enabled, user),
        };
    }
}

/// The files that controllers bring, as a parent that enables these has them.
fn refitted_files(
    cgroup: &Cgroup,
    enabled: ControllerSet,
    user: &User,
) -> [Option<LimitEntry>; BROUGHT_COUNT]
    ensures { result ≡ map (λ file. refitted enabled user.now file (file_of cgroup.now file)) brought_files }
{
    LimitFile::BROUGHT.map(|file| refitted(cgroup.file(file), file, enabled, user))
}

/// A limit file that stays, a new one, or none.
fn refitted(
    held: Option<LimitEntry>,
    file: LimitFile,
    enabled: ControllerSet,
    user: &User,
) -> Option<LimitEntry>
    ensures { result ≡ refitted enabled user.now file held }
{
    if !file.stands_under(enabled) {
        return None;
    }
    Some(held.unwrap_or(LimitEntry::made_by(user, file)))
}

/// The other files that controllers bring, as a parent that enables these has them.
fn refitted_others(
    cgroup: &Cgroup,
    enabled: ControllerSet,
    user: &User,
) -> [Option<Entry>; CONTROLLER_COUNT]
    ensures { result ≡ map (λ controller. refitted_other enabled user.now controller (other_in cgroup.now controller)) all_controllers }
{
    Controller::ALL.map(|controller| refitted_other(
        cgroup.other(controller),
        controller,
        enabled,
        user,
    ))
}

/// The other files that a controller brings: as they were, new ones, or none.
fn refitted_other(
    held: Option<Entry>,
    controller: Controller,
    enabled: ControllerSet,
    user: &User,
) -> Option<Entry>
    ensures { result ≡ refitted_other enabled user.now controller held }
{
    if !enabled.contains(controller) {
        return None;
    }
    Some(held.unwrap_or(Entry::made_by(user, Mode::FILE)))
}
