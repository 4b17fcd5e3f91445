//! Users of whom a tree says nothing: most of them were named by mistake.
ghost use Rattle.std.specs.Prelude.{◌≡◌, ◌||◌, [], ◌∷◌, IfOk, OnOk, not, nat_eq};
ghost use Rattle.std.specs.BTreeSet.{contains};
ghost use Rattle.std.specs.FinMap as finmap;
ghost use Rattle.std.specs.List.{flat_map, find, list_any};
ghost use Rattle.std.specs.Option.{option_map};
ghost use Rattle.std.specs.Ordering.{nat_cmp};
ghost use Rattle.cg_cgroup.specs.Files.{all_files};
ghost use Rattle.cg_cli.specs.Strangers.{file_entries, entries_of, told_entry, told_entries, tree_entries, all_owners, is_stranger, first_stranger};
ghost use Rattle.cg_cli.specs.Known.{AreOfEntries, AreAdded, speaks_of};

use cg_cgroup::cgroup::Cgroup;
use cg_cgroup::files::LimitFile;
use cg_cgroup::memory::NoMemory;
use cg_cgroup::path::Path;
use cg_cgroup::told::{ToldFile, ToldFiles};
use cg_cgroup::user::{Entry, User};
use cg_rows::processes::Processes;
use cg_rows::rows::Rows;
use std::alloc::Global;
use std::collections::BTreeSet;

/// The uids and gids of which a tree says something.
#[derive(Drop)]
pub struct Known {
    pub uids: BTreeSet<u32>,
    pub gids: BTreeSet<u32>,
}

impl Known {
    /// Those of a tree, over which it goes once.
    fn of(alloc: Global, tree: &Rows) -> Result<Known, NoMemory>
        ensures { IfOk result (λ known. AreOfEntries known (tree_entries tree.now) (all_owners tree.now)) }
    {
        let mut known = Known::of_entries(alloc, tree)?;
        for (_pid, process) in tree.processes().iter() {
            known.uids.insert(process.uid)?;
        }
        Ok(known)
    }

    /// Those of a tree's entries.
    fn of_entries(alloc: Global, tree: &Rows) -> Result<Known, NoMemory>
        ensures { IfOk result (λ known. AreOfEntries known (tree_entries tree.now) []) }
    {
        let mut known = Known::of_cgroups(alloc, tree)?;
        for (_, files) in tree.told_entries() {
            known.add_told(files)?;
        }
        Ok(known)
    }

    /// Those of the entries of a tree's cgroups.
    fn of_cgroups(alloc: Global, tree: &Rows) -> Result<Known, NoMemory>
        ensures { IfOk result (λ known. AreOfEntries known (flat_map (λ row. entries_of row.1) (finmap.entries tree.now.rows)) []) }
    {
        let mut known = Known {
            uids: BTreeSet::new(alloc),
            gids: BTreeSet::new(alloc),
        };
        for (_, cgroup) in tree.entries() {
            known.add_cgroup(cgroup)?;
        }
        Ok(known)
    }

    /// Adds those of what is told of a cgroup's limit files beyond `LimitFile`.
    fn add_told(&mut self, files: &ToldFiles) -> Result<(), NoMemory>
        ensures { OnOk result (AreAdded self.old self.new (told_entries files.now)) }
    {
        self.add_told_files(files.entries())
    }

    /// Adds those of some such files.
    fn add_told_files(&mut self, files: &[Option<ToldFile>]) -> Result<(), NoMemory>
        ensures { OnOk result (AreAdded self.old self.new (flat_map told_entry files.now)) }
    {
        for told in files {
            self.add_told_file(told)?;
        }
        Ok(())
    }

    /// Adds those of such a file, where something is told of it.
    fn add_told_file(&mut self, told: &Option<ToldFile>) -> Result<(), NoMemory>
        ensures { OnOk result (AreAdded self.old self.new (told_entry told.now)) }
    {
        match told {
            Some(told) => self.add(&told.entry),
            None => Ok(()),
        }
    }

    /// Adds those of a cgroup's entries.
    fn add_cgroup(&mut self, cgroup: &Cgroup) -> Result<(), NoMemory>
        ensures { OnOk result (AreAdded self.old self.new (entries_of cgroup.now)) }
    {
        self.add(&cgroup.dir)?;
        self.add(&cgroup.procs)?;
        self.add(&cgroup.subtree_control)?;
        self.add_files(cgroup)
    }

    /// Adds those of a cgroup's limit files.
    fn add_files(&mut self, cgroup: &Cgroup) -> Result<(), NoMemory>
        ensures { OnOk result (AreAdded self.old self.new (flat_map (file_entries cgroup.now) all_files)) }
    {
        for file in LimitFile::ALL {
            self.add_file(cgroup, file)?;
        }
        Ok(())
    }

    /// Adds those of a limit file, where it is there.
    fn add_file(&mut self, cgroup: &Cgroup, file: LimitFile) -> Result<(), NoMemory>
        ensures { OnOk result (AreAdded self.old self.new (file_entries cgroup.now file)) }
    {
        match cgroup.file(file) {
            Some(held) => self.add(&held.entry),
            None => Ok(()),
        }
    }

    /// Adds the owner of an entry, and the group that writes it.
    fn add(&mut self, entry: &Entry) -> Result<(), NoMemory>
        ensures { OnOk result (AreAdded self.old self.new (entry.now ∷ [])) }
    {
        self.uids.insert(entry.uid)?;
        if entry.mode & 0o020 == 0o020 {
            self.gids.insert(entry.gid)?;
        }
        Ok(())
    }

    /// Whether a user's uid or one of their gids is among them.
    fn has(&self, user: &User) -> bool
        ensures { result ≡ (contains nat_cmp self.now.uids user.now.uid || list_any (contains nat_cmp self.now.gids) user.now.gids) }
    {
        self.uids.contains(&user.uid()) || self.has_one(user.gids())
    }

    /// Whether one of some gids is among them.
    fn has_one(&self, gids: &[u32]) -> bool
        ensures { result ≡ list_any (contains nat_cmp self.now.gids) gids.now }
    {
        gids.iter().any(|gid| self.gids.contains(gid))
    }
}

/// The uid of the first of some users of whom a tree says nothing.
pub(crate) fn first_stranger(
    alloc: Global,
    tree: &Rows,
    users: &[User],
) -> Result<Option<u32>, NoMemory>
    ensures { IfOk result (λ stranger. stranger ≡ first_stranger tree.now users.now) }
{
    let known = Known::of(alloc, tree)?;
    Ok(first_beside(&known, users))
}

/// The uid of the first of some users who isn't known.
fn first_beside(known: &Known, users: &[User]) -> Option<u32>
    ensures { result ≡ option_map (λ user. user.uid) (find (λ user. not (contains nat_cmp known.now.uids user.uid || list_any (contains nat_cmp known.now.gids) user.gids)) users.now) }
{
    let user = users.iter().find(|user| !known.has(user))?;
    Some(user.uid())
}

/// The uid of a user of whom a tree says nothing.
pub(crate) fn if_stranger(tree: &Rows, user: &User) -> Option<u32>
    ensures { result ≡ first_stranger tree.now (user.now ∷ []) }
{
    if is_known(tree, user) {
        None
    } else {
        Some(user.uid())
    }
}

/// Whether a tree says something of a user. It goes over the tree up to the first that does, and takes no memory.
fn is_known(tree: &Rows, user: &User) -> bool
    ensures { not result ≡ is_stranger tree.now user.now }
{
    any_entry_speaks(tree, user) || any_process_of(tree.processes(), user.uid())
}

/// Whether one of some processes is a uid's.
fn any_process_of(processes: &Processes, uid: u32) -> bool
    ensures { result ≡ list_any (λ row. nat_eq row.1.uid uid) (finmap.entries processes.now.live) }
{
    processes.iter().any(|(_, process)| process.uid == uid)
}

/// Whether an entry of a tree speaks of a user.
fn any_entry_speaks(tree: &Rows, user: &User) -> bool
    ensures { result ≡ list_any (speaks_of user.now) (tree_entries tree.now) }
{
    any_cgroup_speaks(tree.entries(), user) || any_told_speaks(tree.told_entries(), user)
}

/// Whether what is told of one of some cgroups' limit files beyond `LimitFile` does.
fn any_told_speaks(told: &[(Path, ToldFiles)], user: &User) -> bool
    ensures { result ≡ list_any (λ row. list_any (speaks_of user.now) (told_entries row.1)) told.now }
{
    told.iter().any(|row| told_speaks(&row.1, user))
}

/// Whether what is told of a cgroup's does.
fn told_speaks(files: &ToldFiles, user: &User) -> bool
    ensures { result ≡ list_any (speaks_of user.now) (told_entries files.now) }
{
    any_told_file_speaks(files.entries(), user)
}

/// Whether one of some such files does.
fn any_told_file_speaks(files: &[Option<ToldFile>], user: &User) -> bool
    ensures { result ≡ list_any (λ told. list_any (speaks_of user.now) (told_entry told)) files.now }
{
    files.iter().any(|told| told_file_speaks(told, user))
}

/// Whether such a file does, where something is told of it.
fn told_file_speaks(told: &Option<ToldFile>, user: &User) -> bool
    ensures { result ≡ list_any (speaks_of user.now) (told_entry told.now) }
{
    match told {
        Some(told) => speaks_of(&told.entry, user),
        None => false,
    }
}

/// Whether an entry of one of some cgroups does.
fn any_cgroup_speaks(rows: &[(Path, Cgroup)], user: &User) -> bool
    ensures { result ≡ list_any (λ row. list_any (speaks_of user.now) (entries_of row.1)) rows.now }
{
    rows.iter().any(|row| cgroup_speaks(&row.1, user))
}

/// Whether an entry of a cgroup does.
fn cgroup_speaks(cgroup: &Cgroup, user: &User) -> bool
    ensures { result ≡ list_any (speaks_of user.now) (entries_of cgroup.now) }
{
    any_standing_speaks(cgroup, user) || any_file_speaks(cgroup, user)
}

/// Whether one of the entries that each cgroup has does.
fn any_standing_speaks(cgroup: &Cgroup, user: &User) -> bool
    ensures { result ≡ (speaks_of user.now cgroup.now.dir || speaks_of user.now cgroup.now.procs || speaks_of user.now cgroup.now.subtree_control) }
{
    speaks_of(&cgroup.dir, user)
        || speaks_of(&cgroup.procs, user)
        || speaks_of(&cgroup.subtree_control, user)
}

/// Whether one of a cgroup's limit files does.
fn any_file_speaks(cgroup: &Cgroup, user: &User) -> bool
    ensures { result ≡ list_any (λ file. list_any (speaks_of user.now) (file_entries cgroup.now file)) all_files }
{
    LimitFile::ALL
        .iter()
        .any(|file| file_speaks(cgroup, *file, user))
}

/// Whether a limit file does, where it is there.
fn file_speaks(cgroup: &Cgroup, file: LimitFile, user: &User) -> bool
    ensures { result ≡ list_any (speaks_of user.now) (file_entries cgroup.now file) }
{
    match cgroup.file(file) {
        Some(held) => speaks_of(&held.entry, user),
        None => false,
    }
}

/// Whether an entry speaks of a user: they own it, or one of their groups writes it.
fn speaks_of(entry: &Entry, user: &User) -> bool
    ensures { result ≡ speaks_of user.now entry.now }
{
    user.owns(entry) || (entry.mode & 0o020 == 0o020 && user.in_group(entry.gid))
}
