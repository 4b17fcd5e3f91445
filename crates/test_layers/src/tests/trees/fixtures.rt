//! Changes of any tree, each tested for what it requires, and the trees that are built by them.
ghost use Rattle.std.specs.Prelude.{◌≡◌, true, not, ◌||◌, [], cond, map, Some, None, IfOk};
ghost use Rattle.cg_cgroup.specs.Files.{brought_files, enables, is_beyond, stands_under};
ghost use Rattle.cg_cgroup.specs.Cgroups.{file_made_by, entry_made_by, cgroup_made_by};
ghost use Rattle.cg_model.specs.States.{child_enables};
ghost use Rattle.cg_rows.specs.RowsForm.{IsRoot, state_of_root};
ghost use Rattle.cg_model.specs.WellFormed.{has_row, may_hold, available_at};

use cg_cgroup::brought::BroughtFiles;
use cg_cgroup::cgroup::{Cgroup, LimitEntry};
use cg_cgroup::files::{BROUGHT_COUNT, Controller, ControllerSet, EntryName, Limit, LimitFile};
use cg_cgroup::memory::NoMemory;
use cg_cgroup::others::OtherFiles;
use cg_cgroup::path::{Path, PathFault};
use cg_cgroup::process::Pid;
use cg_cgroup::user::{Entry, Mode, User};
use cg_model::hierarchy::Hierarchy;
use cg_rows::processes::Processes;
use cg_rows::rows::Rows;
use cg_rows::tables::path_table::PathTable;
use std::alloc::Global;
use std::collections::BTreeMap;
use std::process::Abort;
use std::test::Fail;

/// The uids of the parts of a cgroup.
#[derive(Clone, Copy)]
pub struct Owners {
    pub dir: u32,
    pub procs: u32,
    pub subtree_control: u32,
    pub limits: u32,
}

impl Owners {
    /// Nothing is handed over.
    pub const KEPT: Owners = Owners {
        dir: 0,
        procs: 0,
        subtree_control: 0,
        limits: 0,
    };
    /// All is uid 1's, which stands for an administrator, since no user has uid 0.
    pub const ADMINISTRATOR: Owners = Owners {
        dir: 1,
        procs: 1,
        subtree_control: 1,
        limits: 1,
    };
    /// The directory and the processes are user 1000's.
    pub const PROCESSES: Owners = Owners {
        dir: 1000,
        procs: 1000,
        ..Owners::KEPT
    };
    /// All but the limits is user 1000's.
    pub const DELEGATED: Owners = Owners {
        subtree_control: 1000,
        ..Owners::PROCESSES
    };
    /// All is user 1000's.
    pub const WHOLE: Owners = Owners {
        limits: 1000,
        ..Owners::DELEGATED
    };
}

/// The entry of a user without groups, or of uid 0.
fn entry(uid: u32, mode: Mode) -> Entry
    ensures { result ≡ entry_made_by (record { uid = uid; gids = [] }) mode }
{
    Entry {
        uid,
        gid: 0,
        mode: mode.get(),
    }
}

/// A limit file with its default value.
fn limit_file(uid: u32, file: LimitFile) -> LimitEntry
    ensures { result ≡ file_made_by (record { uid = uid; gids = [] }) file }
{
    LimitEntry {
        entry: entry(uid, Mode::FILE),
        value: file.default_value(),
    }
}

/// A limit file, where it stands below a cgroup that enables these.
fn file_under(above: ControllerSet, uid: u32, file: LimitFile) -> Option<LimitEntry>
    ensures { result ≡ cond (stands_under above file) (Some (file_made_by (record { uid = uid; gids = [] }) file)) None }
{
    file.stands_under(above).then_some(limit_file(uid, file))
}

/// The limit files that controllers bring, where they stand below a cgroup that enables these.
fn files_under(above: ControllerSet, uid: u32) -> [Option<LimitEntry>; BROUGHT_COUNT]
    ensures { result ≡ map
        (λ file. cond (stands_under above file) (Some (file_made_by (record { uid = uid; gids = [] }) file)) None)
        brought_files }
{
    LimitFile::BROUGHT.map(|file| file_under(above, uid, file))
}

/// A cgroup below one that enables these: with default modes and values, and group 0.
pub fn cgroup_of(owners: Owners, above: ControllerSet) -> Cgroup
    ensures { result ≡ record (cgroup_made_by (record { uid = owners.limits; gids = [] }) above) {
      dir = entry_made_by (record { uid = owners.dir; gids = [] }) 493;
      procs = entry_made_by (record { uid = owners.procs; gids = [] }) 420;
      subtree_control = entry_made_by (record { uid = owners.subtree_control; gids = [] }) 420;
    } }
{
    let uid = owners.limits;
    Cgroup {
        dir: entry(owners.dir, Mode::DIRECTORY),
        procs: entry(owners.procs, Mode::FILE),
        subtree_control: entry(owners.subtree_control, Mode::FILE),
        max_descendants: limit_file(uid, LimitFile::MaxDescendants),
        max_depth: limit_file(uid, LimitFile::MaxDepth),
        freeze: Some(entry(uid, Mode::FILE)),
        files: BroughtFiles {
            entries: files_under(above, uid),
        },
        others: OtherFiles::under(above, entry(uid, Mode::FILE)),
        enabled: ControllerSet::none(),
    }
}

/// A root with default modes and values, and group 0.
fn root_of(owners: Owners) -> Cgroup {
    Cgroup {
        freeze: None,
        ..cgroup_of(owners, ControllerSet::none())
    }
}

pub fn path(alloc: Global, text: &str) -> Result<Path, PathFault> {
    Path::parse(alloc, text)
}

/// Adds a cgroup. False where it is there, or its parent isn't.
pub fn add<H: Hierarchy>(
    alloc: Global,
    tree: &mut H,
    path: &Path,
    owners: Owners,
) -> Result<bool, NoMemory> {
    let len = path.depth();
    if len == 0 || tree.get(path, len).is_some() {
        return Ok(false);
    }
    let Some(parent) = tree.get(path, path.parent_len()) else {
        return Ok(false);
    };
    let cgroup = cgroup_of(owners, parent.enabled);
    tree.add(alloc, path, cgroup)?;
    Ok(true)
}

/// Sets a limit. False where the file doesn't stand or doesn't accept the value.
pub fn set_limit<H: Hierarchy>(tree: &mut H, path: &Path, file: LimitFile, value: Limit) -> bool {
    let Some(cgroup) = tree.get(path, path.depth()) else {
        return false;
    };
    if cgroup.file(file).is_none() || !file.accepts(value) {
        return false;
    }
    tree.set_limit(path, file, value);
    true
}

/// Whether an entry is a limit file beyond `LimitFile`.
fn is_beyond(name: EntryName) -> bool
    ensures { result ≡ is_beyond name }
{
    matches!(name, EntryName::Other(_))
}

/// Sets a mode. False where the entry isn't there, or is a limit file beyond `LimitFile`.
pub fn set_mode<H: Hierarchy>(tree: &mut H, path: &Path, name: EntryName, mode: Mode) -> bool {
    let Some(cgroup) = tree.get(path, path.depth()) else {
        return false;
    };
    if is_beyond(name) || cgroup.entry(name).is_none() {
        return false;
    }
    tree.set_mode(path, name, mode);
    true
}

/// What a cgroup may enable: at the root all that there are, elsewhere what the parent enables.
fn available<H: Hierarchy>(tree: &H, path: &Path) -> ControllerSet
    ensures { result ≡ available_at (H.state tree.now) path.now }
{
    if path.depth() == 0 {
        return tree.controllers();
    }
    match tree.get(path, path.parent_len()) {
        Some(parent) => parent.enabled,
        None => ControllerSet::none(),
    }
}

/// Whether no child of a cgroup enables a controller that isn't among these.
fn covers<H: Hierarchy>(
    tree: &H,
    path: &Path,
    enabled: ControllerSet,
    controller: Controller,
) -> bool
    requires { has_row (H.state tree.now) path.now ≡ true }
    ensures { result ≡ (not (child_enables (H.state tree.now) path.now controller) || enables enabled controller) }
{
    !tree.child_enables(path, path.depth(), controller) || enabled.contains(controller)
}

/// Enables these. False where the cgroup isn't there or may not enable these alone.
pub fn set_enabled<H: Hierarchy>(
    tree: &mut H,
    path: &Path,
    enabled: ControllerSet,
    user: &User,
) -> bool {
    let len = path.depth();
    if tree.get(path, len).is_none() || !enabled.is_within(&available(tree, path)) {
        return false;
    }
    if len > 0 && !enabled.is_empty() && tree.has_live(path, len) {
        return false;
    }
    if !covers(tree, path, enabled, Controller::Cpu)
        || !covers(tree, path, enabled, Controller::Memory)
        || !covers(tree, path, enabled, Controller::Pids)
    {
        return false;
    }
    tree.set_enabled(path, enabled, user);
    true
}

/// Removes a cgroup. False where it isn't there, is the root, or has a child or a process.
pub fn remove<H: Hierarchy>(tree: &mut H, path: &Path) -> bool {
    let len = path.depth();
    if len == 0 || tree.get(path, len).is_none() {
        return false;
    }
    if tree.has_child(path, len) || tree.has_live(path, len) {
        return false;
    }
    tree.remove(path);
    true
}

/// Whether a cgroup is there and enables nothing.
fn may_hold<H: Hierarchy>(tree: &H, path: &Path) -> bool
    ensures { result ≡ may_hold (H.state tree.now) path.now }
{
    match tree.get(path, path.depth()) {
        Some(cgroup) => cgroup.enabled.is_empty(),
        None => false,
    }
}

/// Adds a process. False where its PID was used, or the cgroup isn't there or enables something.
fn add_process<H: Hierarchy>(
    alloc: Global,
    tree: &mut H,
    pid: Pid,
    uid: u32,
    path: &Path,
) -> Result<bool, NoMemory> {
    if !may_hold(tree, path) || tree.is_used(pid) {
        return Ok(false);
    }
    tree.add_process(alloc, pid, uid, path)?;
    Ok(true)
}

/// Ends a process. False where it isn't live.
fn end_process<H: Hierarchy>(tree: &mut H, pid: Pid) -> bool {
    if tree.owner(pid).is_none() {
        return false;
    }
    tree.end_process(pid);
    true
}

/// Moves a process. False where it isn't live, or the cgroup isn't there or enables something.
fn set_place<H: Hierarchy>(
    alloc: Global,
    tree: &mut H,
    pid: Pid,
    path: &Path,
) -> Result<bool, NoMemory> {
    if !may_hold(tree, path) || tree.owner(pid).is_none() {
        return Ok(false);
    }
    tree.set_place(alloc, pid, path)?;
    Ok(true)
}

/// An equal tree.
pub fn copy_of<H: Hierarchy>(alloc: Global, tree: &H) -> Result<H, NoMemory> {
    tree.try_clone(alloc)
}

/// Adds cgroups in turn, to the first that can't be added.
fn add_all<H: Hierarchy>(
    alloc: Global,
    tree: &mut H,
    cgroups: &[(&str, Owners)],
) -> Result<bool, Fail> {
    for (text, owners) in cgroups {
        if !add(alloc, tree, &path(alloc, text)?, *owners)? {
            return Ok(false);
        }
    }
    Ok(true)
}

/// Adds a process by its number and its cgroup's text.
pub fn populate<H: Hierarchy>(
    alloc: Global,
    tree: &mut H,
    number: u32,
    uid: u32,
    text: &str,
) -> Result<bool, Fail> {
    let pid = Pid::new(number).ok_or("no PID")?;
    Ok(add_process(alloc, tree, pid, uid, &path(alloc, text)?)?)
}

/// Moves a process by its number and its new cgroup's text.
pub fn transfer<H: Hierarchy>(
    alloc: Global,
    tree: &mut H,
    number: u32,
    text: &str,
) -> Result<bool, Fail> {
    let pid = Pid::new(number).ok_or("no PID")?;
    Ok(set_place(alloc, tree, pid, &path(alloc, text)?)?)
}

/// Ends a process by its number.
pub fn end<H: Hierarchy>(tree: &mut H, number: u32) -> Result<bool, Fail> {
    Ok(end_process(tree, Pid::new(number).ok_or("no PID")?))
}

/// The controllers that texts know.
pub const ALL: ControllerSet = ControllerSet {
    flags: [false, true, false, true, false, true, false, false, false],
};

/// Memory alone.
pub const MEMORY: ControllerSet = ControllerSet {
    flags: [false, false, false, true, false, false, false, false, false],
};

/// A tree with a root alone, of these owners, where the root has these controllers.
pub fn root_alone(
    alloc: Global,
    controllers: ControllerSet,
    owners: Owners,
) -> Result<Rows, NoMemory> {
    Rows::new(alloc, controllers, root_of(owners))
}

/// A tree with a root alone, of finished tables.
pub fn of_tables(alloc: Global, controllers: ControllerSet, root: Cgroup) -> Result<Rows, NoMemory>
    requires { IsRoot controllers root }
    ensures { IfOk result (λ rows. rows ≡ state_of_root controllers root) }
{
    let mut cgroups = BTreeMap::new(alloc);
    cgroups.insert(Path::root(alloc), root)?;
    let cgroups = PathTable::from_map(alloc, cgroups)?;
    Ok(Rows::from_tables(
        cgroups,
        Processes::new(alloc),
        PathTable::new(alloc),
        controllers,
    ))
}

/// Hands `/c0` and `/c1` over, with two levels and four cgroups allowed below `/c0`, and fills them with cgroups of user
/// 1000 and a process in each. The root enables memory.
pub fn delegate<H: Hierarchy>(
    rt: &impl Abort,
    alloc: Global,
    tree: &mut H,
    maker: &User,
) -> Result<(), Fail> {
    let cgroups = [
        ("/c0", Owners::DELEGATED),
        ("/c1", Owners::DELEGATED),
        ("/c0/c00", Owners::WHOLE),
        ("/c0/c01", Owners::WHOLE),
        ("/c1/c10", Owners::WHOLE),
    ];
    let limits = [
        (LimitFile::MaxDepth, 2),
        (LimitFile::MaxDescendants, 4),
        (LimitFile::MemoryMax, 1073741824),
    ];
    assert!(rt; set_enabled(tree, &Path::root(alloc), MEMORY, maker));
    assert!(rt; add_all(alloc, tree, &cgroups)?);
    let c0 = path(alloc, "/c0")?;
    for (file, amount) in limits {
        assert!(rt; set_limit(tree, &c0, file, Limit::At(amount)));
    }
    assert!(rt; populate(alloc, tree, 10, 1000, "/c1/c10")?);
    assert!(rt; populate(alloc, tree, 11, 1000, "/c0/c00")?);
    Ok(())
}

/// The delegation example.
pub fn delegation(rt: &impl Abort, alloc: Global) -> Result<Rows, Fail> {
    let mut tree = root_alone(alloc, ALL, Owners::KEPT)?;
    delegate(rt, alloc, &mut tree, &User::new(1000).ok_or("uid 0")?)?;
    Ok(tree)
}

/// Lets everybody write the root's `cgroup.procs`, and adds `/c01` with a process.
pub fn open_root<H: Hierarchy>(rt: &impl Abort, alloc: Global, tree: &mut H) -> Result<(), Fail> {
    let open = Mode::new(0o646).ok_or("over 0o777")?;
    assert!(rt; set_mode(tree, &Path::root(alloc), EntryName::Procs, open));
    assert!(rt; add(alloc, tree, &path(alloc, "/c01")?, Owners::PROCESSES)?);
    assert!(rt; populate(alloc, tree, 14, 1000, "/c01")?);
    Ok(())
}

/// The delegation example with an open root and `/c01`.
pub fn open_delegation(rt: &impl Abort, alloc: Global) -> Result<Rows, Fail> {
    let mut tree = delegation(rt, alloc)?;
    open_root(rt, alloc, &mut tree)?;
    Ok(tree)
}

/// Adds `/p`, which enables memory, and `/p/s` with a process to a root alone that has memory, and enables it there.
fn nest(rt: &impl Abort, alloc: Global, mut tree: Rows) -> Result<Rows, Fail> {
    let maker = User::new(1000).ok_or("uid 0")?;
    let p = path(alloc, "/p")?;
    assert!(rt; set_enabled(&mut tree, &Path::root(alloc), MEMORY, &maker));
    assert!(rt; add(alloc, &mut tree, &p, Owners::PROCESSES)?);
    assert!(rt; set_enabled(&mut tree, &p, MEMORY, &maker));
    assert!(rt; add(alloc, &mut tree, &path(alloc, "/p/s")?, Owners::KEPT)?);
    assert!(rt; populate(alloc, &mut tree, 20, 1000, "/p/s")?);
    Ok(tree)
}

/// A tree in which two levels enable the one controller that there is.
pub fn nested(rt: &impl Abort, alloc: Global) -> Result<Rows, Fail> {
    nest(rt, alloc, root_alone(alloc, MEMORY, Owners::KEPT)?)
}

/// The same tree, from finished tables.
pub fn nested_of_tables(rt: &impl Abort, alloc: Global) -> Result<Rows, Fail> {
    nest(rt, alloc, of_tables(alloc, MEMORY, root_of(Owners::KEPT))?)
}
