//! Each call of a tree, on trees worked out by hand.
pub mod fixtures;
mod readings;

use cg_cgroup::files::{Controller, ControllerSet, EntryName, Limit, LimitFile};
use cg_cgroup::path::Path;
use cg_cgroup::process::{Pid, Process};
use cg_cgroup::user::{Entry, Mode, User};
use cg_model::hierarchy::Hierarchy;
use cg_rows::processes::Processes;
use cg_rows::rows::Rows;
use cg_rows::tables::path_table::PathTable;
use fixtures::{
    ALL, MEMORY, Owners, add, copy_of, delegation, end, nested, nested_of_tables, open_delegation,
    path, populate, remove, set_enabled, set_limit, set_mode, transfer,
};
use readings::{Said, check, check_controllers, check_gone, check_lists, check_places};
use std::alloc::Global;
use std::collections::{BTreeMap, BTreeSet};
use std::process::Abort;
use std::test::Fail;

/// The entry of a user without groups, or of uid 0.
fn entry(uid: u32, mode: u16) -> Option<Entry> {
    Some(Entry { uid, gid: 0, mode })
}

/// The entry of a file that user 1001 of group 7 made.
fn made_entry() -> Option<Entry> {
    Some(Entry {
        uid: 1001,
        gid: 7,
        mode: 0o644,
    })
}

/// Enables these, by user 1001 of group 7. False where the cgroup isn't there or may not enable these alone.
fn enable<H: Hierarchy>(
    alloc: Global,
    tree: &mut H,
    text: &str,
    enabled: ControllerSet,
) -> Result<bool, Fail> {
    let user = User::with_groups(1001, &[7]).ok_or("33 gids or uid 0")?;
    Ok(set_enabled(tree, &path(alloc, text)?, enabled, &user))
}

/// That a limit file has a number.
fn at(file: LimitFile, number: u64) -> Said {
    Said::LimitIs(file, Some(Limit::At(number)))
}

/// That a limit file has `max`.
fn unlimited(file: LimitFile) -> Said {
    Said::LimitIs(file, Some(Limit::Max))
}

#[test]
fn what_is_said_of_the_delegation_example(rt: HostRuntime) -> Result<(), Fail> {
    let a = rt.alloc();
    let wanted = [
        ("/", Said::Counts(0, 5, 2)),
        ("/", Said::Holds(0, true, false)),
        ("/", Said::Uses(Controller::Memory, Some(false))),
        ("/", Said::Enables(Some(MEMORY))),
        ("/", Said::EntryIs(EntryName::Procs, entry(0, 0o644))),
        ("/", Said::LimitIs(LimitFile::MemoryMax, None)),
        ("/c0", Said::Counts(1, 2, 1)),
        ("/c0", Said::Enables(Some(ControllerSet::none()))),
        ("/c0", at(LimitFile::MaxDepth, 2)),
        ("/c0", at(LimitFile::MaxDescendants, 4)),
        ("/c0", at(LimitFile::MemoryMin, 0)),
        ("/c0", at(LimitFile::MemoryMax, 1073741824)),
        ("/c0", Said::LimitIs(LimitFile::PidsMax, None)),
        ("/c0/c00", Said::Counts(1, 2, 1)),
        ("/c0/c00", Said::Counts(2, 0, 0)),
        ("/c0/c00", Said::Holds(2, false, true)),
        ("/c0/c00", unlimited(LimitFile::MaxDepth)),
        ("/c0/c01", Said::Counts(2, 0, 0)),
        ("/c0/c02", Said::Uses(Controller::Memory, None)),
        ("/c0/c02", Said::Enables(None)),
        ("/c1", Said::Counts(1, 1, 1)),
        ("/c1", Said::Holds(1, true, false)),
        ("/c1", Said::Uses(Controller::Cpu, Some(false))),
        ("/c1", unlimited(LimitFile::MemoryMax)),
        ("/c1/c10", Said::Counts(0, 5, 2)),
    ];
    check(&rt, a, &delegation(&rt, a)?, &wanted)
}

#[test]
fn what_is_said_of_it_with_an_open_root(rt: HostRuntime) -> Result<(), Fail> {
    let a = rt.alloc();
    let memory = EntryName::File(LimitFile::MemoryMax);
    let depth = EntryName::File(LimitFile::MaxDepth);
    let control = EntryName::SubtreeControl;
    let wanted = [
        ("/", Said::Counts(0, 6, 2)),
        ("/", Said::Holds(0, true, false)),
        ("/", Said::Uses(Controller::Pids, Some(false))),
        ("/", Said::EntryIs(EntryName::Dir, entry(0, 0o755))),
        ("/", Said::EntryIs(EntryName::Procs, entry(0, 0o646))),
        ("/c0", Said::Counts(1, 2, 1)),
        ("/c0", Said::Holds(1, true, false)),
        ("/c0", Said::EntryIs(EntryName::Dir, entry(1000, 0o755))),
        ("/c0", Said::EntryIs(control, entry(1000, 0o644))),
        ("/c0", Said::EntryIs(memory, entry(0, 0o644))),
        ("/c0/c00", Said::Holds(2, false, true)),
        ("/c0/c00", Said::EntryIs(depth, entry(1000, 0o644))),
        ("/c0/c00", Said::EntryIs(memory, None)),
        ("/c0/c01", Said::Holds(2, false, false)),
        ("/c0/c01", Said::Holds(1, true, false)),
        ("/c01", Said::Counts(1, 0, 0)),
        ("/c01", Said::Holds(1, false, true)),
        ("/c01", Said::Enables(Some(ControllerSet::none()))),
        ("/c01", Said::EntryIs(EntryName::Procs, entry(1000, 0o644))),
        ("/c01", Said::EntryIs(control, entry(0, 0o644))),
        ("/c01", unlimited(LimitFile::MemoryMax)),
        ("/c1", Said::Counts(1, 1, 1)),
        ("/c1", Said::Holds(1, true, false)),
        ("/c1/c10", Said::Holds(2, false, true)),
    ];
    check(&rt, a, &open_delegation(&rt, a)?, &wanted)
}

#[test]
fn what_is_said_of_two_levels_that_enable_memory(rt: HostRuntime) -> Result<(), Fail> {
    let a = rt.alloc();
    let memory = EntryName::File(LimitFile::MemoryMax);
    let wanted = [
        ("/", Said::Counts(0, 2, 2)),
        ("/", Said::Holds(0, true, false)),
        ("/", Said::Uses(Controller::Memory, Some(true))),
        ("/", Said::Uses(Controller::Cpu, Some(false))),
        ("/p", Said::Counts(1, 1, 1)),
        ("/p", Said::Holds(1, true, false)),
        ("/p", Said::Uses(Controller::Memory, Some(false))),
        ("/p", Said::Enables(Some(MEMORY))),
        ("/p", Said::EntryIs(EntryName::Dir, entry(1000, 0o755))),
        (
            "/p",
            Said::EntryIs(EntryName::SubtreeControl, entry(0, 0o644)),
        ),
        ("/p", Said::LimitIs(LimitFile::CpuWeight, None)),
        ("/p/s", Said::Counts(2, 0, 0)),
        ("/p/s", Said::Holds(2, false, true)),
        ("/p/s", Said::EntryIs(EntryName::Procs, entry(0, 0o644))),
        ("/p/s", Said::EntryIs(memory, entry(0, 0o644))),
        ("/p/s", at(LimitFile::MemoryLow, 0)),
    ];
    check(&rt, a, &nested(&rt, a)?, &wanted)
}

#[test]
fn tells_the_roots_controllers(rt: HostRuntime) -> Result<(), Fail> {
    let a = rt.alloc();
    check_controllers(&rt, &delegation(&rt, a)?, ALL);
    check_controllers(&rt, &open_delegation(&rt, a)?, ALL);
    check_controllers(&rt, &nested(&rt, a)?, MEMORY);
    Ok(())
}

#[test]
fn lists_paths_and_processes(rt: HostRuntime) -> Result<(), Fail> {
    let a = rt.alloc();
    let paths = " / /c0 /c0/c00 /c0/c01 /c1 /c1/c10";
    check_lists(&rt, a, &delegation(&rt, a)?, paths, &[10, 11])?;
    let paths = " / /c0 /c0/c00 /c0/c01 /c01 /c1 /c1/c10";
    check_lists(&rt, a, &open_delegation(&rt, a)?, paths, &[10, 11, 14])?;
    check_lists(&rt, a, &nested(&rt, a)?, " / /p /p/s", &[20])
}

#[test]
fn tells_where_processes_are(rt: HostRuntime) -> Result<(), Fail> {
    let a = rt.alloc();
    let wanted = [(10, 1000, "/c1/c10"), (11, 1000, "/c0/c00")];
    check_places(&rt, &delegation(&rt, a)?, &wanted)?;
    let wanted = [
        (10, 1000, "/c1/c10"),
        (11, 1000, "/c0/c00"),
        (14, 1000, "/c01"),
    ];
    check_places(&rt, &open_delegation(&rt, a)?, &wanted)?;
    check_places(&rt, &nested(&rt, a)?, &[(20, 1000, "/p/s")])
}

#[test]
fn tells_that_no_process_is_there(rt: HostRuntime) -> Result<(), Fail> {
    let a = rt.alloc();
    check_gone(&rt, &delegation(&rt, a)?, 14, false)?;
    check_gone(&rt, &open_delegation(&rt, a)?, 20, false)?;
    check_gone(&rt, &nested(&rt, a)?, 10, false)
}

#[test]
fn sets_limits(rt: HostRuntime) -> Result<(), Fail> {
    let a = rt.alloc();
    let file = LimitFile::MemoryLow;
    let mut tree = delegation(&rt, a)?;
    assert!(rt; set_limit(&mut tree, &path(a, "/c1")?, file, Limit::At(7)));
    let wanted = [
        ("/c1", Said::LimitIs(file, Some(Limit::At(7)))),
        ("/c1", unlimited(LimitFile::MemoryHigh)),
        ("/c0", Said::LimitIs(file, Some(Limit::At(0)))),
        ("/c1", Said::EntryIs(EntryName::File(file), entry(0, 0o644))),
    ];
    check(&rt, a, &tree, &wanted)
}

#[test]
fn sets_modes(rt: HostRuntime) -> Result<(), Fail> {
    let a = rt.alloc();
    let mode = Mode::new(0o555).ok_or("over 0o777")?;
    let mut tree = delegation(&rt, a)?;
    assert!(rt; set_mode(&mut tree, &path(a, "/c1")?, EntryName::Dir, mode));
    let wanted = [
        ("/c1", Said::EntryIs(EntryName::Dir, entry(1000, 0o555))),
        ("/c1", Said::EntryIs(EntryName::Procs, entry(1000, 0o644))),
        (
            "/c1",
            Said::EntryIs(EntryName::File(LimitFile::MemoryLow), entry(0, 0o644)),
        ),
        ("/c1/c10", Said::EntryIs(EntryName::Dir, entry(1000, 0o755))),
    ];
    check(&rt, a, &tree, &wanted)
}

#[test]
fn enables(rt: HostRuntime) -> Result<(), Fail> {
    let a = rt.alloc();
    let file = EntryName::File(LimitFile::MemoryMax);
    let mut tree = delegation(&rt, a)?;
    assert!(rt; enable(a, &mut tree, "/c0", MEMORY)?);
    check(
        &rt,
        a,
        &tree,
        &[("/", Said::Uses(Controller::Memory, Some(true)))],
    )?;
    let wanted = [
        ("/c0", Said::EntryIs(file, entry(0, 0o644))),
        ("/c0/c00", Said::EntryIs(file, made_entry())),
        ("/c0/c01", Said::EntryIs(file, made_entry())),
        ("/c1/c10", Said::EntryIs(file, None)),
    ];
    check(&rt, a, &tree, &wanted)
}

#[test]
fn disables(rt: HostRuntime) -> Result<(), Fail> {
    let a = rt.alloc();
    let mut tree = delegation(&rt, a)?;
    assert!(rt; enable(a, &mut tree, "/c0", MEMORY)?);
    assert!(rt; enable(a, &mut tree, "/c0", ControllerSet::none())?);
    check(
        &rt,
        a,
        &tree,
        &[("/", Said::Uses(Controller::Memory, Some(false)))],
    )?;
    check(
        &rt,
        a,
        &tree,
        &[("/c0/c00", Said::LimitIs(LimitFile::MemoryMax, None))],
    )
}

#[test]
fn adds(rt: HostRuntime) -> Result<(), Fail> {
    let a = rt.alloc();
    let mut tree = open_delegation(&rt, a)?;
    assert!(rt; add(a, &mut tree, &path(a, "/c0-x")?, Owners::KEPT)?);
    let paths = " / /c0 /c0/c00 /c0/c01 /c0-x /c01 /c1 /c1/c10";
    check_lists(&rt, a, &tree, paths, &[10, 11, 14])?;
    let wanted = [("/", Said::Counts(0, 7, 2)), ("/c0", Said::Counts(1, 2, 1))];
    check(&rt, a, &tree, &wanted)
}

#[test]
fn removes(rt: HostRuntime) -> Result<(), Fail> {
    let a = rt.alloc();
    let mut tree = open_delegation(&rt, a)?;
    assert!(rt; remove(&mut tree, &path(a, "/c0/c01")?));
    let wanted = [("/", Said::Counts(0, 5, 2)), ("/c0", Said::Counts(1, 1, 1))];
    check(&rt, a, &tree, &wanted)?;
    check_lists(
        &rt,
        a,
        &tree,
        " / /c0 /c0/c00 /c01 /c1 /c1/c10",
        &[10, 11, 14],
    )
}

#[test]
fn moves_processes(rt: HostRuntime) -> Result<(), Fail> {
    let a = rt.alloc();
    let mut tree = delegation(&rt, a)?;
    assert!(rt; transfer(a, &mut tree, 11, "/c0/c01")?);
    check_places(&rt, &tree, &[(10, 1000, "/c1/c10"), (11, 1000, "/c0/c01")])?;
    let wanted = [
        ("/c0/c00", Said::Holds(2, false, false)),
        ("/c0/c01", Said::Holds(2, false, true)),
    ];
    check(&rt, a, &tree, &wanted)
}

#[test]
fn adds_processes(rt: HostRuntime) -> Result<(), Fail> {
    let a = rt.alloc();
    let mut tree = delegation(&rt, a)?;
    assert!(rt; populate(a, &mut tree, 12, 1001, "/c0/c01")?);
    let wanted = [
        (10, 1000, "/c1/c10"),
        (11, 1000, "/c0/c00"),
        (12, 1001, "/c0/c01"),
    ];
    check_places(&rt, &tree, &wanted)?;
    check(&rt, a, &tree, &[("/c0/c01", Said::Holds(2, false, true))])
}

#[test]
fn ends_processes(rt: HostRuntime) -> Result<(), Fail> {
    let a = rt.alloc();
    let mut tree = delegation(&rt, a)?;
    assert!(rt; populate(a, &mut tree, 12, 1001, "/c0/c01")?);
    assert!(rt; end(&mut tree, 11)?);
    check_gone(&rt, &tree, 11, true)?;
    check_gone(&rt, &tree, 13, false)?;
    check_places(&rt, &tree, &[(10, 1000, "/c1/c10"), (12, 1001, "/c0/c01")])
}

#[test]
fn copies_are_equal(rt: HostRuntime) -> Result<(), Fail> {
    let a = rt.alloc();
    let tree = copy_of(a, &delegation(&rt, a)?)?;
    let paths = " / /c0 /c0/c00 /c0/c01 /c1 /c1/c10";
    check_lists(&rt, a, &tree, paths, &[10, 11])?;
    check_controllers(&rt, &tree, ALL);
    let wanted = [("/c0", at(LimitFile::MaxDescendants, 4))];
    check(&rt, a, &tree, &wanted)
}

#[test]
fn copies_of_an_open_tree_are_equal(rt: HostRuntime) -> Result<(), Fail> {
    let a = rt.alloc();
    let tree = copy_of(a, &open_delegation(&rt, a)?)?;
    check(
        &rt,
        a,
        &tree,
        &[("/", Said::EntryIs(EntryName::Procs, entry(0, 0o646)))],
    )?;
    check_places(&rt, &tree, &[(14, 1000, "/c01")])
}

/// A copy of the nested tree, whose process ended and whose `/p/s` was removed since.
fn copy_from_before(rt: &impl Abort, alloc: Global) -> Result<Rows, Fail> {
    let mut tree = nested(rt, alloc)?;
    let copy = copy_of(alloc, &tree)?;
    assert!(rt; end(&mut tree, 20)?);
    assert!(rt; remove(&mut tree, &path(alloc, "/p/s")?));
    check_lists(rt, alloc, &tree, " / /p", &[])?;
    Ok(copy)
}

#[test]
fn copies_stay_as_they_were(rt: HostRuntime) -> Result<(), Fail> {
    let a = rt.alloc();
    let copy = copy_from_before(&rt, a)?;
    check_lists(&rt, a, &copy, " / /p /p/s", &[20])?;
    check_places(&rt, &copy, &[(20, 1000, "/p/s")])?;
    check(
        &rt,
        a,
        &copy,
        &[
            ("/p", Said::Enables(Some(MEMORY))),
            ("/c0", Said::Enables(None)),
        ],
    )
}

#[test]
fn tables_make_a_tree(rt: HostRuntime) -> Result<(), Fail> {
    let a = rt.alloc();
    let tree = nested_of_tables(&rt, a)?;
    check_lists(&rt, a, &tree, " / /p /p/s", &[20])?;
    check(
        &rt,
        a,
        &tree,
        &[
            ("/", Said::Counts(0, 2, 2)),
            ("/p/s", Said::Counts(1, 1, 1)),
        ],
    )?;
    check_places(&rt, &tree, &[(20, 1000, "/p/s")])?;
    check_controllers(&rt, &tree, MEMORY);
    Ok(())
}

/// A table of paths, each with its place in the order of paths.
fn placed_paths(alloc: Global) -> Result<PathTable<usize>, Fail> {
    let mut paths = BTreeMap::new(alloc);
    for (text, place) in [("/c01", 3), ("/", 0), ("/c0-x", 2), ("/c0/c00", 1)] {
        paths.insert(path(alloc, text)?, place)?;
    }
    Ok(PathTable::from_map(alloc, paths)?)
}

/// Processes of the uids 2, 0 and 1, made of finished maps in this order.
fn placed_pids(alloc: Global) -> Result<Processes, Fail> {
    let mut live = BTreeMap::new(alloc);
    for (number, uid) in [(4194303, 2), (1, 0), (14, 1)] {
        let process = Process {
            uid,
            place: Path::root(alloc),
        };
        live.insert(Pid::new(number).ok_or("no PID")?, process)?;
    }
    Ok(Processes::from_maps(live, BTreeSet::new(alloc)))
}

#[test]
fn paths_stand_in_order(rt: HostRuntime) -> Result<(), Fail> {
    let table = placed_paths(rt.alloc())?;
    for (index, entry) in table.entries().iter().enumerate() {
        assert_eq!(rt; entry.1, index);
    }
    assert_eq!(rt; table.len(), 4);
    Ok(())
}

#[test]
fn pids_stand_in_order(rt: HostRuntime) -> Result<(), Fail> {
    let processes = placed_pids(rt.alloc())?;
    for (index, (_, process)) in processes.iter().enumerate() {
        assert_eq!(rt; process.uid as usize, index);
    }
    assert_eq!(rt; processes.iter().count(), 3);
    Ok(())
}
