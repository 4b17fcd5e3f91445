//! What formats 2 and 4 have and format 1 hasn't: groups, and the bit of a group's members.
use super::{Asked, BASE, Parts, READ, cgroup_of, entry_keys, expect, expect_keys, expect_line};
use crate::tests::changed::{FORMAT_2, FORMAT_4, delegation_with};
use cg_cgroup::user::Entry;
use std::test::Fail;

const TOP_2: &str = "format = 2\ncontrollers = [\"cpu\"]";

const TOP_4: &str = "format = 4\ncontrollers = [\"cpu\"]";

/// Process 11 of the delegation example to `/c0/c01`.
const TO_C01: Asked<'static> = Asked {
    gids: &[],
    pid: 11,
    to: "/c0/c01",
};

#[test]
fn groups_of_the_delegation_example(rt: HostRuntime) -> Result<(), Fail> {
    for (old, new, line) in [
        (
            "path = \"/c0\"\ndir = { uid = 1000 }",
            "path = \"/c0\"\ndir = { uid = 1000, gid = 5 }",
            "fault: tree shape cgroup 2",
        ),
        (
            "path = \"/\"",
            "path = \"/\"\ndir = { mode = 0o775 }",
            "fault: tree bad-entry cgroup 1",
        ),
    ] {
        let text = delegation_with(rt.alloc(), &[(old, new)])?;
        expect_line(&rt, rt.alloc(), text.as_bytes(), TO_C01, line)?;
        for format in [FORMAT_2, FORMAT_4] {
            let text = delegation_with(rt.alloc(), &[format, (old, new)])?;
            expect_line(&rt, rt.alloc(), text.as_bytes(), TO_C01, "granted")?;
        }
    }
    Ok(())
}

const SHAPE: &str = "fault: tree shape cgroup 2";

const BAD_ENTRY: &str = "fault: tree bad-entry cgroup 2";

const NO_PROCESS: &str = "fault: tree shape process 1";

/// An entry of a cgroup, its keys, what is said of them in format 1, and what in formats 2 and 4.
const KEYS: [(&str, &str, &str, &str); 15] = [
    ("dir", "gid = 0", SHAPE, READ),
    ("dir", "gid = 4294967295", SHAPE, READ),
    ("dir", "gid = 4294967296", SHAPE, BAD_ENTRY),
    ("dir", "gid = -1", SHAPE, BAD_ENTRY),
    ("dir", "gid = '0'", SHAPE, SHAPE),
    ("'cgroup.procs'", "gid = 5", SHAPE, READ),
    ("'cgroup.subtree_control'", "gid = 5", SHAPE, READ),
    ("'cpu.weight'", "gid = 5", SHAPE, READ),
    ("'cpu.weight'", "gid = -1", SHAPE, BAD_ENTRY),
    ("dir", "mode = 0o020", BAD_ENTRY, READ),
    ("dir", "mode = 0o777", BAD_ENTRY, READ),
    ("dir", "mode = 0o1000", BAD_ENTRY, BAD_ENTRY),
    ("'cgroup.subtree_control'", "mode = 0o664", BAD_ENTRY, READ),
    ("'cgroup.max.depth'", "mode = 0o664", BAD_ENTRY, READ),
    ("dir", "mode = 0o757", READ, READ),
];

#[test]
fn keys_of_each_format(rt: HostRuntime) -> Result<(), Fail> {
    for (name, keys, first, second) in KEYS {
        let keys = entry_keys(rt.alloc(), name, keys)?;
        let keys = keys.as_str();
        expect_keys(&rt, rt.alloc(), keys, first)?;
        for top in [TOP_2, TOP_4] {
            expect(&rt, rt.alloc(), Parts { top, keys, ..BASE }, second)?;
        }
    }
    let rest = "[[process]]\npid = 7\nuid = 0\ngid = 0\nat = '/a'";
    for top in [BASE.top, TOP_2, TOP_4] {
        expect(&rt, rt.alloc(), Parts { top, rest, ..BASE }, NO_PROCESS)?;
    }
    Ok(())
}

#[test]
fn a_group_is_kept(rt: HostRuntime) -> Result<(), Fail> {
    let keys =
        "dir = { gid = 4294967295, mode = 0o775 }\nfiles = { 'cgroup.procs' = { uid = 3, gid = 5, mode = 0o020 } }";
    let dir = Entry {
        uid: 0,
        gid: 4294967295,
        mode: 0o775,
    };
    let procs = Entry {
        uid: 3,
        gid: 5,
        mode: 0o020,
    };
    for top in [TOP_2, TOP_4] {
        let cgroup = cgroup_of(rt.alloc(), Parts { top, keys, ..BASE })?;
        assert_eq!(rt; cgroup.dir, dir);
        assert_eq!(rt; cgroup.procs, procs);
    }
    Ok(())
}

/// Process 10 of the delegation example to `/c0/c00`.
const TO_C00: Asked<'static> = Asked {
    gids: &[],
    pid: 10,
    to: "/c0/c00",
};

const GROUP_WRITES: &str = "gid = 50, mode = 0o664";

const OTHERS_WRITE: &str = "gid = 50, mode = 0o646";

const NO_ACCESS: &str = "refused no-access / cgroup.procs";

#[test]
fn the_first_class_decides(rt: HostRuntime) -> Result<(), Fail> {
    for (entry, gids, line) in [
        (GROUP_WRITES, [].as_slice(), NO_ACCESS),
        (GROUP_WRITES, [7].as_slice(), NO_ACCESS),
        (GROUP_WRITES, [50].as_slice(), "granted"),
        (GROUP_WRITES, [7, 50].as_slice(), "granted"),
        (OTHERS_WRITE, [].as_slice(), "granted"),
        (OTHERS_WRITE, [7].as_slice(), "granted"),
        (OTHERS_WRITE, [50].as_slice(), NO_ACCESS),
        (OTHERS_WRITE, [7, 50].as_slice(), NO_ACCESS),
        (
            "uid = 1000, gid = 50, mode = 0o466",
            [50].as_slice(),
            NO_ACCESS,
        ),
        (
            "uid = 1000, gid = 50, mode = 0o200",
            [50].as_slice(),
            "granted",
        ),
    ] {
        let root = format!(in rt.alloc();
            "path = \"/\"\nfiles = {{ \"cgroup.procs\" = {{ {entry} }} }}"
        )?;
        let changes = [FORMAT_2, ("path = \"/\"", root.as_str())];
        let text = delegation_with(rt.alloc(), &changes)?;
        let asked = Asked { gids, ..TO_C00 };
        expect_line(&rt, rt.alloc(), text.as_bytes(), asked, line)?;
    }
    Ok(())
}

#[test]
fn every_gid_of_format_1_is_0(rt: HostRuntime) -> Result<(), Fail> {
    let root = "path = \"/\"\nfiles = { \"cgroup.procs\" = { mode = 0o646 } }";
    let text = delegation_with(rt.alloc(), &[("path = \"/\"", root)])?;
    for (gids, line) in [
        ([].as_slice(), "granted"),
        ([5].as_slice(), "granted"),
        ([5, 0].as_slice(), NO_ACCESS),
    ] {
        let asked = Asked { gids, ..TO_C00 };
        expect_line(&rt, rt.alloc(), text.as_bytes(), asked, line)?;
    }
    Ok(())
}
