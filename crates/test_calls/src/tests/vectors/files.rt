//! Owners, modes and values of a cgroup's directory and files.
use super::{BASE, Parts, READ, cgroup_of, entry_keys, expect, expect_keys, file_keys};
use cg_cgroup::files::{Limit, LimitFile};
use cg_cgroup::user::Entry;
use std::test::Fail;

const BAD_VALUE: &str = "fault: tree bad-value cgroup 2";

const BAD_ENTRY: &str = "fault: tree bad-entry cgroup 2";

const NO_FILE: &str = "fault: tree no-such-file cgroup 2";

const SHAPE: &str = "fault: tree shape cgroup 2";

/// A file as a key, what stands in its table, and what is said.
const FILES: [(&str, &str, &str); 29] = [
    ("'cpu.weight'", "value = 10000", READ),
    ("'cpu.weight'", "value = 1", READ),
    ("'cpu.weight'", "value = 10001", BAD_VALUE),
    ("'cpu.weight'", "value = 0", BAD_VALUE),
    ("'cpu.weight'", "value = -1", BAD_VALUE),
    ("'cpu.weight'", "value = 'max'", BAD_VALUE),
    ("'cpu.weight'", "value = 'Max'", BAD_VALUE),
    (
        "'cpu.weight'",
        "value = 9223372036854775808",
        "fault: tree not-toml",
    ),
    ("'cpu.weight'", "value = 1.0", SHAPE),
    ("'cpu.weight'", "value = true", SHAPE),
    ("'cgroup.max.depth'", "value = 9223372036854775807", READ),
    ("'cgroup.max.depth'", "value = 0", READ),
    ("'cgroup.max.depth'", "value = 'max'", READ),
    ("'cgroup.max.depth'", "value = -1", BAD_VALUE),
    ("'cgroup.max.depth'", "value = 'Max'", BAD_VALUE),
    ("'cgroup.max.depth'", "value = '0'", BAD_VALUE),
    ("'cgroup.max.depth'", "value = ''", BAD_VALUE),
    ("'cgroup.max.depth'", "value = []", SHAPE),
    ("cpu.weight", "value = 1", SHAPE),
    ("'cgroup.procs'", "value = 1", SHAPE),
    ("'cgroup.subtree_control'", "value = 1", SHAPE),
    ("'cgroup.procs'", "uid = 1, mode = 0o600", READ),
    ("'cgroup.controllers'", "", SHAPE),
    ("dir", "", SHAPE),
    ("'memory.max'", "", NO_FILE),
    ("'pids.max'", "uid = 1000", NO_FILE),
    ("'cpu.weight'", "", READ),
    ("'cpu.weight'", "uid = 1, mode = 0o600, value = 7", READ),
    ("'cpu.weight'", "owner = 1", SHAPE),
];

#[test]
fn files_that_may_be_named_and_their_values(rt: HostRuntime) -> Result<(), Fail> {
    for (name, keys, line) in FILES {
        let keys = file_keys(rt.alloc(), name, keys)?;
        expect_keys(&rt, rt.alloc(), keys.as_str(), line)?;
    }
    let root = "files = { 'cpu.weight' = {} }";
    let line = "fault: tree no-such-file cgroup 1";
    expect(&rt, rt.alloc(), Parts { root, ..BASE }, line)
}

/// A file and its name, what a text says of it, and its value.
const KEPT: [(LimitFile, &str, &str, Limit); 5] = [
    (
        LimitFile::CpuWeight,
        "'cpu.weight'",
        "value = 10000",
        Limit::At(10000),
    ),
    (LimitFile::CpuWeight, "'cpu.weight'", "", Limit::At(100)),
    (
        LimitFile::MaxDepth,
        "'cgroup.max.depth'",
        "value = 0",
        Limit::At(0),
    ),
    (
        LimitFile::MaxDescendants,
        "'cgroup.max.descendants'",
        "value = 'max'",
        Limit::Max,
    ),
    (
        LimitFile::MaxDescendants,
        "'cgroup.max.descendants'",
        "value = 9223372036854775807",
        Limit::At(9223372036854775807),
    ),
];

#[test]
fn a_value_is_kept(rt: HostRuntime) -> Result<(), Fail> {
    for (file, name, value, wanted) in KEPT {
        let keys = file_keys(rt.alloc(), name, value)?;
        let keys = keys.as_str();
        let cgroup = cgroup_of(rt.alloc(), Parts { keys, ..BASE })?;
        assert_eq!(rt; cgroup.limit(file), Some(wanted));
    }
    Ok(())
}

#[test]
fn owners_and_modes(rt: HostRuntime) -> Result<(), Fail> {
    let bad = [
        "uid = 4294967296",
        "uid = -1",
        "mode = 0o1000",
        "mode = 0o020",
        "mode = -1",
        "mode = 0o777",
    ];
    for (line, entries) in [
        (
            READ,
            ["uid = 4294967295", "mode = 0o757", "mode = 0", ""].as_slice(),
        ),
        (BAD_ENTRY, &bad),
        (SHAPE, &["mode = '0o755'", "uid = 0.0", "gid = 0"]),
    ] {
        for entry in entries {
            for name in ["dir", "'cpu.weight'"] {
                let keys = entry_keys(rt.alloc(), name, entry)?;
                expect_keys(&rt, rt.alloc(), keys.as_str(), line)?;
            }
        }
    }
    Ok(())
}

#[test]
fn an_owner_and_a_mode_are_kept(rt: HostRuntime) -> Result<(), Fail> {
    let keys = "dir = { uid = 4294967295, mode = 0o757 }";
    let cgroup = cgroup_of(rt.alloc(), Parts { keys, ..BASE })?;
    let wanted = Entry {
        uid: 4294967295,
        gid: 0,
        mode: 0o757,
    };
    assert_eq!(rt; cgroup.dir, wanted);
    Ok(())
}
