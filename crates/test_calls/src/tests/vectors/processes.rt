//! Processes of a tree text.
use super::{Asked, BASE, Parts, READ, TO_A, expect_line, expect_rest, text_of};
use cg_cgroup::process::Pid;
use cg_model::hierarchy::Hierarchy;
use cg_text::tree::read_tree;
use std::alloc::{AllocError, Global};
use std::test::Fail;

fn process(alloc: Global, pid: &str, uid: &str, at: &str) -> Result<String, AllocError> {
    format!(in alloc; "[[process]]\npid = {pid}\nuid = {uid}\nat = {at}\n")
}

const BAD_PID: &str = "fault: tree bad-pid process 1";

const BAD_ENTRY: &str = "fault: tree bad-entry process 1";

const NO_PLACE: &str = "fault: tree no-such-place process 1";

const SHAPE: &str = "fault: tree shape process 1";

/// `pid`, `uid` and `at` of one process, and what is said.
const ALONE: [(&str, &str, &str, &str); 16] = [
    ("4194303", "4294967295", "'/a'", READ),
    ("1", "0", "'/'", READ),
    ("0", "4294967295", "'/a'", BAD_PID),
    ("4194304", "4294967295", "'/a'", BAD_PID),
    ("-1", "4294967295", "'/a'", BAD_PID),
    ("4294967297", "0", "'/a'", BAD_PID),
    ("7", "4294967296", "'/a'", BAD_ENTRY),
    ("7", "-1", "'/a'", BAD_ENTRY),
    ("7", "0", "'/zz'", NO_PLACE),
    ("7", "0", "'zz'", NO_PLACE),
    ("7", "0", "''", NO_PLACE),
    ("7", "0", "'/a/cgroup.procs'", NO_PLACE),
    ("'7'", "0", "'/a'", SHAPE),
    ("7", "0.0", "'/a'", SHAPE),
    ("7", "0", "0", SHAPE),
    ("7", "0", "'/a'\ngid = 0", SHAPE),
];

#[test]
fn processes_alone(rt: HostRuntime) -> Result<(), Fail> {
    for (pid, uid, at, line) in ALONE {
        let rest = process(rt.alloc(), pid, uid, at)?;
        expect_rest(&rt, rt.alloc(), rest.as_str(), line)?;
    }
    Ok(())
}

#[test]
fn keys_that_are_missing(rt: HostRuntime) -> Result<(), Fail> {
    for rest in [
        "[[process]]\npid = 4194303\nuid = 4294967295",
        "[[process]]\npid = 4194303\nat = '/a'",
        "[[process]]\nuid = 4294967295\nat = '/a'",
        "[[process]]",
    ] {
        expect_rest(&rt, rt.alloc(), rest, SHAPE)?;
    }
    Ok(())
}

#[test]
fn a_process_twice(rt: HostRuntime) -> Result<(), Fail> {
    let one = process(rt.alloc(), "4194303", "4294967295", "'/a'")?;
    let rest = format!(in rt.alloc(); "{one}{one}")?;
    let line = "fault: tree duplicate-pid process 2";
    expect_rest(&rt, rt.alloc(), rest.as_str(), line)?;
    let other = process(rt.alloc(), "4194302", "4294967295", "'/a'")?;
    let rest = format!(in rt.alloc(); "{one}{other}")?;
    expect_rest(&rt, rt.alloc(), rest.as_str(), READ)
}

#[test]
fn a_process_where_a_controller_is_enabled(rt: HostRuntime) -> Result<(), Fail> {
    for (at, line) in [
        ("'/a'", "fault: tree internal-process process 1"),
        ("'/'", READ),
    ] {
        let rest = process(rt.alloc(), "4194303", "4294967295", at)?;
        let rest = format!(in rt.alloc(); "enabled = ['cpu']\n{rest}")?;
        expect_rest(&rt, rt.alloc(), rest.as_str(), line)?;
    }
    Ok(())
}

#[test]
fn a_process_is_kept(rt: HostRuntime) -> Result<(), Fail> {
    let alloc = rt.alloc();
    let rest = process(alloc, "4194303", "4294967295", "'/a'")?;
    let rest = rest.as_str();
    let text = text_of(alloc, Parts { rest, ..BASE })?;
    let tree = read_tree(alloc, text.as_bytes())?;
    let pid = Pid::new(4194303).ok_or("a PID")?;
    assert_eq!(rt; tree.owner(pid), Some(4294967295));
    assert_eq!(rt;
        tree.place(pid).map(|place| place.prefix(place.depth())),
        Some("/a")
    );
    assert!(rt; tree.is_used(pid));
    assert_eq!(rt; tree.pids(alloc)?.as_slice(), [pid].as_slice());
    Ok(())
}

#[test]
fn a_process_is_moved(rt: HostRuntime) -> Result<(), Fail> {
    let rest = process(rt.alloc(), "4194303", "4294967295", "'/a'")?;
    let parts = Parts {
        root: "files = { 'cgroup.procs' = { mode = 0o646 } }",
        rest: rest.as_str(),
        ..BASE
    };
    let text = text_of(rt.alloc(), parts)?;
    for (pid, to, line) in [
        (4194303, "/", "granted"),
        (4194303, "/a", "refused no-access /a cgroup.procs"),
        (4194302, "/", "refused no-such-process 4194302"),
        (4194303, "/b", "refused no-such-cgroup /b"),
    ] {
        let asked = Asked { pid, to, ..TO_A };
        expect_line(&rt, rt.alloc(), text.as_bytes(), asked, line)?;
    }
    Ok(())
}
