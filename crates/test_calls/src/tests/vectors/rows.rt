//! Paths of cgroups, and what they enable.
use super::{
    Asked, BASE, Parts, READ, TO_A, expect, expect_keys, expect_line, expect_path, expect_rest,
    repeated, text_of,
};
use std::alloc::{AllocError, Global};
use std::process::Abort;
use std::test::Fail;

const BAD_PATH: &str = "fault: tree bad-path cgroup 2";

const BAD_PATHS: [&str; 12] = [
    "/cgroup.procs",
    "/a/",
    "//a",
    "/.",
    "/..",
    "a",
    "",
    "/a b",
    "/\u{e9}",
    "/a/cpu.weight/b",
    "/\\u007f",
    "/\\n",
];

#[test]
fn paths_that_are_none(rt: HostRuntime) -> Result<(), Fail> {
    for path in BAD_PATHS {
        expect_path(&rt, rt.alloc(), path, BAD_PATH)?;
    }
    Ok(())
}

/// The base text with another path of `/a`.
fn text_with(alloc: Global, path: &str) -> Result<String, AllocError> {
    text_of(alloc, Parts { path, ..BASE })
}

/// Fails where a text that has the path isn't read, or where its cgroup isn't found.
fn expect_found(rt: &impl Abort, alloc: Global, text: &str, path: &str) -> Result<(), Fail> {
    let asked = Asked { to: path, ..TO_A };
    let line = format!(in alloc; "refused no-access {path} cgroup.procs")?;
    expect_line(rt, alloc, text.as_bytes(), asked, line.as_str())
}

#[test]
fn paths_of_dots_and_escapes(rt: HostRuntime) -> Result<(), Fail> {
    for (written, path) in [
        ("/...", "/..."),
        ("/a.b", "/a.b"),
        ("/\\u0061!~", "/a!~"),
        ("/cpu.max", "/cpu.max"),
    ] {
        let text = text_with(rt.alloc(), written)?;
        expect_found(&rt, rt.alloc(), text.as_str(), path)?;
    }
    Ok(())
}

#[test]
fn the_longest_name(rt: HostRuntime) -> Result<(), Fail> {
    let mut path = repeated(rt.alloc(), "n", 254)?;
    path = format!(in rt.alloc(); "/{path}n")?;
    let text = text_with(rt.alloc(), path.as_str())?;
    expect_found(&rt, rt.alloc(), text.as_str(), path.as_str())?;
    path.push('n')?;
    expect_path(&rt, rt.alloc(), path.as_str(), BAD_PATH)
}

/// A chain of 15 cgroups with names of 255 bytes: the path of the last, and the text with a root above them.
fn chain(alloc: Global) -> Result<(String, String), AllocError> {
    let name = repeated(alloc, "n", 255)?;
    let mut path = String::new(alloc);
    let mut text = String::from_str(
        alloc,
        "format = 1\ncontrollers = []\n[[cgroup]]\npath = \"/\"\n",
    )?;
    for _ in 0..15 {
        path = format!(in alloc; "{path}/{name}")?;
        text = format!(in alloc; "{text}[[cgroup]]\npath = \"{path}\"\n")?;
    }
    Ok((path, text))
}

#[test]
fn the_longest_path(rt: HostRuntime) -> Result<(), Fail> {
    let (above, text) = chain(rt.alloc())?;
    let last = repeated(rt.alloc(), "n", 254)?;
    let path = format!(in rt.alloc(); "{above}/{last}")?;
    assert_eq!(rt; path.len(), 4095);
    let whole = format!(in rt.alloc(); "{text}[[cgroup]]\npath = \"{path}\"\n")?;
    expect_found(&rt, rt.alloc(), whole.as_str(), path.as_str())?;
    let longer = format!(in rt.alloc(); "{text}[[cgroup]]\npath = \"{path}n\"\n")?;
    let line = "fault: tree bad-path cgroup 17";
    expect_line(&rt, rt.alloc(), longer.as_bytes(), TO_A, line)
}

#[test]
fn rows_that_do_not_go_together(rt: HostRuntime) -> Result<(), Fail> {
    for (rest, line) in [
        ("[[cgroup]]\npath = '/a'", "fault: tree duplicate cgroup 3"),
        ("[[cgroup]]\npath = '/'", "fault: tree duplicate cgroup 3"),
        (
            "[[cgroup]]\npath = '/b/c'",
            "fault: tree no-parent cgroup 3",
        ),
        ("[[cgroup]]\npath = '/aa'", READ),
        (
            "[[cgroup]]\npath = '/a/b/c'\n[[cgroup]]\npath = '/a/b'",
            READ,
        ),
    ] {
        expect_rest(&rt, rt.alloc(), rest, line)?;
    }
    Ok(())
}

const BAD_CONTROLLER: &str = "fault: tree bad-controller cgroup 2";

const TOP_DOWN: &str = "fault: tree top-down cgroup 2";

#[test]
fn what_cgroups_enable(rt: HostRuntime) -> Result<(), Fail> {
    for (line, texts) in [
        (READ, ["['cpu']", "['cpu', 'cpu']", "[]"].as_slice()),
        (BAD_CONTROLLER, &["['io']", "['Cpu']", "['cpu', '']"]),
        (TOP_DOWN, &["['memory']", "['cpu', 'pids']"]),
    ] {
        for enabled in texts {
            let keys = format!(in rt.alloc(); "enabled = {enabled}")?;
            expect_keys(&rt, rt.alloc(), keys.as_str(), line)?;
        }
    }
    Ok(())
}

/// In format 4.
#[test]
fn what_else_cgroups_enable(rt: HostRuntime) -> Result<(), Fail> {
    let top = "format = 4\ncontrollers = [\"io\", \"cpu\", \"dmem\"]";
    for (line, texts) in [
        (READ, ["['cpu']", "['cpu', 'cpu']", "[]"].as_slice()),
        (BAD_CONTROLLER, &["['IO']", "['cpu', 'perf_event']", "['']"]),
        (
            TOP_DOWN,
            &["['io']", "['cpu', 'dmem']", "['rdma']", "['memory']"],
        ),
    ] {
        for enabled in texts {
            let keys = format!(in rt.alloc(); "enabled = {enabled}")?;
            let keys = keys.as_str();
            expect(&rt, rt.alloc(), Parts { top, keys, ..BASE }, line)?;
        }
    }
    Ok(())
}

/// A root that has and enables all nine controllers, one that enables them by turns, and what is in it.
const NINE: &str = "format = 4
controllers = ['dmem', 'misc', 'rdma', 'pids', 'hugetlb', 'memory', 'io', 'cpu', 'cpuset', 'io']
[[cgroup]]
path = '/'
enabled = ['misc', 'cpuset', 'io', 'hugetlb', 'rdma', 'cpu', 'memory', 'dmem', 'pids', 'misc']
[[cgroup]]
path = '/in'
enabled = ['dmem', 'hugetlb', 'cpuset']
[[cgroup]]
path = '/a'
files.'memory.max'.value = 5
files.'cpu.weight'.value = 7
files.'pids.max'.value = 9
";

/// What stands behind the rows of all nine controllers, and what is said of it.
const BEHIND_NINE: [(&str, &str); 11] = [
    ("", READ),
    ("[[cgroup]]\npath = '/in/io'\nenabled = ['dmem']", READ),
    ("[[cgroup]]\npath = '/io.max'", READ),
    (
        "[[cgroup]]\npath = '/in/io'\nenabled = ['io']",
        "fault: tree top-down cgroup 4",
    ),
    (
        "[[cgroup]]\npath = '/in/io'\nfiles.'memory.max'.value = 5",
        "fault: tree no-such-file cgroup 4",
    ),
    (
        "[[cgroup]]\npath = '/in/io'\nfiles.'io.max'.uid = 5",
        "fault: tree no-such-file cgroup 4",
    ),
    (
        "[[cgroup]]\npath = '/in/io'\nfiles.'io.maximum'.uid = 5",
        "fault: tree shape cgroup 4",
    ),
    (
        "[[cgroup]]\npath = '/in/io'\nfiles.'cgroup.freeze'.value = ['0', '0']",
        READ,
    ),
    (
        "[[cgroup]]\npath = '/in/io'\nfiles.'cgroup.freeze'.value = '0  0'",
        "fault: tree bad-value cgroup 4",
    ),
    (
        "[[cgroup]]\npath = '/memory.max'",
        "fault: tree bad-path cgroup 4",
    ),
    (
        "[[process]]\npid = 1\nuid = 0\nat = '/in'",
        "fault: tree internal-process process 1",
    ),
];

#[test]
fn all_nine_controllers(rt: HostRuntime) -> Result<(), Fail> {
    for (rest, line) in BEHIND_NINE {
        let text = format!(in rt.alloc(); "{NINE}{rest}\n")?;
        expect_line(&rt, rt.alloc(), text.as_bytes(), TO_A, line)?;
    }
    Ok(())
}

const NO_CONTROLLER: &str = "fault: tree bad-controller top";

#[test]
fn what_the_root_has(rt: HostRuntime) -> Result<(), Fail> {
    for (line, texts) in [
        (NO_CONTROLLER, ["['io']", "['cpu', 'io']"].as_slice()),
        (
            "fault: tree top-down cgroup 1",
            &["[]", "['memory', 'pids']"],
        ),
        (READ, &["['pids', 'cpu', 'memory', 'cpu']"]),
    ] {
        for controllers in texts {
            let top = format!(in rt.alloc(); "format = 1\ncontrollers = {controllers}")?;
            let parts = Parts {
                top: top.as_str(),
                ..BASE
            };
            expect(&rt, rt.alloc(), parts, line)?;
        }
    }
    Ok(())
}
