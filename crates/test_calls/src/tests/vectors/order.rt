//! Texts with two faults, and the one that is said.
use super::{BASE, Parts, TO_A, expect, expect_line, expect_lines, repeated, text_of};
use std::test::Fail;

const IO: &str = "format = 1\ncontrollers = ['io']";

#[test]
fn length_then_form_then_the_top_table(rt: HostRuntime) -> Result<(), Fail> {
    let mut text = Vec::new(rt.alloc());
    text.resize(16777217, b'=')?;
    expect_line(
        &rt,
        rt.alloc(),
        text.as_slice(),
        TO_A,
        "fault: tree too-long",
    )?;
    let texts = [
        ("x = 1\n=", "fault: tree not-toml"),
        (
            "format = 3\ncontrollers = []\nx = 1",
            "fault: tree shape top",
        ),
        (
            "format = 1\ncontrollers = [1]\ncgroup = [1]",
            "fault: tree shape top",
        ),
        (
            "format = 3\ncontrollers = []\ncgroup = [1]",
            "fault: tree format",
        ),
    ];
    expect_lines(&rt, rt.alloc(), &texts)
}

#[test]
fn format_then_number_then_shape(rt: HostRuntime) -> Result<(), Fail> {
    let elements = repeated(rt.alloc(), "1, ", 4097)?;
    for (top, line) in [
        ("format = 3\ncontrollers = []\ncgroup", "fault: tree format"),
        (
            "format = 1\ncontrollers = []\ncgroup",
            "fault: tree too-many",
        ),
        (
            "format = 1\ncontrollers = []\nprocess",
            "fault: tree too-many",
        ),
        (
            "format = 1\ncontrollers = []\ncgroup = [1]\nprocess",
            "fault: tree too-many",
        ),
    ] {
        let text = format!(in rt.alloc(); "{top} = [{elements}]")?;
        expect_line(&rt, rt.alloc(), text.as_bytes(), TO_A, line)?;
    }
    Ok(())
}

/// What stands in the base text, and what is said of it.
const SHAPES: [(Parts<'static>, &str); 5] = [
    (
        Parts {
            keys: "x = 1",
            rest: "[[process]]",
            ..BASE
        },
        "fault: tree shape cgroup 2",
    ),
    (
        Parts {
            rest: "[[process]]\n[[cgroup]]",
            ..BASE
        },
        "fault: tree shape cgroup 3",
    ),
    (
        Parts {
            root: "x = 1",
            keys: "x = 1",
            ..BASE
        },
        "fault: tree shape cgroup 1",
    ),
    (
        Parts {
            top: IO,
            rest: "[[process]]",
            ..BASE
        },
        "fault: tree shape process 1",
    ),
    (
        Parts {
            top: IO,
            path: "a",
            ..BASE
        },
        "fault: tree bad-controller top",
    ),
];

#[test]
fn shapes_then_controllers_then_rows(rt: HostRuntime) -> Result<(), Fail> {
    for (parts, line) in SHAPES {
        expect(&rt, rt.alloc(), parts, line)?;
    }
    Ok(())
}

const BAD_MODE: &str = "dir = { mode = 0o020 }";

const BAD_VALUE: &str = "files = { 'memory.max' = { value = -1 } }";

/// Further keys of the root, the path and the keys of the other cgroup, and what is said.
const ROWS: [(&str, &str, &str, &str); 7] = [
    (BAD_MODE, "a", "", "fault: tree bad-entry cgroup 1"),
    (BAD_VALUE, "a", "", "fault: tree bad-value cgroup 1"),
    ("", "a", "enabled = ['io']", "fault: tree bad-path cgroup 2"),
    (
        "",
        "/a",
        "enabled = ['io']\ndir = { uid = -1 }",
        "fault: tree bad-controller cgroup 2",
    ),
    (
        "",
        "/a",
        "dir = { uid = -1 }\nfiles = { 'memory.max' = { value = -1 } }",
        "fault: tree bad-entry cgroup 2",
    ),
    (
        "",
        "/a",
        "files = { 'memory.max' = { value = -1 }, 'pids.max' = { mode = -1 } }",
        "fault: tree bad-entry cgroup 2",
    ),
    ("", "/", BAD_VALUE, "fault: tree bad-value cgroup 2"),
];

#[test]
fn within_rows(rt: HostRuntime) -> Result<(), Fail> {
    for (root, path, keys, line) in ROWS {
        let parts = Parts {
            root,
            path,
            keys,
            ..BASE
        };
        expect(&rt, rt.alloc(), parts, line)?;
    }
    Ok(())
}

/// All rows, and what is said.
const TOGETHER: [(&str, &str); 9] = [
    (
        "{ path = '/a' }, { path = '/a' }, { path = 'a' }",
        "fault: tree bad-path cgroup 3",
    ),
    (
        "{ path = '/a' }, { path = '/a' }",
        "fault: tree duplicate cgroup 2",
    ),
    (
        "{ path = '/b' }, { path = '/' }, { path = '/b' }, { path = '/' }",
        "fault: tree duplicate cgroup 3",
    ),
    ("{ path = '/a/b' }", "fault: tree no-root"),
    (
        "{ path = '/' }, { path = '/b/c' }, { path = '/a/b' }",
        "fault: tree no-parent cgroup 2",
    ),
    (
        "{ path = '/' }, { path = '/b', enabled = ['cpu'] }, { path = '/a/b' }",
        "fault: tree no-parent cgroup 3",
    ),
    (
        "{ path = '/' }, { path = '/b', enabled = ['cpu'] }, { path = '/a', enabled = ['cpu'] }",
        "fault: tree top-down cgroup 2",
    ),
    (
        "{ path = '/' }, { path = '/b', files = { 'cpu.weight' = {} } }, { path = '/a', enabled = ['cpu'] }",
        "fault: tree top-down cgroup 3",
    ),
    (
        "{ path = '/' }, { path = '/b', files = { 'cpu.weight' = {} } }, { path = '/a', files = { 'pids.max' = {} } }",
        "fault: tree no-such-file cgroup 2",
    ),
];

/// The processes beside a cgroup `/a` that enables `cpu`, and what is said.
const PROCESSES: [(&str, &str); 7] = [
    (
        "{ pid = 0, uid = -1, at = 'zz' }",
        "fault: tree bad-pid process 1",
    ),
    (
        "{ pid = 5, uid = 0, at = '/' }, { pid = 5, uid = -1, at = 'zz' }",
        "fault: tree bad-entry process 2",
    ),
    (
        "{ pid = 5, uid = 0, at = '/' }, { pid = 5, uid = 0, at = 'zz' }",
        "fault: tree duplicate-pid process 2",
    ),
    (
        "{ pid = 5, uid = 0, at = '/' }, { pid = 5, uid = 0, at = '/a' }",
        "fault: tree duplicate-pid process 2",
    ),
    (
        "{ pid = 6, uid = 0, at = '/a' }, { pid = 0, uid = 0, at = '/' }",
        "fault: tree internal-process process 1",
    ),
    (
        "{ pid = 6, uid = 0, at = '/zz' }, { pid = 0, uid = 0, at = '/' }",
        "fault: tree no-such-place process 1",
    ),
    (
        "{ pid = 6, uid = 0, at = '/' }, { pid = 5, uid = 0, at = '/zz' }, { pid = 6, uid = 0, at = '/' }",
        "fault: tree no-such-place process 2",
    ),
];

#[test]
fn rows_together(rt: HostRuntime) -> Result<(), Fail> {
    for (rows, line) in TOGETHER {
        let text = format!(in rt.alloc(); "format = 1\ncontrollers = ['cpu']\ncgroup = [{rows}]")?;
        expect_line(&rt, rt.alloc(), text.as_bytes(), TO_A, line)?;
    }
    Ok(())
}

#[test]
fn rows_then_processes(rt: HostRuntime) -> Result<(), Fail> {
    let parts = Parts {
        keys: "files = { 'memory.max' = {} }",
        rest: "[[process]]\npid = 0\nuid = 0\nat = '/a'",
        ..BASE
    };
    expect(&rt, rt.alloc(), parts, "fault: tree no-such-file cgroup 2")
}

#[test]
fn within_processes(rt: HostRuntime) -> Result<(), Fail> {
    for (processes, line) in PROCESSES {
        let top = format!(in rt.alloc();
            "format = 1\ncontrollers = ['cpu']\nprocess = [{processes}]"
        )?;
        let parts = Parts {
            top: top.as_str(),
            keys: "enabled = ['cpu']",
            ..BASE
        };
        expect(&rt, rt.alloc(), parts, line)?;
    }
    Ok(())
}
