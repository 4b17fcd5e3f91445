//! The top table, the form of the text, and how much it may hold.
use super::{
    Asked, BASE, Parts, READ, TO_A, expect_keys, expect_line, expect_lines, repeated, text_of,
};
use cg_cgroup::process::Pid;
use cg_model::hierarchy::Hierarchy;
use cg_text::tree::read_tree;
use std::alloc::{AllocError, Global};
use std::test::Fail;

const SHAPE: &str = "fault: tree shape top";

const TOO_MANY: &str = "fault: tree too-many";

const NO_ROOT: &str = "fault: tree no-root";

/// Texts, and what is said.
const TEXTS: [(&str, &str); 27] = [
    ("", SHAPE),
    ("format = 1", SHAPE),
    ("controllers = []", SHAPE),
    ("format = 1.0\ncontrollers = []", SHAPE),
    ("format = '1'\ncontrollers = []", SHAPE),
    ("format = 1\ncontrollers = 'cpu'", SHAPE),
    ("format = 1\ncontrollers = [1]", SHAPE),
    ("format = 1\ncontrollers = []\ncgroup = 1", SHAPE),
    ("format = 1\ncontrollers = []\n[cgroup]\npath = '/'", SHAPE),
    ("format = 1\ncontrollers = []\nprocess = {}", SHAPE),
    ("format = 3\ncontrollers = []\nx = 1", SHAPE),
    ("format = 3\ncontrollers = []", "fault: tree format"),
    ("format = 0\ncontrollers = []", "fault: tree format"),
    ("format = -1\ncontrollers = []", "fault: tree format"),
    ("format = 5\ncontrollers = []", "fault: tree format"),
    ("format = 44\ncontrollers = ['io']", "fault: tree format"),
    ("format = 5\ncontrollers = []\ncgroup = 1", SHAPE),
    ("format = 1\ncontrollers = []", NO_ROOT),
    ("format = 2\ncontrollers = []", NO_ROOT),
    ("format = 4\ncontrollers = []", NO_ROOT),
    ("format = 0x4\ncontrollers = ['dmem', 'io']", NO_ROOT),
    ("format = 4\ncontrollers = []\nx = 1", SHAPE),
    (
        "format = 4\ncontrollers = ['io']\ncgroup = [{ path = '/a' }, { path = '/' }]",
        READ,
    ),
    (
        "format = 1\ncontrollers = []\ncgroup = []\nprocess = []",
        NO_ROOT,
    ),
    (
        "format = 1\ncontrollers = []\ncgroup = [{ path = '/a' }, { path = '/' }]",
        READ,
    ),
    (
        "format = 1\ncontrollers = []\ncgroup = [1]",
        "fault: tree shape cgroup 1",
    ),
    (
        "format = 1\ncontrollers = []\nprocess = [1]",
        "fault: tree shape process 1",
    ),
];

#[test]
fn keys_of_the_top_table(rt: HostRuntime) -> Result<(), Fail> {
    expect_lines(&rt, rt.alloc(), &TEXTS)
}

#[test]
fn bytes_that_are_no_document(rt: HostRuntime) -> Result<(), Fail> {
    for text in [
        b"\xff".as_slice(),
        b"format".as_slice(),
        b"format = 1\nformat = 1".as_slice(),
        b"format = 9223372036854775808".as_slice(),
        b"format = 1\r".as_slice(),
        b"format = 1 controllers = []".as_slice(),
        b"controllers = ['\xc3']".as_slice(),
        b"\0".as_slice(),
    ] {
        expect_line(&rt, rt.alloc(), text, TO_A, "fault: tree not-toml")?;
    }
    expect_keys(&rt, rt.alloc(), "path = '/a'", "fault: tree not-toml")
}

#[test]
fn rows_of_nothing(rt: HostRuntime) -> Result<(), Fail> {
    for (format, count, line) in [
        (1, 4096, "fault: tree shape cgroup 1"),
        (1, 4097, TOO_MANY),
        (2, 4097, TOO_MANY),
        (4, 4097, "fault: tree shape cgroup 1"),
    ] {
        let rows = repeated(rt.alloc(), "[[cgroup]]\n", count)?;
        let text = format!(in rt.alloc(); "format = {format}\ncontrollers = []\n{rows}")?;
        expect_line(&rt, rt.alloc(), text.as_bytes(), TO_A, line)?;
    }
    Ok(())
}

/// The base text in format 4.
const BASE_OF_4: Parts<'static> = Parts {
    top: "format = 4\ncontrollers = [\"cpu\"]",
    ..BASE
};

/// A text, and below it as many rows as make `count` cgroups.
fn with_cgroups(alloc: Global, parts: Parts<'_>, count: usize) -> Result<String, AllocError> {
    let mut text = text_of(alloc, parts)?;
    for number in 2..count {
        let row = format!(in alloc; "[[cgroup]]\npath = '/r{number}'\n")?;
        text.push_str(row.as_str())?;
    }
    Ok(text)
}

/// A text with processes 1 to `count` at `/a`.
fn with_processes(alloc: Global, parts: Parts<'_>, count: usize) -> Result<String, AllocError> {
    let mut text = text_of(alloc, parts)?;
    for pid in 1..=count {
        let row = format!(in alloc; "[[process]]\npid = {pid}\nuid = 1000\nat = '/a'\n")?;
        text.push_str(row.as_str())?;
    }
    Ok(text)
}

#[test]
fn the_most_cgroups(rt: HostRuntime) -> Result<(), Fail> {
    let text = with_cgroups(rt.alloc(), BASE, 4096)?;
    let asked = Asked {
        to: "/r4095",
        ..TO_A
    };
    let line = "refused no-access /r4095 cgroup.procs";
    expect_line(&rt, rt.alloc(), text.as_bytes(), asked, line)?;
    let tree = read_tree(rt.alloc(), text.as_bytes())?;
    assert_eq!(rt; tree.paths(rt.alloc())?.len(), 4096);
    let text = with_cgroups(rt.alloc(), BASE, 4097)?;
    expect_line(&rt, rt.alloc(), text.as_bytes(), asked, TOO_MANY)?;
    let text = with_cgroups(rt.alloc(), BASE_OF_4, 4097)?;
    expect_line(&rt, rt.alloc(), text.as_bytes(), asked, line)
}

#[test]
fn the_most_processes(rt: HostRuntime) -> Result<(), Fail> {
    let text = with_processes(rt.alloc(), BASE, 4096)?;
    expect_line(&rt, rt.alloc(), text.as_bytes(), TO_A, READ)?;
    let tree = read_tree(rt.alloc(), text.as_bytes())?;
    let last = Pid::new(4096).ok_or("a PID")?;
    assert_eq!(rt; tree.owner(last), Some(1000));
    assert_eq!(rt; tree.pids(rt.alloc())?.len(), 4096);
    let text = with_processes(rt.alloc(), BASE, 4097)?;
    expect_line(&rt, rt.alloc(), text.as_bytes(), TO_A, TOO_MANY)?;
    let text = with_processes(rt.alloc(), BASE_OF_4, 4097)?;
    expect_line(&rt, rt.alloc(), text.as_bytes(), TO_A, READ)
}

const TOO_LONG: &str = "fault: tree too-long";

#[test]
fn the_longest_text(rt: HostRuntime) -> Result<(), Fail> {
    let mut text = text_of(rt.alloc(), BASE)?.into_bytes();
    text.resize(16777216, b'\n')?;
    expect_line(&rt, rt.alloc(), text.as_slice(), TO_A, READ)?;
    text.push(b'\n')?;
    expect_line(&rt, rt.alloc(), text.as_slice(), TO_A, TOO_LONG)
}

/// A text that is too long unless it says in its first line, byte for byte, that it is large.
#[test]
fn what_is_no_large_text(rt: HostRuntime) -> Result<(), Fail> {
    let mut text = text_of(rt.alloc(), BASE_OF_4)?.into_bytes();
    text.resize(16777217, b'\n')?;
    for (place, byte) in [(0, b' '), (6, b'='), (10, b' '), (9, b'2')] {
        let old = text[place];
        text[place] = byte;
        expect_line(&rt, rt.alloc(), text.as_slice(), TO_A, TOO_LONG)?;
        text[place] = old;
    }
    text.resize(67108865, b'\n')?;
    expect_line(&rt, rt.alloc(), text.as_slice(), TO_A, TOO_LONG)
}
