//! What is told of a tree's fault: the row, the keys that lead to it there, what stands at them, and what is wrong with that.
use cg_text::tree::told::{Told, paths_of, told_of};
use cg_text::tree::{TreeFault, read_tree};
use std::alloc::{AllocError, Global};
use std::process::Abort;
use std::test::Fail;
use toml::Value;

/// A row at `/`, and what stands before it.
const ROOT: &str =
    "format = 2\ncontrollers = ['cpu', 'memory']\n[[cgroup]]\npath = '/'\nenabled = ['memory']\n[[cgroup]]\npath = '/a'\n";

/// What stands behind the lines of the row of `/a`, and what is told of the fault.
const ROWS: [(&str, &str); 28] = [
    (
        "enable = ['memory']",
        "Cgroup(2) '/a', enable is array: Unknown(Cgroup)",
    ),
    ("dir.udi = 5", "Cgroup(2) '/a', dir udi is 5: Unknown(Dir)"),
    (
        "files.'memory.max'.vlaue = 5",
        "Cgroup(2) '/a', files memory.max vlaue is 5: Unknown(LimitFile)",
    ),
    (
        "files.'cgroup.procs'.value = 5",
        "Cgroup(2) '/a', files cgroup.procs value is 5: Unknown(ControlFile)",
    ),
    (
        "files.'memroy.max'.value = 5",
        "Cgroup(2) '/a', files memroy.max is table: Unknown(Files(Format2))",
    ),
    (
        "files.'memory.max' = 5",
        "Cgroup(2) '/a', files memory.max is 5: Mistyped(Table)",
    ),
    (
        "files.'memory.max'.value = true",
        "Cgroup(2) '/a', files memory.max value is boolean: Mistyped(Value)",
    ),
    (
        "enabled = 'memory'",
        "Cgroup(2) '/a', enabled is 'memory': Mistyped(Texts)",
    ),
    (
        "dir.uid = 'a'",
        "Cgroup(2) '/a', dir uid is 'a': Mistyped(Integer)",
    ),
    ("[[cgroup]]\n", "Cgroup(3), path: Missing"),
    ("[[process]]\npid = 1\nuid = 1", "Process(1), at: Missing"),
    (
        "[[process]]\npid = 1\nuid = 1\nat = 5",
        "Process(1), at is 5: Mistyped(Text)",
    ),
    (
        "enabled = ['memory', 'io']",
        "Cgroup(2) '/a', enabled is array: NoController { text: \"io\", vocabulary: Format2 }",
    ),
    (
        "dir.uid = -1",
        "Cgroup(2) '/a', dir uid is -1: OutOfRange(-1)",
    ),
    (
        "files.'cgroup.procs'.gid = 4294967296",
        "Cgroup(2) '/a', files cgroup.procs gid is 4294967296: OutOfRange(4294967296)",
    ),
    (
        "files.'memory.max'.mode = 512",
        "Cgroup(2) '/a', files memory.max mode is 512: OutOfRange(512)",
    ),
    (
        "[[process]]\npid = 1\nuid = -5\nat = '/'",
        "Process(1) '/', uid is -5: OutOfRange(-5)",
    ),
    (
        "files.'memory.max'.value = -1",
        "Cgroup(2) '/a', files memory.max value is -1: NotAccepted(MemoryMax)",
    ),
    (
        "files.'memory.max'.value = '4G'",
        "Cgroup(2) '/a', files memory.max value is '4G': NotAccepted(MemoryMax)",
    ),
    (
        "[[cgroup]]\npath = 'a'",
        "Cgroup(3) 'a', path is 'a': NoPath",
    ),
    (
        "[[cgroup]]\npath = '/a'",
        "Cgroup(3) '/a', path is '/a': Again",
    ),
    (
        "[[cgroup]]\npath = '/b/c'",
        "Cgroup(3) '/b/c', path is '/b/c': NoParent(\"/b\")",
    ),
    (
        "enabled = ['cpu']",
        "Cgroup(2) '/a', enabled is array: NotEnabled { controller: \"cpu\", above: Some(\"/\") }",
    ),
    (
        "files.'cpu.weight'.value = 5",
        "Cgroup(2) '/a', files cpu.weight is table: NoFile { controller: Cpu, above: \"/\" }",
    ),
    (
        "[[process]]\npid = 0\nuid = 1\nat = '/'",
        "Process(1) '/', pid is 0: NoPid(0)",
    ),
    (
        "[[process]]\npid = 1\nuid = 1\nat = '/'\n[[process]]\npid = 1\nuid = 1\nat = '/'",
        "Process(2) '/', pid is 1: Again",
    ),
    (
        "[[process]]\npid = 1\nuid = 1\nat = '/b'",
        "Process(1) '/b', at is '/b': Nowhere(\"/b\")",
    ),
    (
        "enabled = ['memory']\n[[process]]\npid = 1\nuid = 1\nat = '/a'",
        "Process(1) '/a', at is '/a': Inner(\"/a\")",
    ),
];

/// Whole texts whose fault is told of the top table, of a row that is no table, or in format 1.
const TEXTS: [(&str, &str); 15] = [
    ("controllers = []", "Top, format: Missing"),
    ("format = 3\ncontrollers = []", "Top, format is 3: Format"),
    ("format = 5\ncontrollers = []", "Top, format is 5: Format"),
    (
        "format = 2\ncontrollers = []\ncgroups = 5",
        "Top, cgroups is 5: Unknown(Top)",
    ),
    (
        "format = 2\ncontrollers = ['io']",
        "Top, controllers is array: NoController { text: \"io\", vocabulary: Format2 }",
    ),
    (
        "format = 1\ncontrollers = ['cpu', 'dmem']",
        "Top, controllers is array: NoController { text: \"dmem\", vocabulary: Format2 }",
    ),
    (
        "format = 4\ncontrollers = ['io', 'ios']",
        "Top, controllers is array: NoController { text: \"ios\", vocabulary: Format4 }",
    ),
    (
        "format = 4\ncontrollers = ['io']\n[[cgroup]]\npath = '/'\nenabled = ['io', 'IO']",
        "Cgroup(1) '/', enabled is array: NoController { text: \"IO\", vocabulary: Format4 }",
    ),
    (
        "format = 4\ncontrollers = ['io']\n[[cgroup]]\npath = '/'\nenabled = ['io', 'rdma']",
        "Cgroup(1) '/', enabled is array: NotEnabled { controller: \"rdma\", above: None }",
    ),
    (
        "format = 4\ncontrollers = ['io']\n[[cgroup]]\npath = '/'\nfiles.'io.max'.uid = 5",
        "Cgroup(1) '/', files io.max is table: NotAtRoot",
    ),
    (
        "format = 2\ncontrollers = ['memory']\n[[cgroup]]\npath = '/'\nfiles.'memory.max'.value = 5",
        "Cgroup(1) '/', files memory.max is table: NotAtRoot",
    ),
    (
        "format = 2\ncontrollers = []\n[[cgroup]]\npath = '/'\nfiles.'io.max'.uid = 5",
        "Cgroup(1) '/', files io.max is table: Unknown(Files(Format2))",
    ),
    (
        "format = 2\ncontrollers = []\ncgroup = [5]",
        "Cgroup(1): NoTable",
    ),
    (
        "format = 1\ncontrollers = []\n[[cgroup]]\npath = '/'\ndir.gid = 5",
        "Cgroup(1) '/': NoGroups",
    ),
    (
        "format = 1\ncontrollers = []\n[[cgroup]]\npath = '/'\ndir.mode = 0o775",
        "Cgroup(1) '/': NoGroupBit",
    ),
];

/// A row at `/` of format 4, and what stands before it.
const ROOT_OF_4: &str =
    "format = 4\ncontrollers = ['io', 'memory']\n[[cgroup]]\npath = '/'\nenabled = ['memory']\n[[cgroup]]\npath = '/a'\n";

/// What stands behind the lines of the row of `/a` there, of its limit files beyond `LimitFile`, and what is told of the fault.
const FURTHER: [(&str, &str); 12] = [
    (
        "files.'memory.swapmax'.value = 5",
        "Cgroup(2) '/a', files memory.swapmax is table: Unknown(Files(Format4))",
    ),
    (
        "files.'cgroup.freeze' = 0",
        "Cgroup(2) '/a', files cgroup.freeze is 0: Mistyped(Table)",
    ),
    (
        "files.'cgroup.freeze'.vlaue = 0",
        "Cgroup(2) '/a', files cgroup.freeze vlaue is 0: Unknown(FurtherFile)",
    ),
    (
        "files.'cgroup.freeze'.value = true",
        "Cgroup(2) '/a', files cgroup.freeze value is boolean: Mistyped(Lines)",
    ),
    (
        "files.'memory.swap.max'.value = ['a', 5]",
        "Cgroup(2) '/a', files memory.swap.max value is array: Mistyped(Lines)",
    ),
    (
        "files.'memory.swap.max'.uid = -1",
        "Cgroup(2) '/a', files memory.swap.max uid is -1: OutOfRange(-1)",
    ),
    (
        "files.'memory.swap.max'.mode = 0o1000",
        "Cgroup(2) '/a', files memory.swap.max mode is 512: OutOfRange(512)",
    ),
    (
        "files.'memory.swap.max'.value = ''",
        "Cgroup(2) '/a', files memory.swap.max value is '': NotALine(\"\")",
    ),
    (
        "files.'memory.swap.max'.value = 'a  b'",
        "Cgroup(2) '/a', files memory.swap.max value is 'a  b': NotALine(\"a  b\")",
    ),
    (
        "files.'memory.swap.max'.value = ['a', ' b']",
        "Cgroup(2) '/a', files memory.swap.max value is array: NotALine(\" b\")",
    ),
    (
        "files.'memory.swap.max'.value = []",
        "Cgroup(2) '/a', files memory.swap.max value is array: NoLines",
    ),
    (
        "files.'cgroup.freeze'.value = 0\nfiles.'io.max'.value = 'max'",
        "Cgroup(2) '/a', files io.max is table: NoFile { controller: Io, above: \"/\" }",
    ),
];

/// Faults of no row.
const OF_NO_ROW: [&str; 2] = [
    "format = 2\ncontrollers = []",
    "format = 2\ncontrollers = []\n[[cgroup]]\npath = '/a'",
];

/// What stands at the keys.
fn held_said(alloc: Global, held: &Value) -> Result<String, AllocError> {
    match held {
        Value::Integer(number) => format!(in alloc; " is {number}"),
        Value::String(text) => {
            let text = text.as_str();
            format!(in alloc; " is '{text}'")
        }
        other => {
            let kind = other.type_str();
            format!(in alloc; " is {kind}")
        }
    }
}

/// What is told, on one line.
fn line_of(alloc: Global, told: &Told<'_>) -> Result<String, AllocError> {
    let place = told.place;
    let mut line = format!(in alloc; "{place:?}")?;
    if let Some(name) = told.name {
        line.push_str(" '")?;
        line.push_str(name)?;
        line.push_str("'")?;
    }
    let mut mark = ", ";
    for key in [told.at.table, told.at.file, told.at.key] {
        if let Some(key) = key {
            line.push_str(mark)?;
            line.push_str(key)?;
            mark = " ";
        }
    }
    if let Some(held) = told.held {
        line.push_str(held_said(alloc, held)?.as_str())?;
    }
    let wrong = told.wrong;
    line.push_str(format!(in alloc; ": {wrong:?}")?.as_str())?;
    Ok(line)
}

fn fault_of(alloc: Global, text: &str) -> Option<TreeFault> {
    match read_tree(alloc, text.as_bytes()) {
        Ok(_) => None,
        Err(fault) => Some(fault),
    }
}

/// What is told of a text's fault, or nothing.
fn told_line(alloc: Global, text: &str) -> Result<Option<String>, Fail> {
    let fault = fault_of(alloc, text).ok_or("the text has no fault")?;
    let document = toml::table_from_str(alloc, text)?;
    match told_of(&document, fault) {
        Some(told) => Ok(Some(line_of(alloc, &told)?)),
        None => Ok(None),
    }
}

fn expect_told(rt: &impl Abort, alloc: Global, text: &str, wanted: &str) -> Result<(), Fail> {
    let line = told_line(alloc, text)?.ok_or("nothing is told")?;
    assert_eq!(rt; line.as_str(), wanted, "{text}");
    Ok(())
}

#[test]
fn what_is_told_of_a_row(rt: HostRuntime) -> Result<(), Fail> {
    let a = rt.alloc();
    for (rest, wanted) in &ROWS {
        let text = format!(in a; "{ROOT}{rest}\n")?;
        expect_told(&rt, a, text.as_str(), wanted)?;
    }
    Ok(())
}

#[test]
fn what_is_told_of_further_limit_files(rt: HostRuntime) -> Result<(), Fail> {
    let a = rt.alloc();
    for (rest, wanted) in &FURTHER {
        let text = format!(in a; "{ROOT_OF_4}{rest}\n")?;
        expect_told(&rt, a, text.as_str(), wanted)?;
    }
    Ok(())
}

#[test]
fn what_is_told_of_a_text(rt: HostRuntime) -> Result<(), Fail> {
    for (text, wanted) in &TEXTS {
        expect_told(&rt, rt.alloc(), text, wanted)?;
    }
    Ok(())
}

#[test]
fn nothing_is_told_of_no_row(rt: HostRuntime) -> Result<(), Fail> {
    for text in OF_NO_ROW {
        let line = told_line(rt.alloc(), text)?;
        assert!(rt; line.is_none(), "{text}");
    }
    Ok(())
}

#[test]
fn paths_are_those_of_rows(rt: HostRuntime) -> Result<(), Fail> {
    let document = toml::table_from_str(rt.alloc(), ROOT)?;
    let paths = paths_of(rt.alloc(), &document)?;
    assert!(rt; paths.as_slice() == ["/", "/a"].as_slice());
    Ok(())
}
