//! `upgrade_bytes`: what is read from what was written is the same tree, and written anew it is the same bytes.
use super::answers_written::Written;
use super::calls::{self, Call, expect_fault};
use super::changed::{FORMAT_4, MEMORY_MAX, OTHERS, ROOT, delegation_with};
use super::vectors::{BASE, Parts, text_of};
use crate::tests::users::USER;
use cg_cgroup::process::Pid;
use cg_cli::upgrade::upgrade_bytes;
use cg_faults::fault::CliFault;
use cg_model::hierarchy::Hierarchy;
use cg_rows::rows::Rows;
use cg_text::tree::{Place, TreeFault, read_tree};
use std::alloc::Global;
use std::process::Abort;
use std::str::from_utf8;
use std::test::Fail;
use test_trees::texts::{
    DELEGATION, DELEGATION_AND_PROCESS, EMPTY, INTERNAL_PROCESS, NO_PARENT, PARENT_DELEGATED,
};

/// What is written of a text.
fn upgraded(alloc: Global, text: &[u8]) -> Result<Vec<u8>, CliFault> {
    let mut out = Vec::new(alloc);
    match upgrade_bytes(alloc, text, &mut out)? {
        0 => Ok(out),
        _ => Err(CliFault::Read),
    }
}

/// The text of a process's cgroup.
fn place(tree: &Rows, pid: Pid) -> Option<&str> {
    let path = tree.place(pid)?;
    Some(path.prefix(path.depth()))
}

/// Fails where two trees differ.
fn hold_trees(rt: &impl Abort, alloc: Global, one: &Rows, other: &Rows) -> Result<(), Fail> {
    assert_eq!(rt; one.controllers(), other.controllers());
    let paths = one.paths(alloc)?;
    assert_eq!(rt; paths.as_slice(), other.paths(alloc)?.as_slice());
    for path in &paths {
        let cgroup = one.get(path, path.depth()).copied();
        assert_eq!(rt; cgroup, other.get(path, path.depth()).copied());
    }
    let pids = one.pids(alloc)?;
    assert_eq!(rt; pids.as_slice(), other.pids(alloc)?.as_slice());
    for pid in &pids {
        assert_eq!(rt; one.owner(*pid), other.owner(*pid));
        assert_eq!(rt; place(one, *pid), place(other, *pid));
    }
    Ok(())
}

/// Fails where what is written of a text isn't of its tree, or written anew isn't the same bytes.
fn expect<R: AllocGlobal + Abort>(rt: &R, text: &[u8]) -> Result<(), Fail> {
    let alloc = rt.alloc();
    let written = upgraded(alloc, text)?;
    let again = upgraded(alloc, written.as_slice())?;
    assert_eq!(rt; again.as_slice(), written.as_slice());
    let one = read_tree(alloc, text)?;
    let other = read_tree(alloc, written.as_slice())?;
    hold_trees(rt, alloc, &one, &other)
}

#[test]
fn the_samples_stay_the_same_trees(rt: HostRuntime) -> Result<(), Fail> {
    for text in [DELEGATION, PARENT_DELEGATED, EMPTY] {
        expect(&rt, text)?;
    }
    let text = [DELEGATION, DELEGATION_AND_PROCESS].concat(rt.alloc())?;
    expect(&rt, text.as_slice())
}

/// Changes of the delegation example: a group, modes, limits at their bounds, other controllers.
const CHANGES: [&[(&str, &str)]; 9] = [
    &[FORMAT_4],
    &OTHERS,
    &[
        ("format = 1", "format = 4"),
        (
            "controllers = [\"cpu\", \"memory\", \"pids\"]",
            "controllers = [\"dmem\", \"misc\", \"rdma\", \"pids\", \"hugetlb\", \"memory\", \"io\", \"cpu\", \"cpuset\", \"io\"]",
        ),
        (
            ROOT,
            "enabled = [\"misc\", \"memory\", \"dmem\", \"cpuset\", \"memory\"]\n",
        ),
    ],
    &[
        ("format = 1", "format = 2"),
        (
            ROOT,
            "enabled = [\"memory\"]\ndir = { gid = 4294967295, mode = 0o777 }\nfiles = { \"cgroup.procs\" = { uid = 4294967295, gid = 50, mode = 0 } }\n",
        ),
    ],
    &[(
        ROOT,
        "enabled = [\"pids\", \"memory\", \"cpu\", \"memory\"]\n",
    )],
    &[(
        MEMORY_MAX,
        "\"memory.max\" = { uid = 7, value = 9223372036854775807 }\n\"memory.min\" = { value = 0 }\n\"memory.low\" = { value = \"max\" }\n\"memory.high\" = { mode = 0o000, value = 0 }",
    )],
    &[
        (ROOT, "enabled = [\"cpu\", \"memory\", \"pids\"]\n"),
        (
            MEMORY_MAX,
            "\"cpu.weight\" = { value = 1 }\n\"pids.max\" = { value = 0 }\n",
        ),
    ],
    &[
        (ROOT, "enabled = [\"cpu\"]\n"),
        (MEMORY_MAX, "\"cpu.weight\" = { value = 10000 }\n"),
    ],
    &[
        (
            "controllers = [\"cpu\", \"memory\", \"pids\"]",
            "controllers = [\"pids\"]",
        ),
        (ROOT, "enabled = [\"pids\"]\n"),
        (MEMORY_MAX, "\"pids.max\" = { value = \"max\" }\n"),
    ],
];

#[test]
fn groups_modes_and_bounds_are_kept(rt: HostRuntime) -> Result<(), Fail> {
    for changes in CHANGES {
        let text = delegation_with(rt.alloc(), changes)?;
        expect(&rt, text.as_bytes())?;
    }
    Ok(())
}

#[test]
fn a_name_may_have_every_allowed_byte(rt: HostRuntime) -> Result<(), Fail> {
    let mut path = String::from_str(rt.alloc(), "/")?;
    for byte in 0x21..0x7f_u8 {
        match byte {
            b'/' => {}
            b'"' | b'\\' => {
                path.push('\\')?;
                path.push(char::from(byte))?;
            }
            _ => path.push(char::from(byte))?,
        }
    }
    let parts = Parts {
        path: path.as_str(),
        ..BASE
    };
    expect(&rt, text_of(rt.alloc(), parts)?.as_bytes())
}

/// A root alone.
const ROOT_ALONE: &[u8] = b"format = 1\ncontrollers = []\ncgroup = [{ path = '/' }]\n";

/// What is written of it.
const ROOT_WRITTEN: &str = "controllers = []
format = 2
process = []

[[cgroup]]
enabled = []
path = \"/\"

[cgroup.dir]
gid = 0
mode = 493
uid = 0

[cgroup.files.\"cgroup.max.depth\"]
gid = 0
mode = 420
uid = 0
value = \"max\"

[cgroup.files.\"cgroup.max.descendants\"]
gid = 0
mode = 420
uid = 0
value = \"max\"

[cgroup.files.\"cgroup.procs\"]
gid = 0
mode = 420
uid = 0

[cgroup.files.\"cgroup.subtree_control\"]
gid = 0
mode = 420
uid = 0
";

#[test]
fn a_root_alone_has_no_processes(rt: HostRuntime) -> Result<(), Fail> {
    expect(&rt, ROOT_ALONE)?;
    let written = upgraded(rt.alloc(), ROOT_ALONE)?;
    assert_eq!(rt; from_utf8(written.as_slice())?, ROOT_WRITTEN);
    Ok(())
}

/// A root of format 4, and what is written of it up to what is written of every root.
const ROOTS_OF_4: [(&[u8], &str); 3] = [
    (
        b"format = 4\ncontrollers = []\ncgroup = [{ path = '/' }]\n",
        "controllers = []\nformat = 4\nprocess = []\n\n[[cgroup]]\nenabled = []\n",
    ),
    (
        b"# two\n'format' = 0x4\ncontrollers = ['io', 'cpu', 'io']\ncgroup = [{ path = '/', enabled = ['io', 'io'] }]\n",
        "controllers = [\"cpu\", \"io\"]\nformat = 4\nprocess = []\n\n[[cgroup]]\nenabled = [\"io\"]\n",
    ),
    (
        b"format = 4\ncontrollers = ['misc', 'io', 'dmem', 'cpuset', 'cpu', 'rdma', 'hugetlb', 'memory', 'pids']\n[[cgroup]]\npath = '/'\nenabled = ['rdma', 'misc', 'hugetlb', 'rdma']\n",
        "controllers = [\"cpuset\", \"cpu\", \"io\", \"memory\", \"hugetlb\", \"pids\", \"rdma\", \"misc\", \"dmem\"]\nformat = 4\nprocess = []\n\n[[cgroup]]\nenabled = [\"hugetlb\", \"rdma\", \"misc\"]\n",
    ),
];

#[test]
fn controllers_are_written_in_their_order_and_once(rt: HostRuntime) -> Result<(), Fail> {
    let (_, rest) = ROOT_WRITTEN
        .split_once("enabled = []\n")
        .ok_or("no such part")?;
    for (text, front) in ROOTS_OF_4 {
        expect(&rt, text)?;
        let written = upgraded(rt.alloc(), text)?;
        let wanted = format!(in rt.alloc(); "{front}{rest}")?;
        assert_eq!(rt; from_utf8(written.as_slice())?, wanted.as_str());
    }
    Ok(())
}

/// Of the delegation in format 4 the same is written but for the number.
#[test]
fn the_format_is_its_number_alone(rt: HostRuntime) -> Result<(), Fail> {
    let of_1 = upgraded(rt.alloc(), DELEGATION)?;
    let text = delegation_with(rt.alloc(), &[FORMAT_4])?;
    let of_4 = upgraded(rt.alloc(), text.as_bytes())?;
    let wanted = from_utf8(of_1.as_slice())?.replace(rt.alloc(), "format = 2\n", "format = 4\n")?;
    assert_eq!(rt; from_utf8(of_4.as_slice())?, wanted.as_str());
    Ok(())
}

#[test]
fn what_is_said_of_it_is_the_same(rt: HostRuntime) -> Result<(), Fail> {
    let others = delegation_with(rt.alloc(), &OTHERS)?;
    for text in [DELEGATION, others.as_bytes()] {
        let written = upgraded(rt.alloc(), text)?;
        let call = Call::Check(USER, "/c0");
        calls::expect(&rt, rt.alloc(), written.as_slice(), call, "contained\n", 0);
    }
    Ok(())
}

#[test]
fn nothing_is_written_of_a_text_with_a_fault(rt: HostRuntime) {
    let internal = TreeFault::InternalProcess(Place::Process(1));
    for (text, fault) in [
        (NO_PARENT, TreeFault::NoParent(Place::Cgroup(2))),
        (INTERNAL_PROCESS, internal),
        (b"".as_slice(), TreeFault::Shape(Place::Top)),
        (b"\xff".as_slice(), TreeFault::NotToml),
    ] {
        expect_fault(&rt, rt.alloc(), text, Call::Upgrade, CliFault::Tree(fault));
    }
}

#[test]
fn a_failed_write_leaves_the_front_of_the_text(rt: HostRuntime) -> Result<(), Fail> {
    let text = upgraded(rt.alloc(), EMPTY)?;
    let written = Written {
        tree: EMPTY,
        call: Call::Upgrade,
        report: text.as_slice(),
        status: 0,
    };
    written.expect(&rt, rt.alloc());
    Ok(())
}
