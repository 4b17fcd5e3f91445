//! `check_bytes` on rows worked out by hand, and on faults, of which those of `advise_bytes` are the same.
use super::calls::{Call, expect, expect_fault};
use super::changed::{
    Change, FORMAT_2, FORMAT_4, GROUP_WRITES, MEMORY_MAX, MEMORY_MAX_OWNED, OTHERS, ROOT,
    ROOT_PROCS_OPEN, ROOT_PROCS_OWNED, TOO_MANY, delegation_with,
};
use crate::tests::users::{MANY_GROUPS, MOST_GROUPS, USER, user};
use cg_faults::fault::{CliFault, fault_text};
use cg_model::fault::CheckFault;
use cg_text::tree::{Place, TreeFault};
use std::alloc::Global;
use std::process::Abort;
use std::test::Fail;
use test_trees::changes::changed;
use test_trees::texts::{DELEGATION, EMPTY, INTERNAL_PROCESS, NO_PARENT, PARENT_DELEGATED};

const JUST_ENOUGH: Change = (
    "\"cgroup.max.descendants\" = { value = 4 }",
    "\"cgroup.max.descendants\" = { value = 2 }",
);

const ROOT_DIR_OWNED: Change = (ROOT, "enabled = [\"memory\"]\ndir = { uid = 1000 }\n");

const ROOT_CONTROL_OWNED: Change = (
    ROOT,
    "enabled = [\"memory\"]\n[cgroup.files]\n\"cgroup.subtree_control\" = { uid = 1000 }\n",
);

/// User 1000 owns the limit, and may not write it.
const MEMORY_MAX_OWNED_ALONE: Change = (
    MEMORY_MAX,
    "\"memory.max\" = { uid = 1000, mode = 0o444, value = 1073741824 }",
);

const ROOT_DIR_OWNED_ALONE: Change = (
    ROOT,
    "enabled = [\"memory\"]\ndir = { uid = 1000, mode = 0o555 }\n",
);

/// A change of the delegation, and what is said of user 1000 and `/c0`.
const OF_DELEGATION: [(Change, &str, u8); 10] = [
    (("", ""), "contained\n", 0),
    (MEMORY_MAX_OWNED, "escapes\nset /c0 memory.max max\n", 1),
    (ROOT_PROCS_OPEN, "escapes\nmove 10 /c0\n", 1),
    (TOO_MANY, "escapes\n", 1),
    (JUST_ENOUGH, "contained\n", 0),
    (ROOT_DIR_OWNED, "unsettled parent-dir /\n", 2),
    (ROOT_CONTROL_OWNED, "escapes\ncontrol / +cpu\n", 1),
    (
        ROOT_PROCS_OWNED,
        "escapes\nchmod / cgroup.procs 646\nmove 10 /c0\n",
        1,
    ),
    (
        MEMORY_MAX_OWNED_ALONE,
        "escapes\nchmod /c0 memory.max 644\nset /c0 memory.max max\n",
        1,
    ),
    (ROOT_DIR_OWNED_ALONE, "unsettled parent-dir /\n", 2),
];

/// User 1000 owns the directory of `/p`.
const PARENT_DIR_OWNED: Change = ("path = \"/p\"\n", "path = \"/p\"\ndir = { uid = 1000 }\n");

/// Further keys of the root in the tree of `/` and `/c0`, and what is said of user 1000 and `/c0`.
const OF_TWO_CGROUPS: [(&str, &str, u8); 3] = [
    (
        "[cgroup.files]\n\"cgroup.procs\" = { mode = 0o646 }",
        "unsettled common-ancestor /\n",
        2,
    ),
    ("dir = { uid = 1000 }", "escapes\nrmdir /c0\n", 1),
    (
        "dir = { uid = 1000, mode = 0o555 }",
        "escapes\nchmod / dir 755\nrmdir /c0\n",
        1,
    ),
];

/// A change of the tree whose parent is delegated, and what is said of user 1000 and `/p/s`.
const OF_A_PARENT: [(Change, &str, u8); 2] = [
    (("", ""), "unsettled common-ancestor /p\n", 2),
    (
        PARENT_DIR_OWNED,
        "escapes\nmkdir /p/probe0\nmove 20 /p/probe0\n",
        1,
    ),
];

#[test]
fn a_subtree_is_contained_escaped_from_or_unsettled(rt: HostRuntime) -> Result<(), Fail> {
    for (change, report, status) in OF_DELEGATION {
        let tree = delegation_with(rt.alloc(), &[change])?;
        let call = Call::Check(USER, "/c0");
        expect(&rt, rt.alloc(), tree.as_bytes(), call, report, status);
    }
    for (keys, report, status) in OF_TWO_CGROUPS {
        let root = format!(in rt.alloc(); "path = \"/\"\n{keys}\n")?;
        let tree = changed(rt.alloc(), EMPTY, &[("path = \"/\"\n", root.as_str())])?;
        let call = Call::Check(USER, "/c0");
        expect(&rt, rt.alloc(), tree.as_bytes(), call, report, status);
    }
    for (change, report, status) in OF_A_PARENT {
        let tree = changed(rt.alloc(), PARENT_DELEGATED, &[change])?;
        let call = Call::Check(USER, "/p/s");
        expect(&rt, rt.alloc(), tree.as_bytes(), call, report, status);
    }
    Ok(())
}

/// A parent whose `cgroup.subtree_control` is user 1000's, in format 4: what the root has and what the parent enables, and what is said
/// of user 1000 and `/p/s`. The root enables what the parent does.
const OF_OTHERS: [(&str, &str, &str, u8); 6] = [
    ("\"cpu\", \"io\"", "\"io\"", "escapes\ncontrol /p -io\n", 1),
    (
        "\"dmem\", \"io\", \"pids\"",
        "\"dmem\", \"pids\"",
        "escapes\ncontrol /p -pids\n",
        1,
    ),
    (
        "\"dmem\", \"cpuset\"",
        "\"dmem\"",
        "escapes\ncontrol /p -dmem\n",
        1,
    ),
    (
        "\"hugetlb\", \"cpuset\"",
        "\"hugetlb\", \"cpuset\"",
        "escapes\ncontrol /p -cpuset\n",
        1,
    ),
    ("\"io\", \"rdma\"", "", "unsettled parent-control /p\n", 2),
    ("", "", "unsettled parent-control /p\n", 2),
];

#[test]
fn controls_of_what_else_the_root_has(rt: HostRuntime) -> Result<(), Fail> {
    for (controllers, enabled, report, status) in OF_OTHERS {
        let tree = format!(in rt.alloc();
            "format = 4
controllers = [{controllers}]
[[cgroup]]
path = \"/\"
enabled = [{enabled}]
[[cgroup]]
path = \"/p\"
enabled = [{enabled}]
[cgroup.files]
\"cgroup.subtree_control\" = {{ uid = 1000 }}
[[cgroup]]
path = \"/p/s\"
"
        )?;
        let call = Call::Check(USER, "/p/s");
        expect(&rt, rt.alloc(), tree.as_bytes(), call, report, status);
    }
    Ok(())
}

/// Of the delegation in format 4, whose root has other controllers or hasn't, the same is said but where these are tried.
#[test]
fn a_delegation_of_format_4(rt: HostRuntime) -> Result<(), Fail> {
    for (change, report, status) in OF_DELEGATION {
        let tree = delegation_with(rt.alloc(), &[FORMAT_4, change])?;
        let call = Call::Check(USER, "/c0");
        expect(&rt, rt.alloc(), tree.as_bytes(), call, report, status);
        let [format, controllers] = OTHERS;
        let tree = delegation_with(rt.alloc(), &[format, controllers, change])?;
        expect(&rt, rt.alloc(), tree.as_bytes(), call, report, status);
    }
    Ok(())
}

/// Others write `cgroup.procs` of the root, but for group 50.
const OTHERS_WRITE: Change = (
    ROOT,
    "enabled = [\"memory\"]\n[cgroup.files]\n\"cgroup.procs\" = { gid = 50, mode = 0o646 }\n",
);

/// User 1000 owns `cgroup.procs` of the root, and all others write it.
const ALL_OTHERS_WRITE: Change = (
    ROOT,
    "enabled = [\"memory\"]\n[cgroup.files]\n\"cgroup.procs\" = { uid = 1000, gid = 50, mode = 0o466 }\n",
);

/// Changes of the delegation, the groups of user 1000, and what is said of them and `/c0`.
const OF_GROUPS: [(&[Change], &[u32], &str, u8); 6] = [
    (&[FORMAT_2, GROUP_WRITES], &[], "contained\n", 0),
    (
        &[FORMAT_2, GROUP_WRITES],
        &[50],
        "escapes\nmove 10 /c0\n",
        1,
    ),
    (&[FORMAT_2, OTHERS_WRITE], &[], "escapes\nmove 10 /c0\n", 1),
    (&[FORMAT_2, OTHERS_WRITE], &[50], "contained\n", 0),
    (
        &[FORMAT_2, ALL_OTHERS_WRITE],
        &[50],
        "escapes\nchmod / cgroup.procs 666\nmove 10 /c0\n",
        1,
    ),
    (&[ROOT_PROCS_OPEN], &[0], "contained\n", 0),
];

#[test]
fn the_class_of_a_group_decides(rt: HostRuntime) -> Result<(), Fail> {
    for (changes, gids, report, status) in OF_GROUPS {
        let tree = delegation_with(rt.alloc(), changes)?;
        let call = Call::Check(user(1000, gids), "/c0");
        expect(&rt, rt.alloc(), tree.as_bytes(), call, report, status);
    }
    Ok(())
}

/// Fails where a call doesn't end in a fault with this line.
fn expect_line(
    rt: &impl Abort,
    alloc: Global,
    tree: &[u8],
    call: Call<'_>,
    fault: CliFault,
    line: &str,
) -> Result<(), Fail> {
    expect_fault(rt, alloc, tree, call, fault);
    let text = fault_text(alloc, &fault)?;
    assert_eq!(rt; text.as_slice(), line.as_bytes());
    Ok(())
}

#[test]
fn the_first_fault_is_said_and_nothing_written(rt: HostRuntime) -> Result<(), Fail> {
    let most = MOST_GROUPS;
    let root = CliFault::Subtree(CheckFault::RootSubtree);
    let missing = CliFault::Subtree(CheckFault::NoSuchSubtree);
    for (uid, gids, subtree, fault, line) in [
        (0, MANY_GROUPS, "c0", CliFault::Uid, "fault: uid\n"),
        (0, &[], "/c0", CliFault::Uid, "fault: uid\n"),
        (1000, MANY_GROUPS, "c0", CliFault::Gids, "fault: gid\n"),
        (1000, most, "c0", CliFault::BadPath, "fault: path\n"),
        (1000, most, "", CliFault::BadPath, "fault: path\n"),
        (1000, most, "/", root, "fault: subtree root\n"),
        (1000, most, "/zz", missing, "fault: subtree missing\n"),
    ] {
        let user = user(uid, gids);
        for call in [
            Call::Check(user, subtree),
            Call::Advise(&[user], &[subtree]),
        ] {
            expect_line(&rt, rt.alloc(), DELEGATION, call, fault, line)?;
        }
    }
    Ok(())
}

#[test]
fn a_fault_of_the_tree_has_its_line(rt: HostRuntime) -> Result<(), Fail> {
    let with_gid = ("dir = { uid = 1000 }", "dir = { uid = 1000, gid = 5 }");
    let with_gid = delegation_with(rt.alloc(), &[with_gid])?;
    let group_writes = (ROOT, "enabled = [\"memory\"]\ndir = { mode = 0o775 }\n");
    let group_writes = delegation_with(rt.alloc(), &[group_writes])?;
    let no_parent = TreeFault::NoParent(Place::Cgroup(2));
    let internal = TreeFault::InternalProcess(Place::Process(1));
    let shape = TreeFault::Shape(Place::Cgroup(2));
    let entry = TreeFault::BadEntry(Place::Cgroup(1));
    for (tree, subtree, fault, line) in [
        (
            NO_PARENT,
            "/a/b",
            no_parent,
            "fault: tree no-parent cgroup 2\n",
        ),
        (
            INTERNAL_PROCESS,
            "/a",
            internal,
            "fault: tree internal-process process 1\n",
        ),
        (
            with_gid.as_bytes(),
            "/c0",
            shape,
            "fault: tree shape cgroup 2\n",
        ),
        (
            group_writes.as_bytes(),
            "/c0",
            entry,
            "fault: tree bad-entry cgroup 1\n",
        ),
    ] {
        let call = Call::Check(USER, subtree);
        expect_line(&rt, rt.alloc(), tree, call, CliFault::Tree(fault), line)?;
    }
    Ok(())
}
