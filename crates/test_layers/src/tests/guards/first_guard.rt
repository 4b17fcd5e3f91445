//! The first guard that fails for user 1000, on trees worked out by hand.
use crate::tests::guards::trees::{
    MEMORY_MAX_OWNED, ROOM_FOR_ONE, ROOT, ROOT_CONTROL_OWNED, ROOT_DIR_OWNED, ROOT_PROCS_OPEN,
    first_failed, tree_with,
};
use cg_cgroup::files::{EntryName, LimitFile};
use cg_cgroup::user::User;
use cg_model::guard::{Failed, Guard};
use std::alloc::Global;
use std::process::Abort;
use std::test::Fail;
use test_trees::texts::{DELEGATION, EMPTY, PARENT_DELEGATED};

/// Fails where another guard is the first against user 1000 with these groups.
fn expect(
    rt: &impl Abort,
    alloc: Global,
    text: &[u8],
    change: (&str, &str),
    gids: &[u32],
    subtree: &str,
    wanted: Option<(Guard, usize)>,
) -> Result<(), Fail> {
    let tree = tree_with(alloc, text, change)?;
    let user = User::with_groups(1000, gids).ok_or("user")?;
    let wanted = wanted.map(|(guard, len)| Failed { guard, len });
    assert_eq!(rt;
        first_failed(alloc, tree, &user, subtree)?,
        wanted,
        "{change:?}"
    );
    Ok(())
}

const SAME: (&str, &str) = ("", "");

/// User 1000 owns `cgroup.procs` of the root, and may not write it.
const ROOT_PROCS_OWNED: (&str, &str) = (
    ROOT,
    "path = \"/\"\nfiles = { \"cgroup.procs\" = { uid = 1000, mode = 0o446 } }\n",
);

/// User 1000 owns the root's directory, and may not write it.
const ROOT_DIR_OWNED_ALONE: (&str, &str) = (
    ROOT,
    "path = \"/\"\ndir = { uid = 1000, mode = 0o555 }\n",
);

#[test]
fn the_delegation_example(rt: HostRuntime) -> Result<(), Fail> {
    let memory_max = EntryName::File(LimitFile::MemoryMax);
    let memory_max = Some((Guard::LimitFile(memory_max), 1));
    let over = Some((Guard::AlreadyOver, 1));
    let not_written = (
        "\"memory.max\" = {",
        "\"memory.max\" = { uid = 1000, mode = 0o444,",
    );
    let of_another = ("\"memory.max\" = {", "\"memory.max\" = { uid = 1001,");
    for (change, subtree, wanted) in [
        (SAME, "/c0", None),
        (SAME, "/c1", None),
        (SAME, "/c0/c00", Some((Guard::CommonAncestor, 1))),
        (MEMORY_MAX_OWNED, "/c0", memory_max),
        (not_written, "/c0", memory_max),
        (of_another, "/c0", None),
        (("value = 4", "value = 2"), "/c0", None),
        (ROOM_FOR_ONE, "/c0", over),
        (("{ value = 2", "{ value = 1"), "/c0", None),
        (("{ value = 2", "{ value = 0"), "/c0", over),
        (ROOT_PROCS_OPEN, "/c0", Some((Guard::CommonAncestor, 0))),
        (ROOT_PROCS_OWNED, "/c0", Some((Guard::CommonAncestor, 0))),
        (ROOT_CONTROL_OWNED, "/c0", Some((Guard::ParentControl, 0))),
        (ROOT_DIR_OWNED, "/c0", Some((Guard::ParentDir, 0))),
        (ROOT_DIR_OWNED_ALONE, "/c0", Some((Guard::ParentDir, 0))),
    ] {
        expect(&rt, rt.alloc(), DELEGATION, change, &[], subtree, wanted)?;
    }
    Ok(())
}

#[test]
fn small_trees(rt: HostRuntime) -> Result<(), Fail> {
    let parent = Some((Guard::CommonAncestor, 1));
    let directory = ("path = \"/p\"\n", "path = \"/p\"\ndir = { uid = 1000 }\n");
    for (text, change, subtree, wanted) in [
        (EMPTY, SAME, "/c0", None),
        (
            EMPTY,
            ROOT_PROCS_OPEN,
            "/c0",
            Some((Guard::CommonAncestor, 0)),
        ),
        (EMPTY, ROOT_DIR_OWNED, "/c0", Some((Guard::ParentDir, 0))),
        (
            EMPTY,
            ROOT_DIR_OWNED_ALONE,
            "/c0",
            Some((Guard::ParentDir, 0)),
        ),
        (PARENT_DELEGATED, SAME, "/p/s", parent),
        (PARENT_DELEGATED, directory, "/p/s", parent),
    ] {
        expect(&rt, rt.alloc(), text, change, &[], subtree, wanted)?;
    }
    Ok(())
}

/// Entries of the root's `cgroup.procs`: the group's class decides for its members, and the owner reaches whatever the mode.
const OF_GROUPS: [(&str, &[u32], Option<(Guard, usize)>); 6] = [
    ("gid = 50, mode = 0o664", &[], None),
    (
        "gid = 50, mode = 0o664",
        &[7, 50],
        Some((Guard::CommonAncestor, 0)),
    ),
    (
        "gid = 50, mode = 0o646",
        &[],
        Some((Guard::CommonAncestor, 0)),
    ),
    ("gid = 50, mode = 0o646", &[50], None),
    (
        "uid = 1000, gid = 50, mode = 0o466",
        &[50],
        Some((Guard::CommonAncestor, 0)),
    ),
    ("mode = 0o646", &[0], None),
];

#[test]
fn groups(rt: HostRuntime) -> Result<(), Fail> {
    for (entry, gids, wanted) in OF_GROUPS {
        let root = format!(in rt.alloc();
            "path = \"/\"\nfiles = {{ \"cgroup.procs\" = {{ {entry} }} }}\n"
        )?;
        let change = (ROOT, root.as_str());
        expect(&rt, rt.alloc(), DELEGATION, change, gids, "/c0", wanted)?;
    }
    Ok(())
}
