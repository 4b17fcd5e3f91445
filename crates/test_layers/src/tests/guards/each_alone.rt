//! Each entry on which a guard of `/a/b` stands, as the only one that user 1000 reaches: by writing, and by owning.
use crate::tests::files::NAMED;
use crate::tests::guards::trees::first_failed;
use cg_cgroup::files::EntryName;
use cg_cgroup::user::User;
use cg_model::guard::{Failed, Guard};
use cg_rows::rows::Rows;
use cg_text::tree::read_tree;
use std::alloc::{AllocError, Global};
use std::test::Fail;

/// The cgroup of an entry, by the number of its names, and the entry as a tree text names it.
type Named = (usize, &'static str);

/// The guarded entries but the limit files, before these and behind them.
const BEFORE_FILES: [(Guard, Named); 2] = [
    (Guard::CommonAncestor, (1, "cgroup.procs")),
    (Guard::CommonAncestor, (0, "cgroup.procs")),
];

const BEHIND_FILES: [(Guard, Named); 2] = [
    (Guard::ParentControl, (1, "cgroup.subtree_control")),
    (Guard::ParentDir, (1, "dir")),
];

/// The guarded entries, in the order of the guards.
fn guarded(alloc: Global) -> Result<Vec<(Guard, Named)>, AllocError> {
    let mut entries = BEFORE_FILES.to_vec(alloc)?;
    for (file, name) in NAMED {
        entries.push((Guard::LimitFile(EntryName::File(file)), (2, name)))?;
    }
    entries.extend_from_slice(&BEHIND_FILES)?;
    Ok(entries)
}

/// Entries of `/a/b` and above on which no guard stands.
const UNGUARDED: [Named; 8] = [
    (0, "dir"),
    (0, "cgroup.subtree_control"),
    (0, "cgroup.max.depth"),
    (1, "cgroup.max.descendants"),
    (1, "memory.max"),
    (2, "dir"),
    (2, "cgroup.procs"),
    (2, "cgroup.subtree_control"),
];

/// The tree `/a/b` in which all controllers are enabled down to it, with these entries so.
fn tree_of(alloc: Global, entries: &[Named], so: &str) -> Result<Rows, Fail> {
    let mut text = format!(in alloc;
        "format = 2\ncontrollers = [\"cpu\", \"memory\", \"pids\"]\n"
    )?;
    for (level, path) in ["/", "/a", "/a/b"].iter().enumerate() {
        let enabled = if level == 2 {
            ""
        } else {
            "\"cpu\", \"memory\", \"pids\""
        };
        text = format!(in alloc; "{text}[[cgroup]]\npath = \"{path}\"\nenabled = [{enabled}]\n")?;
        for (len, name) in entries {
            if *len == level && *name == "dir" {
                text = format!(in alloc; "{text}dir = {so}\n")?;
            }
        }
        text = format!(in alloc; "{text}[cgroup.files]\n")?;
        for (len, name) in entries {
            if *len == level && *name != "dir" {
                text = format!(in alloc; "{text}\"{name}\" = {so}\n")?;
            }
        }
    }
    Ok(read_tree(alloc, text.as_bytes())?)
}

const WRITTEN: &str = "{ mode = 0o446 }";

const OWNED: &str = "{ uid = 1000, mode = 0o444 }";

const WRITTEN_BY_GROUP: &str = "{ gid = 50, mode = 0o464 }";

#[test]
fn one_entry_is_reached(rt: HostRuntime) -> Result<(), Fail> {
    let user = User::with_groups(1000, &[50]).ok_or("user")?;
    for (guard, (len, name)) in guarded(rt.alloc())? {
        for so in [WRITTEN, OWNED, WRITTEN_BY_GROUP] {
            let tree = tree_of(rt.alloc(), &[(len, name)], so)?;
            assert_eq!(rt;
                first_failed(rt.alloc(), tree, &user, "/a/b")?,
                Some(Failed { guard, len }),
                "{len} {name} {so}"
            );
        }
    }
    Ok(())
}

#[test]
fn others_are_reached(rt: HostRuntime) -> Result<(), Fail> {
    let user = User::with_groups(1000, &[50]).ok_or("user")?;
    for so in [WRITTEN, OWNED, WRITTEN_BY_GROUP] {
        let tree = tree_of(rt.alloc(), &UNGUARDED, so)?;
        assert_eq!(rt;
            first_failed(rt.alloc(), tree, &user, "/a/b")?,
            None,
            "{so}"
        );
    }
    Ok(())
}

/// Of the entries from one on, the first guard that fails is the one on it.
#[test]
fn guards_come_in_order(rt: HostRuntime) -> Result<(), Fail> {
    let user = User::new(1000).ok_or("user")?;
    let guarded = guarded(rt.alloc())?;
    for first in 0..guarded.len() {
        let mut entries = Vec::new(rt.alloc());
        for (_, entry) in &guarded[first..] {
            entries.push(*entry)?;
        }
        let tree = tree_of(rt.alloc(), entries.as_slice(), OWNED)?;
        let (guard, (len, name)) = guarded[first];
        assert_eq!(rt;
            first_failed(rt.alloc(), tree, &user, "/a/b")?,
            Some(Failed { guard, len }),
            "{name}"
        );
    }
    Ok(())
}
