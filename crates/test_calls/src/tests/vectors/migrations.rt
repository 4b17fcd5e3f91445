//! Single migrations: what is said of one, and of arguments that are none's.
use super::{Asked, expect_line};
use crate::tests::users::{MANY_GROUPS, MOST_GROUPS};
use cg_cli::arguments::UserIds;
use cg_cli::may::may_bytes;
use cg_faults::fault::fault_text;
use std::alloc::Global;
use std::str::from_utf8;
use std::test::Fail;
use test_trees::texts::{DELEGATION, INTERNAL_PROCESS, NO_PARENT, PARENT_DELEGATED};

const NO_ACCESS: &str = "refused no-access / cgroup.procs";

const NO_ACCESS_BELOW: &str = "refused no-access /p/s cgroup.procs";

const INTERNAL: &str = "fault: tree internal-process process 1";

/// A tree, a process and where user 1000 moves it, and what is said.
const MOVES: [(&[u8], u32, &str, &str); 11] = [
    (DELEGATION, 10, "/", NO_ACCESS),
    (DELEGATION, 10, "/c0/c00", NO_ACCESS),
    (DELEGATION, 11, "/c0/c01", "granted"),
    (DELEGATION, 11, "/c0/c00", "granted"),
    (DELEGATION, 11, "/c0", "granted"),
    (DELEGATION, 99, "/c0/c00", "refused no-such-process 99"),
    (DELEGATION, 11, "/zz", "refused no-such-cgroup /zz"),
    (PARENT_DELEGATED, 20, "/p", "refused internal-process /p"),
    (PARENT_DELEGATED, 20, "/p/s", NO_ACCESS_BELOW),
    (NO_PARENT, 10, "/a", "fault: tree no-parent cgroup 2"),
    (INTERNAL_PROCESS, 10, "/a", INTERNAL),
];

#[test]
fn moves_within_and_over_an_edge(rt: HostRuntime) -> Result<(), Fail> {
    for (tree, pid, to, line) in MOVES {
        let asked = Asked { gids: &[], pid, to };
        expect_line(&rt, rt.alloc(), tree, asked, line)?;
    }
    Ok(())
}

/// The line of the fault that a move over a tree has, or nothing where it has none or something is written.
fn fault_line(
    alloc: Global,
    tree: &[u8],
    user: UserIds<'_>,
    pid: u32,
    to: &str,
) -> Result<Option<Vec<u8>>, Fail> {
    let mut out = Vec::new(alloc);
    match may_bytes(alloc, tree, user, pid, to, &mut None, &mut out) {
        Err(fault) if out.is_empty() => Ok(Some(fault_text(alloc, &fault)?)),
        _ => Ok(None),
    }
}

#[test]
fn arguments_that_are_no_migration(rt: HostRuntime) -> Result<(), Fail> {
    for (uid, gids, pid, to, line) in [
        (0, [].as_slice(), 11, "/c0/c01", "fault: uid\n"),
        (0, MANY_GROUPS, 0, "c0", "fault: uid\n"),
        (1000, MANY_GROUPS, 0, "c0", "fault: gid\n"),
        (1000, MOST_GROUPS, 0, "/c0/c01", "fault: pid\n"),
        (1000, [].as_slice(), 4194304, "c0", "fault: pid\n"),
        (1000, [].as_slice(), 11, "c0", "fault: path\n"),
        (1000, [].as_slice(), 4194303, "", "fault: path\n"),
    ] {
        let user = UserIds { uid, gids };
        let said = fault_line(rt.alloc(), DELEGATION, user, pid, to)?.ok_or("no fault")?;
        assert_eq!(rt; from_utf8(said.as_slice())?, line);
        let said = fault_line(rt.alloc(), b"\xff", user, pid, to)?.ok_or("no fault")?;
        assert_eq!(rt; from_utf8(said.as_slice())?, line, "before the tree");
    }
    Ok(())
}
