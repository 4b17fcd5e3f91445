//! `may_bytes` on rows worked out by hand, and on faults.
use super::calls::{Call, expect, expect_fault};
use crate::tests::users::{MANY_GROUPS, MOST_GROUPS, USER, user};
use cg_faults::fault::{CliFault, fault_text};
use cg_text::tree::{Place, TreeFault};
use std::test::Fail;
use test_trees::texts::{DELEGATION, INTERNAL_PROCESS, NO_PARENT, PARENT_DELEGATED};

#[test]
fn moves_are_granted_or_refused(rt: HostRuntime) {
    let alloc = rt.alloc();
    for (uid, pid, to, report, status) in [
        (1000, 10, "/c0/c00", "refused no-access / cgroup.procs\n", 1),
        (1000, 11, "/c0/c01", "granted\n", 0),
        (
            1001,
            11,
            "/c0/c01",
            "refused no-access /c0/c01 cgroup.procs\n",
            1,
        ),
        (1000, 99, "/c0/c00", "refused no-such-process 99\n", 1),
        (
            1001,
            99,
            "/c0/c00",
            "refused no-access /c0/c00 cgroup.procs\n",
            1,
        ),
        (1000, 11, "/zz", "refused no-such-cgroup /zz\n", 1),
        (1000, 10, "/", "refused no-access / cgroup.procs\n", 1),
    ] {
        let call = Call::May(user(uid, &[]), pid, to);
        expect(&rt, alloc, DELEGATION, call, report, status);
    }
    let call = Call::May(USER, 20, "/p");
    expect(
        &rt,
        alloc,
        PARENT_DELEGATED,
        call,
        "refused internal-process /p\n",
        1,
    );
}

#[test]
fn the_first_fault_is_said_and_nothing_written(rt: HostRuntime) {
    let most = MOST_GROUPS;
    for (uid, gids, pid, to, fault) in [
        (0, MANY_GROUPS, 0, "c0", CliFault::Uid),
        (1000, MANY_GROUPS, 0, "c0", CliFault::Gids),
        (1000, most, 0, "c0", CliFault::Pid),
        (1000, most, 4194304, "c0", CliFault::Pid),
        (1000, most, 4194303, "c0", CliFault::BadPath),
        (1000, most, 10, "", CliFault::BadPath),
        (1000, most, 10, "/c0/cgroup.procs", CliFault::BadPath),
    ] {
        let call = Call::May(user(uid, gids), pid, to);
        expect_fault(&rt, rt.alloc(), DELEGATION, call, fault);
    }
}

#[test]
fn a_fault_of_the_tree_has_its_line(rt: HostRuntime) -> Result<(), Fail> {
    let no_parent = CliFault::Tree(TreeFault::NoParent(Place::Cgroup(2)));
    let internal = CliFault::Tree(TreeFault::InternalProcess(Place::Process(1)));
    for (tree, fault, line) in [
        (NO_PARENT, no_parent, "fault: tree no-parent cgroup 2\n"),
        (
            INTERNAL_PROCESS,
            internal,
            "fault: tree internal-process process 1\n",
        ),
    ] {
        expect_fault(&rt, rt.alloc(), tree, Call::May(USER, 10, "/a"), fault);
        let text = fault_text(rt.alloc(), &fault)?;
        assert_eq!(rt; text.as_slice(), line.as_bytes());
    }
    Ok(())
}
