//! `audit_bytes` on rows worked out by hand, and on faults, of which those of the other audits are the same.
use super::calls::{Call, expect, expect_fault};
use super::changed::{FORMAT_2, GROUP_WRITES, SECOND_USER, delegation_with};
use crate::tests::users::{MANY_GROUPS, USER, user};
use cg_faults::fault::CliFault;
use cg_model::fault::CheckFault;
use cg_text::tree::{Place, TreeFault};
use std::alloc::Global;
use std::test::Fail;
use test_trees::texts::{DELEGATION, NO_PARENT};

#[test]
fn all_is_contained_or_the_first_pair_is_named(rt: HostRuntime) -> Result<(), Fail> {
    let (first, second) = (USER, user(1001, &[]));
    let escape = "pair 1001 /c0\nescapes\nset /c0 memory.max max\n";
    let below = "pair 1000 /c0/c00\nescapes\nset /c0/c00 cgroup.max.descendants 0\n";
    let tree = delegation_with(rt.alloc(), &[SECOND_USER])?;
    for (users, subtrees, report, status) in [
        (
            [first, second].as_slice(),
            ["/c0", "/c1"].as_slice(),
            escape,
            1,
        ),
        (&[second, first], &["/c1", "/c0"], escape, 1),
        (&[second, second], &["/c0", "/c0"], escape, 1),
        (&[first, second], &["/c1"], "contained\n", 0),
        (&[first, first], &["/c0", "/c1"], "contained\n", 0),
        (&[], &["/c0"], "contained\n", 0),
        (&[second], &[], "contained\n", 0),
        (&[first], &["/c0", "/c0/c00"], below, 1),
    ] {
        let call = Call::Audit(users, subtrees);
        expect(&rt, rt.alloc(), tree.as_bytes(), call, report, status);
    }
    let users = [first, second];
    let call = Call::Audit(&users, &["/c0", "/c1"]);
    expect(&rt, rt.alloc(), DELEGATION, call, "contained\n", 0);
    Ok(())
}

#[test]
fn two_users_of_one_uid_differ_by_their_groups(rt: HostRuntime) -> Result<(), Fail> {
    let member = user(1000, &[50]);
    let escape = "pair 1000 /c0\nescapes\nmove 10 /c0\n";
    let tree = delegation_with(rt.alloc(), &[FORMAT_2, GROUP_WRITES])?;
    for (users, report, status) in [
        ([USER].as_slice(), "contained\n", 0),
        (&[USER, member], escape, 1),
    ] {
        let call = Call::Audit(users, &["/c0"]);
        expect(&rt, rt.alloc(), tree.as_bytes(), call, report, status);
    }
    Ok(())
}

/// `/p0` to `/p7`, each with the subtree `s`: `cgroup.procs` of each belongs to a user and a group of its own, who write it.
fn own_owners(alloc: Global) -> Result<String, Fail> {
    let mut text = String::from_str(
        alloc,
        "format = 2\ncontrollers = []\n[[cgroup]]\npath = \"/\"\n",
    )?;
    for place in 0u32..8 {
        text = format!(in alloc;
            "{text}[[cgroup]]\npath = \"/p{place}\"\n[cgroup.files]\n\"cgroup.procs\" = {{ uid = 200{place}, gid = 30{place}, mode = 0o664 }}\n[[cgroup]]\npath = \"/p{place}/s\"\n"
        )?;
    }
    Ok(text)
}

#[test]
fn owners_of_their_own_are_told_apart(rt: HostRuntime) -> Result<(), Fail> {
    let tree = own_owners(rt.alloc())?;
    let stranger = user(1000, &[50]);
    let owner = user(2005, &[]);
    let member = user(1001, &[51, 302]);
    let subtrees = ["/p0/s", "/p2/s", "/p4/s", "/p5/s", "/p7/s"];
    for (users, report, status) in [
        ([stranger, user(2003, &[301])].as_slice(), "contained\n", 0),
        (
            &[stranger, owner, member],
            "pair 2005 /p5/s\nunsettled common-ancestor /p5\n",
            2,
        ),
        (
            &[stranger, member, owner],
            "pair 1001 /p2/s\nunsettled common-ancestor /p2\n",
            2,
        ),
    ] {
        let call = Call::Audit(users, &subtrees);
        expect(&rt, rt.alloc(), tree.as_bytes(), call, report, status);
    }
    Ok(())
}

#[test]
fn the_first_fault_is_said_and_nothing_written(rt: HostRuntime) {
    let (root, grouped) = (user(0, &[]), user(1000, MANY_GROUPS));
    let no_root = CliFault::Subtree(CheckFault::RootSubtree);
    let missing = CliFault::Subtree(CheckFault::NoSuchSubtree);
    let no_parent = CliFault::Tree(TreeFault::NoParent(Place::Cgroup(2)));
    for (tree, users, subtrees, fault) in [
        (
            DELEGATION,
            [USER, root].as_slice(),
            ["zz"].as_slice(),
            CliFault::Uid,
        ),
        (DELEGATION, &[grouped, root], &["zz"], CliFault::Gids),
        (DELEGATION, &[root, grouped], &["zz"], CliFault::Uid),
        (DELEGATION, &[USER, USER, root], &["zz"], CliFault::Uid),
        (NO_PARENT, &[USER], &["/zz", "zz"], CliFault::BadPath),
        (NO_PARENT, &[USER], &["/zz", "/"], no_parent),
        (DELEGATION, &[USER], &["/zz", "/"], missing),
        (DELEGATION, &[USER], &["/", "/zz"], no_root),
        (DELEGATION, &[], &["/c0", "/zz"], missing),
        (DELEGATION, &[], &["/c0", "/c0", "/zz"], missing),
    ] {
        for call in [
            Call::Audit(users, subtrees),
            Call::AuditAll(users, subtrees),
            Call::AuditSettled(users, subtrees),
            Call::AuditAllSettled(users, subtrees),
        ] {
            expect_fault(&rt, rt.alloc(), tree, call, fault);
        }
    }
}
