//! `audit_all_bytes` on rows worked out by hand; `audit` has its faults.
use super::calls::{Call, expect};
use super::changed::{Change, FORMAT_2, GROUP_WRITES, ROOT, SECOND_USER, delegation_with};
use crate::tests::users::{USER, user};
use std::test::Fail;

/// User 1002 owns the root's directory.
const THIRD_USER: Change = (ROOT, "enabled = [\"memory\"]\ndir = { uid = 1002 }\n");

#[test]
fn every_pair_that_is_not_contained_is_listed_once(rt: HostRuntime) -> Result<(), Fail> {
    let (first, second) = (USER, user(1001, &[]));
    let escape = "pair 1001 /c0\nescapes\nset /c0 memory.max max\n";
    let inner = "pair 1000 /c0/c00\nescapes\nset /c0/c00 cgroup.max.descendants 0\n";
    let both =
        "pair 1000 /c0/c00\nescapes\nset /c0/c00 cgroup.max.descendants 0\npair 1001 /c0\nescapes\nset /c0 memory.max max\n";
    let turned =
        "pair 1001 /c0\nescapes\nset /c0 memory.max max\npair 1000 /c0/c00\nescapes\nset /c0/c00 cgroup.max.descendants 0\n";
    let tree = delegation_with(rt.alloc(), &[SECOND_USER])?;
    for (users, subtrees, report, status) in [
        (
            [first, second].as_slice(),
            ["/c0", "/c1"].as_slice(),
            escape,
            1,
        ),
        (&[first, second], &["/c0", "/c0/c00", "/c1"], both, 1),
        (&[second, first], &["/c0/c00", "/c0"], turned, 1),
        (&[first], &["/c0", "/c0/c00"], inner, 1),
        (
            &[second, first, second],
            &["/c0/c00", "/c0", "/c0"],
            turned,
            1,
        ),
        (&[first, second, first], &["/c0", "/c0/c00", "/c0"], both, 1),
        (&[second, second], &["/c0", "/c0"], escape, 1),
        (&[first, second], &["/c1"], "contained\n", 0),
        (&[first, first], &["/c0", "/c1"], "contained\n", 0),
        (&[], &["/c0"], "contained\n", 0),
        (&[second], &[], "contained\n", 0),
    ] {
        let call = Call::AuditAll(users, subtrees);
        expect(&rt, rt.alloc(), tree.as_bytes(), call, report, status);
    }
    Ok(())
}

#[test]
fn the_status_is_the_worst(rt: HostRuntime) -> Result<(), Fail> {
    let escaping = user(1001, &[]);
    let unsettled = user(1002, &[]);
    let other = user(1003, &[]);
    let escapes = "pair 1001 /c0\nescapes\nset /c0 memory.max max\n";
    let open = "pair 1002 /c0\nunsettled parent-dir /\n";
    let first =
        "pair 1001 /c0\nescapes\nset /c0 memory.max max\npair 1002 /c0\nunsettled parent-dir /\n";
    let last =
        "pair 1002 /c0\nunsettled parent-dir /\npair 1001 /c0\nescapes\nset /c0 memory.max max\n";
    let tree = delegation_with(rt.alloc(), &[THIRD_USER, SECOND_USER])?;
    for (users, report, status) in [
        ([escaping, unsettled, other].as_slice(), first, 1),
        (&[unsettled, other, escaping], last, 1),
        (&[other, unsettled], open, 2),
        (&[escaping, other], escapes, 1),
        (&[other], "contained\n", 0),
    ] {
        let call = Call::AuditAll(users, &["/c0"]);
        expect(&rt, rt.alloc(), tree.as_bytes(), call, report, status);
    }
    Ok(())
}

#[test]
fn a_pair_names_its_groups(rt: HostRuntime) -> Result<(), Fail> {
    let member = user(1000, &[50]);
    let second = user(1000, &[7, 50, 8]);
    let turned = user(1000, &[50, 7, 8]);
    let report =
        "pair 1000:50 /c0\nescapes\nmove 10 /c0\npair 1000:7,50,8 /c0\nescapes\nmove 10 /c0\npair 1000:50,7,8 /c0\nescapes\nmove 10 /c0\n";
    let tree = delegation_with(rt.alloc(), &[FORMAT_2, GROUP_WRITES])?;
    let users = [USER, member, second, turned, member];
    let call = Call::AuditAll(&users, &["/c0"]);
    expect(&rt, rt.alloc(), tree.as_bytes(), call, report, 1);
    Ok(())
}
