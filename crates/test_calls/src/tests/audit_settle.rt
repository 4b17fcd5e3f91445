//! `audit_all_settled_bytes`, and `audit_settled_bytes` which writes the first pair alone, on rows worked out by hand; `audit` has
//! their faults.
use super::calls::{Call, expect};
use super::changed::{Change, ROOT, SECOND_USER, delegation_with};
use crate::tests::users::{USER, user};
use std::test::Fail;

/// User 1002 owns the root's directory. They can't remove `/c0` while a cgroup is in it, which user 1000 can remove.
const THIRD_USER: Change = (ROOT, "enabled = [\"memory\"]\ndir = { uid = 1002 }\n");

#[test]
fn a_user_is_listed_by_what_all_without_a_list_reach(rt: HostRuntime) -> Result<(), Fail> {
    let second = user(1001, &[]);
    let third = user(1002, &[]);
    let other = user(1003, &[]);
    let escapes = "pair 1001 /c0\nescapes\nset /c0 memory.max max\n";
    let open = "pair 1002 /c0\nunsettled parent-dir /\n";
    let both =
        "pair 1001 /c0\nescapes\nset /c0 memory.max max\npair 1002 /c0\nunsettled parent-dir /\n";
    let turned =
        "pair 1002 /c0\nunsettled parent-dir /\npair 1001 /c0\nescapes\nset /c0 memory.max max\n";
    let tree = delegation_with(rt.alloc(), &[THIRD_USER, SECOND_USER])?;
    for (users, report, status) in [
        ([third].as_slice(), "contained\n", 0),
        (&[third, other], "contained\n", 0),
        (&[USER], "contained\n", 0),
        (&[USER, third], open, 2),
        (&[third, third, USER], open, 2),
        (&[second, third], escapes, 1),
        (&[second, other, third], escapes, 1),
        (&[USER, second, third], both, 1),
        (&[third, second, USER], turned, 1),
        (&[], "contained\n", 0),
    ] {
        let call = Call::AuditAllSettled(users, &["/c0"]);
        expect(&rt, rt.alloc(), tree.as_bytes(), call, report, status);
    }
    Ok(())
}

#[test]
fn pairs_are_by_user_and_then_subtree(rt: HostRuntime) -> Result<(), Fail> {
    let second = user(1001, &[]);
    let third = user(1002, &[]);
    let both =
        "pair 1002 /c1\nunsettled parent-dir /\npair 1002 /c0\nunsettled parent-dir /\npair 1001 /c0\nescapes\nset /c0 memory.max max\n";
    let tree = delegation_with(rt.alloc(), &[THIRD_USER, SECOND_USER])?;
    for (users, subtrees, report, status) in [
        (
            [third, USER, second].as_slice(),
            ["/c1", "/c0"].as_slice(),
            both,
            1,
        ),
        (
            &[third, USER, second, third],
            &["/c1", "/c0", "/c1"],
            both,
            1,
        ),
        (&[third, second], &["/c1"], "contained\n", 0),
        (&[third], &[], "contained\n", 0),
    ] {
        let call = Call::AuditAllSettled(users, subtrees);
        expect(&rt, rt.alloc(), tree.as_bytes(), call, report, status);
    }
    Ok(())
}

#[test]
fn the_first_pair_is_written_alone(rt: HostRuntime) -> Result<(), Fail> {
    let second = user(1001, &[]);
    let third = user(1002, &[51]);
    let escapes = "pair 1001 /c0\nescapes\nset /c0 memory.max max\n";
    let open = "pair 1002 /c1\nunsettled parent-dir /\n";
    let tree = delegation_with(rt.alloc(), &[THIRD_USER, SECOND_USER])?;
    for (users, subtrees, report, status) in [
        (
            [third].as_slice(),
            ["/c0", "/c1"].as_slice(),
            "contained\n",
            0,
        ),
        (&[USER, third, second], &["/c1", "/c0"], open, 2),
        (&[USER, second, third], &["/c1", "/c0"], escapes, 1),
        (&[second, third, third], &["/c0", "/c1", "/c0"], escapes, 1),
        (&[second, third], &["/c1"], "contained\n", 0),
        (&[], &["/c0"], "contained\n", 0),
        (&[second], &[], "contained\n", 0),
    ] {
        let call = Call::AuditSettled(users, subtrees);
        expect(&rt, rt.alloc(), tree.as_bytes(), call, report, status);
    }
    Ok(())
}
