//! `explain_bytes` on rows worked out by hand; `audit` has its faults.
use super::calls::{Call, expect, expect_fault};
use super::changed::{Change, OTHERS, ROOT, SECOND_USER, TOO_MANY, delegation_with};
use crate::tests::users::{USER, user};
use cg_faults::fault::CliFault;
use cg_model::fault::CheckFault;
use std::test::Fail;

/// User 1002 owns the root's directory. They can't remove `/c0` while a cgroup is in it, which user 1000 can remove.
const THIRD_USER: Change = (ROOT, "enabled = [\"memory\"]\ndir = { uid = 1002 }\n");

const HOLDS: &str = "pair 1000 /c0
holds common-ancestor / cgroup.procs 0:0 644
holds limit-file /c0 cgroup.max.descendants 0:0 644
holds limit-file /c0 cgroup.max.depth 0:0 644
holds limit-file /c0 memory.min 0:0 644
holds limit-file /c0 memory.low 0:0 644
holds limit-file /c0 memory.high 0:0 644
holds limit-file /c0 memory.max 0:0 644
holds parent-control / cgroup.subtree_control 0:0 644
holds parent-dir / dir 0:0 755
holds already-over /c0 cgroup.max.descendants 2 4
holds already-over /c0 cgroup.max.depth 1 2
contained
";

const ESCAPES: &str = "pair 1001:7,8 /c0
holds common-ancestor / cgroup.procs 0:0 644
holds limit-file /c0 cgroup.max.descendants 0:0 644
holds limit-file /c0 cgroup.max.depth 0:0 644
holds limit-file /c0 memory.min 0:0 644
holds limit-file /c0 memory.low 0:0 644
holds limit-file /c0 memory.high 0:0 644
fails limit-file /c0 memory.max 1001:0 644 owner
holds parent-control / cgroup.subtree_control 0:0 644
holds parent-dir / dir 0:0 755
holds stays /c0 spared
holds control / cpu off
holds control / memory on
holds control / pids off
fails files /c0 reached
holds already-over /c0 cgroup.max.descendants 2 4
holds already-over /c0 cgroup.max.depth 1 2
escapes
";

const SETTLED: &str = "pair 1002 /c0
holds common-ancestor / cgroup.procs 0:0 644
holds limit-file /c0 cgroup.max.descendants 0:0 644
holds limit-file /c0 cgroup.max.depth 0:0 644
holds limit-file /c0 memory.min 0:0 644
holds limit-file /c0 memory.low 0:0 644
holds limit-file /c0 memory.high 0:0 644
holds limit-file /c0 memory.max 0:0 644
holds parent-control / cgroup.subtree_control 0:0 644
fails parent-dir / dir 1002:0 755 owner
holds stays /c0 upheld
holds control / cpu off
holds control / memory on
holds control / pids off
holds files /c0 spared
holds already-over /c0 cgroup.max.descendants 2 4
holds already-over /c0 cgroup.max.depth 1 2
contained
";

#[test]
fn each_guard_is_told(rt: HostRuntime) -> Result<(), Fail> {
    let tree = delegation_with(rt.alloc(), &[])?;
    let users = [USER, USER];
    let call = Call::Explain(&users, &["/c0", "/c0"]);
    expect(&rt, rt.alloc(), tree.as_bytes(), call, HOLDS, 0);
    Ok(())
}

#[test]
fn the_second_row_is_told_where_a_guard_fails(rt: HostRuntime) -> Result<(), Fail> {
    let tree = delegation_with(rt.alloc(), &[THIRD_USER])?;
    let users = [user(1002, &[])];
    let call = Call::Explain(&users, &["/c0"]);
    expect(&rt, rt.alloc(), tree.as_bytes(), call, SETTLED, 0);
    let tree = delegation_with(rt.alloc(), &[SECOND_USER])?;
    let users = [user(1001, &[7, 8])];
    let call = Call::Explain(&users, &["/c0"]);
    expect(&rt, rt.alloc(), tree.as_bytes(), call, ESCAPES, 1);
    let users = [USER, user(1001, &[7, 8])];
    let both = format!(in rt.alloc(); "{HOLDS}{ESCAPES}")?;
    let both = both.replace(
        rt.alloc(),
        "memory.max 0:0 644\n",
        "memory.max 1001:0 644\n",
    )?;
    let call = Call::Explain(&users, &["/c0"]);
    expect(&rt, rt.alloc(), tree.as_bytes(), call, both.as_str(), 1);
    Ok(())
}

/// The lines of controllers are those of the three and of what else the root has.
#[test]
fn other_controllers_are_told(rt: HostRuntime) -> Result<(), Fail> {
    let [format, controllers] = OTHERS;
    let tree = delegation_with(rt.alloc(), &[format, controllers, SECOND_USER])?;
    let users = [user(1001, &[7, 8])];
    let told = ESCAPES
        .replace(rt.alloc(), "cpu off\n", "cpu off\nholds control / io off\n")?
        .replace(
            rt.alloc(),
            "pids off\n",
            "pids off\nholds control / dmem off\n",
        )?;
    let call = Call::Explain(&users, &["/c0"]);
    expect(&rt, rt.alloc(), tree.as_bytes(), call, told.as_str(), 1);
    Ok(())
}

#[test]
fn a_limit_that_is_exceeded_fails(rt: HostRuntime) -> Result<(), Fail> {
    let tree = delegation_with(rt.alloc(), &[TOO_MANY])?;
    let users = [USER];
    let mut out = Vec::new(rt.alloc());
    let call = Call::Explain(&users, &["/c0"]);
    assert_eq!(rt; call.make(rt.alloc(), tree.as_bytes(), &mut out), Ok(1));
    let end =
        b"fails already-over /c0 cgroup.max.descendants 2 1\nholds already-over /c0 cgroup.max.depth 1 2\nescapes\n";
    assert!(rt; out.as_slice().ends_with(end));
    Ok(())
}

#[test]
fn faults_are_those_of_audit(rt: HostRuntime) -> Result<(), Fail> {
    let root = user(0, &[]);
    let tree = delegation_with(rt.alloc(), &[])?;
    for (users, subtrees, fault) in [
        ([USER, root].as_slice(), ["a"].as_slice(), CliFault::Uid),
        (&[USER], &["/c0", "a"], CliFault::BadPath),
        (
            &[USER],
            &["/c0", "/"],
            CliFault::Subtree(CheckFault::RootSubtree),
        ),
        (&[], &["/no"], CliFault::Subtree(CheckFault::NoSuchSubtree)),
    ] {
        let call = Call::Explain(users, subtrees);
        expect_fault(&rt, rt.alloc(), tree.as_bytes(), call, fault);
    }
    Ok(())
}
