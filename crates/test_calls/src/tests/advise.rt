//! `advise_bytes` and `advise_pairs_bytes` on rows worked out by hand, and at writers that fail and dawdle; `check` has its faults.
use super::answers_written::Written;
use super::calls::{Call, expect, expect_fault};
use crate::tests::users::{USER, user};
use cg_cli::pairs::PairIds;
use cg_faults::fault::CliFault;
use cg_model::fault::CheckFault;
use std::alloc::Global;
use std::process::Abort;
use std::test::Fail;

/// What is said of user 1000 and `/a/b`, below which are `/a/b/c` and `/a/b/c/d`. What isn't named is root's.
#[derive(Drop)]
struct Row {
    pub root: &'static str,
    pub parent: &'static str,
    pub subtree: &'static str,
    pub gids: &'static [u32],
    pub report: &'static str,
}

impl Row {
    fn text(&self, alloc: Global) -> Result<String, Fail> {
        let mut text = String::from_str(
            alloc,
            "format = 2\ncontrollers = [\"memory\"]\n[[cgroup]]\npath = \"/\"\nenabled = [\"memory\"]\n",
        )?;
        text.push_str(self.root)?;
        text.push_str("[[cgroup]]\npath = \"/a\"\nenabled = [\"memory\"]\n")?;
        text.push_str(self.parent)?;
        text.push_str("[[cgroup]]\npath = \"/a/b\"\n")?;
        text.push_str(self.subtree)?;
        text.push_str("[[cgroup]]\npath = \"/a/b/c\"\n[[cgroup]]\npath = \"/a/b/c/d\"\n")?;
        Ok(text)
    }
}

const NO_REASON: Row = Row {
    root: "",
    parent: "",
    subtree: "",
    gids: &[5],
    report: "contained\n",
};

const OF_ANCESTORS: [Row; 8] = [
    Row {
        root: "[cgroup.files]\n\"cgroup.procs\" = { uid = 1000, gid = 5 }\n",
        gids: &[],
        report: "fails common-ancestor / cgroup.procs 1000:5 644 owner\nchown / cgroup.procs 0:5\n",
        ..NO_REASON
    },
    Row {
        root: "[cgroup.files]\n\"cgroup.procs\" = { uid = 1000, gid = 5 }\n",
        report: "fails common-ancestor / cgroup.procs 1000:5 644 owner\nchown / cgroup.procs 0:5\n",
        ..NO_REASON
    },
    Row {
        root: "[cgroup.files]\n\"cgroup.procs\" = { uid = 1000, gid = 5, mode = 0o664 }\n",
        report: "fails common-ancestor / cgroup.procs 1000:5 664 owner\nchown / cgroup.procs 0:5\nchmod / cgroup.procs 644\n",
        ..NO_REASON
    },
    Row {
        root: "[cgroup.files]\n\"cgroup.procs\" = { uid = 1000, gid = 7, mode = 0o646 }\n",
        report: "fails common-ancestor / cgroup.procs 1000:7 646 owner\nchown / cgroup.procs 0:7\nchmod / cgroup.procs 644\n",
        ..NO_REASON
    },
    Row {
        parent: "[cgroup.files]\n\"cgroup.procs\" = { uid = 1000, mode = 0o400 }\n",
        report: "fails common-ancestor /a cgroup.procs 1000:0 400 owner\nchown /a cgroup.procs 0:0\n",
        ..NO_REASON
    },
    Row {
        parent: "[cgroup.files]\n\"cgroup.procs\" = { uid = 9, gid = 5, mode = 0o666 }\n",
        report: "fails common-ancestor /a cgroup.procs 9:5 666 group\nchmod /a cgroup.procs 646\n",
        ..NO_REASON
    },
    Row {
        parent: "[cgroup.files]\n\"cgroup.procs\" = { gid = 7, mode = 0o666 }\n",
        report: "fails common-ancestor /a cgroup.procs 0:7 666 others\nchmod /a cgroup.procs 664\n",
        ..NO_REASON
    },
    Row {
        root: "[cgroup.files]\n\"cgroup.procs\" = { mode = 0o646 }\n",
        parent: "[cgroup.files]\n\"cgroup.procs\" = { uid = 1000 }\n",
        report: "fails common-ancestor /a cgroup.procs 1000:0 644 owner\nchown /a cgroup.procs 0:0\nfails common-ancestor / cgroup.procs 0:0 646 others\nchmod / cgroup.procs 644\n",
        ..NO_REASON
    },
];

const OF_FILES: [Row; 4] = [
    Row {
        subtree: "[cgroup.files]\n\"memory.max\" = { gid = 50, mode = 0o664 }\n",
        gids: &[5, 50],
        report: "fails limit-file /a/b memory.max 0:50 664 group\nchmod /a/b memory.max 644\n",
        ..NO_REASON
    },
    Row {
        subtree: "[cgroup.files]\n\"memory.max\" = { uid = 1000, mode = 0o444 }\n",
        report: "fails limit-file /a/b memory.max 1000:0 444 owner\nchown /a/b memory.max 0:0\n",
        ..NO_REASON
    },
    Row {
        subtree: "[cgroup.files]\n\"memory.low\" = { mode = 0o606 }\n",
        report: "fails limit-file /a/b memory.low 0:0 606 others\nchmod /a/b memory.low 604\n",
        ..NO_REASON
    },
    Row {
        subtree: "[cgroup.files]\n\"cgroup.max.depth\" = { uid = 1000 }\n\"cgroup.max.descendants\" = { gid = 5, mode = 0o060 }\n",
        report: "fails limit-file /a/b cgroup.max.descendants 0:5 060 group\nchmod /a/b cgroup.max.descendants 040\nfails limit-file /a/b cgroup.max.depth 1000:0 644 owner\nchown /a/b cgroup.max.depth 0:0\n",
        ..NO_REASON
    },
];

const OF_THE_PARENT: [Row; 7] = [
    Row {
        parent: "[cgroup.files]\n\"cgroup.subtree_control\" = { uid = 1000 }\n",
        report: "fails parent-control /a cgroup.subtree_control 1000:0 644 owner\nchown /a cgroup.subtree_control 0:0\n",
        ..NO_REASON
    },
    Row {
        parent: "[cgroup.files]\n\"cgroup.subtree_control\" = { gid = 5, mode = 0o664 }\n",
        report: "fails parent-control /a cgroup.subtree_control 0:5 664 group\nchmod /a cgroup.subtree_control 644\n",
        ..NO_REASON
    },
    Row {
        parent: "[cgroup.files]\n\"cgroup.subtree_control\" = { mode = 0o002 }\n",
        report: "fails parent-control /a cgroup.subtree_control 0:0 002 others\nchmod /a cgroup.subtree_control 000\n",
        ..NO_REASON
    },
    Row {
        parent: "dir = { uid = 1000 }\n",
        report: "fails parent-dir /a dir 1000:0 755 owner\nchown /a dir 0:0\n",
        ..NO_REASON
    },
    Row {
        parent: "dir = { gid = 5, mode = 0o775 }\n",
        report: "fails parent-dir /a dir 0:5 775 group\nchmod /a dir 755\n",
        ..NO_REASON
    },
    Row {
        parent: "dir = { mode = 0o777 }\n",
        gids: &[],
        report: "fails parent-dir /a dir 0:0 777 others\nchmod /a dir 775\n",
        ..NO_REASON
    },
    // who writes what is further up, and isn't a common ancestor's, isn't asked about
    Row {
        root: "dir = { uid = 1000 }\n[cgroup.files]\n\"cgroup.subtree_control\" = { uid = 1000 }\n",
        ..NO_REASON
    },
];

const OF_LIMITS: [Row; 5] = [
    Row {
        subtree: "[cgroup.files]\n\"cgroup.max.descendants\" = { value = 1 }\n",
        report: "fails already-over /a/b\nset /a/b cgroup.max.descendants 2\n",
        ..NO_REASON
    },
    Row {
        subtree: "[cgroup.files]\n\"cgroup.max.depth\" = { value = 0 }\n",
        report: "fails already-over /a/b\nset /a/b cgroup.max.depth 2\n",
        ..NO_REASON
    },
    Row {
        subtree: "[cgroup.files]\n\"cgroup.max.depth\" = { value = 1 }\n\"cgroup.max.descendants\" = { value = 0 }\n",
        report: "fails already-over /a/b\nset /a/b cgroup.max.descendants 2\nset /a/b cgroup.max.depth 2\n",
        ..NO_REASON
    },
    Row {
        subtree: "[cgroup.files]\n\"cgroup.max.depth\" = { value = 2 }\n\"cgroup.max.descendants\" = { value = 2 }\n",
        ..NO_REASON
    },
    Row {
        root: "[cgroup.files]\n\"cgroup.procs\" = { uid = 1000, mode = 0o666 }\n",
        parent: "dir = { mode = 0o757 }\n[cgroup.files]\n\"cgroup.subtree_control\" = { gid = 5, mode = 0o664 }\n",
        subtree: "[cgroup.files]\n\"memory.min\" = { uid = 1000 }\n\"cgroup.max.depth\" = { value = 1 }\n",
        report: "fails common-ancestor / cgroup.procs 1000:0 666 owner\nchown / cgroup.procs 0:0\nchmod / cgroup.procs 664\nfails limit-file /a/b memory.min 1000:0 644 owner\nchown /a/b memory.min 0:0\nfails parent-control /a cgroup.subtree_control 0:5 664 group\nchmod /a cgroup.subtree_control 644\nfails parent-dir /a dir 0:0 757 others\nchmod /a dir 755\nfails already-over /a/b\nset /a/b cgroup.max.depth 2\n",
        ..NO_REASON
    },
];

fn expect_report(rt: &impl Abort, alloc: Global, row: &Row) -> Result<(), Fail> {
    let text = row.text(alloc)?;
    let status = if row.report == "contained\n" { 0 } else { 1 };
    let users = [user(1000, row.gids)];
    let call = Call::Advise(&users, &["/a/b"]);
    expect(rt, alloc, text.as_bytes(), call, row.report, status);
    Ok(())
}

#[test]
fn what_he_reaches_is_taken_from_him(rt: HostRuntime) -> Result<(), Fail> {
    expect_report(&rt, rt.alloc(), &NO_REASON)?;
    for rows in [
        OF_ANCESTORS.as_slice(),
        &OF_FILES,
        &OF_THE_PARENT,
        &OF_LIMITS,
    ] {
        for row in rows {
            expect_report(&rt, rt.alloc(), row)?;
        }
    }
    Ok(())
}

const OF_SEVERAL: [Row; 4] = [
    // by two classes of one entry, whose bits go together
    Row {
        root: "[cgroup.files]\n\"cgroup.procs\" = { gid = 50, mode = 0o666 }\n",
        report: "fails common-ancestor / cgroup.procs 0:50 666 group\nfails common-ancestor / cgroup.procs 0:50 666 others\nchmod / cgroup.procs 644\n",
        ..NO_REASON
    },
    // the owner isn't in the group, and writes as one of all others once the entry is root's
    Row {
        root: "[cgroup.files]\n\"cgroup.procs\" = { uid = 1000, gid = 50, mode = 0o666 }\n",
        report: "fails common-ancestor / cgroup.procs 1000:50 666 owner\nfails common-ancestor / cgroup.procs 1000:50 666 group\nchown / cgroup.procs 0:50\nchmod / cgroup.procs 644\n",
        ..NO_REASON
    },
    // an entry where it is met first, by users and then subtrees
    Row {
        parent: "dir = { gid = 50, mode = 0o775 }\n",
        subtree: "dir = { uid = 1000 }\n[cgroup.files]\n\"cgroup.procs\" = { gid = 50, mode = 0o664 }\n",
        report: "fails parent-dir /a/b dir 1000:0 755 owner\nchown /a/b dir 0:0\nfails parent-dir /a dir 0:50 775 group\nchmod /a dir 755\nfails common-ancestor /a/b cgroup.procs 0:50 664 group\nchmod /a/b cgroup.procs 644\n",
        ..NO_REASON
    },
    // limits at the end, each subtree's once
    Row {
        root: "[cgroup.files]\n\"cgroup.procs\" = { uid = 1001 }\n",
        subtree: "[cgroup.files]\n\"cgroup.max.depth\" = { value = 1 }\n",
        report: "fails common-ancestor / cgroup.procs 1001:0 644 owner\nchown / cgroup.procs 0:0\nfails already-over /a/b\nset /a/b cgroup.max.depth 2\n",
        ..NO_REASON
    },
];

#[test]
fn what_several_reach_is_taken_from_all(rt: HostRuntime) -> Result<(), Fail> {
    let users = [user(1000, &[]), user(1001, &[50]), user(1000, &[])];
    for row in &OF_SEVERAL {
        let text = row.text(rt.alloc())?;
        let call = Call::Advise(&users, &["/a/b", "/a/b/c", "/a/b"]);
        expect(&rt, rt.alloc(), text.as_bytes(), call, row.report, 1);
    }
    Ok(())
}

fn pair(uid: u32, gids: &'static [u32], subtree: &'static str) -> PairIds<'static> {
    PairIds {
        user: user(uid, gids),
        subtree,
    }
}

/// `/a` is 1000's, and `/a/b` 1001's, who may write the files of its group.
const HANDED_ON: Row = Row {
    parent: "dir = { uid = 1000 }\n[cgroup.files]\n\"cgroup.procs\" = { uid = 1000 }\n\"cgroup.subtree_control\" = { uid = 1000 }\n",
    subtree: "[cgroup.files]\n\"memory.max\" = { gid = 50, mode = 0o664 }\n",
    report: "fails limit-file /a/b memory.max 0:50 664 group\nchmod /a/b memory.max 644\n",
    ..NO_REASON
};

#[test]
fn of_pairs_nobody_is_asked_of_the_others_subtrees(rt: HostRuntime) -> Result<(), Fail> {
    let text = HANDED_ON.text(rt.alloc())?;
    let pairs = [pair(1000, &[], "/a"), pair(1001, &[50], "/a/b")];
    let call = Call::AdvisePairs(&pairs);
    expect(&rt, rt.alloc(), text.as_bytes(), call, HANDED_ON.report, 1);
    let again = [pairs[0], pairs[1], pairs[1], pairs[0]];
    let call = Call::AdvisePairs(&again);
    expect(&rt, rt.alloc(), text.as_bytes(), call, HANDED_ON.report, 1);
    let users = [user(1000, &[]), user(1001, &[50])];
    let all =
        "fails common-ancestor /a cgroup.procs 1000:0 644 owner\nchown /a cgroup.procs 0:0\nfails parent-control /a cgroup.subtree_control 1000:0 644 owner\nchown /a cgroup.subtree_control 0:0\nfails parent-dir /a dir 1000:0 755 owner\nchown /a dir 0:0\nfails limit-file /a/b memory.max 0:50 664 group\nchmod /a/b memory.max 644\n";
    let call = Call::Advise(&users, &["/a", "/a/b"]);
    expect(&rt, rt.alloc(), text.as_bytes(), call, all, 1);
    let call = Call::AdvisePairs(&[]);
    expect(&rt, rt.alloc(), text.as_bytes(), call, "contained\n", 0);
    Ok(())
}

#[test]
fn faults_of_pairs_come_in_the_order_of_an_audit(rt: HostRuntime) -> Result<(), Fail> {
    let text = HANDED_ON.text(rt.alloc())?;
    let pairs = [
        pair(1000, &[], "/nowhere"),
        pair(1000, &[], "a"),
        pair(0, &[], "/a"),
    ];
    let rest = &pairs[..2];
    let call = Call::AdvisePairs(&pairs);
    expect_fault(&rt, rt.alloc(), text.as_bytes(), call, CliFault::Uid);
    let call = Call::AdvisePairs(rest);
    expect_fault(&rt, rt.alloc(), b"", call, CliFault::BadPath);
    let missing = CliFault::Subtree(CheckFault::NoSuchSubtree);
    let call = Call::AdvisePairs(&rest[..1]);
    expect_fault(&rt, rt.alloc(), text.as_bytes(), call, missing);
    Ok(())
}

#[test]
fn a_failed_write_leaves_the_front_of_the_report(rt: HostRuntime) -> Result<(), Fail> {
    let row = &OF_ANCESTORS[0];
    let text = row.text(rt.alloc())?;
    let written = Written {
        tree: text.as_bytes(),
        call: Call::Advise(&[USER], &["/a/b"]),
        report: row.report.as_bytes(),
        status: 1,
    };
    written.expect(&rt, rt.alloc());
    Ok(())
}
