//! `replay_bytes` and `replay_from` on rows worked out by hand.
use super::changed::{
    Change, FORMAT_2, FORMAT_4, MEMORY_MAX_OWNED, OTHERS, ROOT, ROOT_PROCS_OPEN, TOO_MANY,
    delegation_with,
};
use super::readers::{Pieces, Uneven};
use crate::tests::users::{USER, user};
use cg_cli::arguments::UserIds;
use cg_cli::replay::{replay_bytes, replay_from};
use cg_faults::fault::CliFault;
use cg_lines::lines::LineFault;
use cg_model::fault::CheckFault;
use std::alloc::Global;
use std::io::BufRead;
use std::process::Abort;
use std::test::Fail;
use test_trees::texts::{DELEGATION, DELEGATION_AND_PROCESS};

/// Operations of user 1000 in the delegation, and what is said of them.
const ANSWERED: [(&str, &str); 9] = [
    (
        "mkdir /c0/c00/x\nmkdir /c0/c00/x/y\n",
        "ok\nrefused depth-limit /c0\n",
    ),
    (
        "control /c0 +memory -memory\ncontrol /c0 +pids\ncontrol /c0 +memory +pids\nset /c0/c00 memory.max 0\n",
        "ok\nrefused not-available pids\nrefused not-available pids\nrefused no-such-file /c0/c00 memory.max\n",
    ),
    (
        "fork 11 12\nexit 12\nfork 11 12\n",
        "ok\nok\nrefused pid-used 12\n",
    ),
    ("", ""),
    (
        "mkdir /c0/a\nmkdir /c0/b\nmkdir /c0/c\nrmdir /c0/a\nmkdir /c0/c\n",
        "ok\nok\nrefused descendant-limit /c0\nok\nok\n",
    ),
    (
        "mkdir /c0/c00/x\nrmdir /c0/c00\n",
        "ok\nrefused has-children /c0/c00\n",
    ),
    (
        "rmdir /\nrmdir /c0\nrmdir /c0/c00\nexit 11\nrmdir /c0/c00\nmkdir /c0/c01\nmkdir /c0/q/r\nmkdir /d\n",
        "refused root-cgroup\nrefused no-access / dir\nrefused has-processes /c0/c00\nok\nok\nrefused exists /c0/c01\nrefused no-such-cgroup /c0/q\nrefused no-access / dir\n",
    ),
    (
        "control /c0 +memory\nset /c0/c00 memory.max 4096\ncontrol /c0 -memory +memory\ncontrol /c0/c01 +memory\ncontrol /c0 -memory\ncontrol /c0/c00 +memory\n",
        "ok\nok\nok\nok\nrefused child-uses memory\nrefused internal-process /c0/c00\n",
    ),
    (
        "chmod /c0 dir 555\nmkdir /c0/a\nchmod /c0 dir 755\nmkdir /c0/a\n",
        "ok\nrefused no-access /c0 dir\nok\nok\n",
    ),
];

/// Operations of which a line is none, what is said of those before, and the fault.
const CUT_OFF: [(&str, &str, u32, LineFault); 3] = [
    ("exit 11\nmkdir /c0/a", "ok\n", 2, LineFault::Cut),
    (
        "set /c0/c00 cgroup.max.depth 9223372036854775807\nset /c0/c00 cgroup.max.depth 9223372036854775808\nset /c0/c00 cgroup.max.depth 0\nmkdir /c0/c00/x\nset /c0 memory.max max\nset /c0/c00 cgroup.max.depth 18446744073709551616\n",
        "ok\nrefused bad-value cgroup.max.depth\nok\nrefused depth-limit /c0/c00\nrefused no-access /c0 memory.max\n",
        6,
        LineFault::BadWord,
    ),
    (
        "chmod /zz dir 755\nchmod /c0/c00 memory.max 644\nchmod /c0 memory.max 666\nchmod /c0 dir 0755\n",
        "refused no-such-cgroup /zz\nrefused no-such-file /c0/c00 memory.max\nrefused not-owner /c0 memory.max\n",
        4,
        LineFault::BadWord,
    ),
];

/// What processes of another user are answered.
const OF_A_STRANGER: (&str, &str) = (
    "exit 11\nfork 99 12\nexit 99\n",
    "refused not-yours 11\nrefused no-such-process 99\nrefused no-such-process 99\n",
);

/// Operations where the tree has process 13 at `/c0`.
const OF_A_PROCESS: (&str, &str) = (
    "control /c0 +memory\nmove 13 /c0/c00\ncontrol /c0 +memory\nmove 13 /c0\n",
    "refused internal-process /c0\nok\nok\nrefused internal-process /c0\n",
);

/// A replay, what it writes and how it ends.
#[derive(Clone, Copy)]
struct Replayed<'a> {
    user: UserIds<'a>,
    subtree: Option<&'a str>,
    ops: &'a str,
    report: &'a str,
    ending: Result<u8, CliFault>,
}

impl Replayed<'_> {
    /// Fails where the operations that a reader gives end otherwise, or where something else is written.
    fn expect_from<R: BufRead>(&self, rt: &impl Abort, alloc: Global, tree: &[u8], ops: &mut R) {
        let mut out = Vec::new(alloc);
        let ended = replay_from(alloc, tree, self.user, self.subtree, ops, &mut out);
        assert_eq!(rt; ended, self.ending, "{}", self.ops);
        assert_eq!(rt; out.as_slice(), self.report.as_bytes());
    }

    /// The same over bytes, in pieces of each of some sizes, and in pieces of uneven sizes.
    fn expect(&self, rt: &impl Abort, alloc: Global, tree: &[u8]) {
        let ops = self.ops.as_bytes();
        let mut out = Vec::new(alloc);
        let ended = replay_bytes(alloc, tree, self.user, self.subtree, ops, &mut out);
        assert_eq!(rt; ended, self.ending, "{}", self.ops);
        assert_eq!(rt; out.as_slice(), self.report.as_bytes());
        for size in [1, 2, 7, 8, 13, 8192] {
            self.expect_from(rt, alloc, tree, &mut Pieces::new(ops, size));
        }
        for seed in 1..20 {
            self.expect_from(rt, alloc, tree, &mut Uneven { rest: ops, seed });
        }
    }
}

/// A replay of user 1000 where `/c0` is watched.
fn watched<'a>(ops: &'a str, report: &'a str, ending: Result<u8, CliFault>) -> Replayed<'a> {
    Replayed {
        user: USER,
        subtree: Some("/c0"),
        ops,
        report,
        ending,
    }
}

/// Fails where a user's operations are answered otherwise, and where `/c0` is watched too, and not kept.
fn expect_kept(
    rt: &impl Abort,
    alloc: Global,
    tree: &[u8],
    user: UserIds<'_>,
    (ops, report): (&str, &str),
) -> Result<(), Fail> {
    let kept = format!(in alloc; "{report}kept\n")?;
    for (subtree, report) in [(None, report), (Some("/c0"), kept.as_str())] {
        let replayed = Replayed {
            user,
            subtree,
            ..watched(ops, report, Ok(0))
        };
        replayed.expect(rt, alloc, tree);
    }
    Ok(())
}

#[test]
fn operations_are_answered_in_turn(rt: HostRuntime) -> Result<(), Fail> {
    for row in ANSWERED {
        expect_kept(&rt, rt.alloc(), DELEGATION, USER, row)?;
    }
    expect_kept(&rt, rt.alloc(), DELEGATION, user(1001, &[]), OF_A_STRANGER)?;
    let tree = [DELEGATION, DELEGATION_AND_PROCESS].concat(rt.alloc())?;
    expect_kept(&rt, rt.alloc(), tree.as_slice(), USER, OF_A_PROCESS)
}

#[test]
fn a_line_that_is_none_ends_a_replay(rt: HostRuntime) {
    for (ops, report, number, fault) in CUT_OFF {
        let ending = Err(CliFault::Line { number, fault });
        for subtree in [None, Some("/c0")] {
            let replayed = Replayed {
                subtree,
                ..watched(ops, report, ending)
            };
            replayed.expect(&rt, rt.alloc(), DELEGATION);
        }
    }
}

/// User 1000 owns what the root enables.
const ROOT_CONTROL_OWNED: Change = (
    ROOT,
    "enabled = [\"memory\"]\n[cgroup.files]\n\"cgroup.subtree_control\" = { uid = 1000 }\n",
);

/// Lines of controllers beyond the three, what is said of each where the root has `io` and `dmem` and where it has neither, and
/// the verdicts on `/c0`.
const OF_FORMAT_4: [(&str, [&str; 2]); 4] = [
    (
        "control / +io\ncontrol / -io\n",
        [
            "ok\nok\nbroken 1 limits\n",
            "refused not-available io\nok\nkept\n",
        ],
    ),
    (
        "control /c0 +dmem\ncontrol /c0 +cpuset -cpuset\n",
        [
            "refused not-available dmem\nok\nkept\n",
            "refused not-available dmem\nok\nkept\n",
        ],
    ),
    (
        "control / +dmem +memory\ncontrol /c0 +dmem\ncontrol / -dmem\ncontrol / +misc\n",
        [
            "ok\nok\nrefused child-uses dmem\nrefused not-available misc\nbroken 1 limits\n",
            "refused not-available dmem\nrefused not-available dmem\nok\nrefused not-available misc\nkept\n",
        ],
    ),
    (
        "mkdir /c0/io\nset /c0/io cgroup.max.depth 1\nrmdir /c0/io\n",
        ["ok\nok\nok\nkept\n", "ok\nok\nok\nkept\n"],
    ),
];

#[test]
fn all_controllers_are_named_where_a_text_is_of_format_4(rt: HostRuntime) -> Result<(), Fail> {
    let [format, controllers] = OTHERS;
    let has = delegation_with(rt.alloc(), &[format, controllers, ROOT_CONTROL_OWNED])?;
    let has_not = delegation_with(rt.alloc(), &[FORMAT_4, ROOT_CONTROL_OWNED])?;
    for (ops, reports) in OF_FORMAT_4 {
        for (tree, report) in [&has, &has_not].iter().zip(reports) {
            let status = u8::from(!report.ends_with("kept\n"));
            watched(ops, report, Ok(status)).expect(&rt, rt.alloc(), tree.as_bytes());
        }
    }
    let ending = Err(CliFault::Line {
        number: 2,
        fault: LineFault::BadWord,
    });
    let unknown = watched("exit 11\ncontrol / +perf_event\n", "ok\n", ending);
    unknown.expect(&rt, rt.alloc(), has.as_bytes());
    let unknown = watched("exit 11\ncontrol / +io\nexit 10\n", "ok\n", ending);
    unknown.expect(&rt, rt.alloc(), DELEGATION);
    let of_2 = delegation_with(rt.alloc(), &[FORMAT_2])?;
    unknown.expect(&rt, rt.alloc(), of_2.as_bytes());
    Ok(())
}

/// The delegation, where anyone writes `cgroup.procs` of the root, with `/c01` and process 14 in it.
fn open_delegation(alloc: Global) -> Result<String, Fail> {
    let mut tree = delegation_with(alloc, &[ROOT_PROCS_OPEN])?;
    tree.push_str(
        "[[cgroup]]\npath = \"/c01\"\ndir = { uid = 1000 }\nfiles = { \"cgroup.procs\" = { uid = 1000 } }\n",
    )?;
    tree.push_str("[[process]]\npid = 14\nuid = 1000\nat = \"/c01\"\n")?;
    Ok(tree)
}

const PARENT_DIRECTORY: &str =
    "format = 1\ncontrollers = []\n[[cgroup]]\npath = \"/\"\ndir = { uid = 1000 }\n[[cgroup]]\npath = \"/c0\"\n";

#[test]
fn verdicts_stand_behind_the_outcomes(rt: HostRuntime) -> Result<(), Fail> {
    let open = open_delegation(rt.alloc())?;
    let unwatched = Replayed {
        subtree: None,
        ..watched("move 14 /c0\n", "ok\n", Ok(0))
    };
    unwatched.expect(&rt, rt.alloc(), open.as_bytes());
    let owned = delegation_with(rt.alloc(), &[MEMORY_MAX_OWNED])?;
    let set = "set /c0 memory.max max\nset /c0 memory.max 1073741824\n";
    let full = delegation_with(rt.alloc(), &[TOO_MANY])?;
    for (tree, ops, report) in [
        (open.as_str(), "move 14 /c0\n", "ok\nbroken 1 crossed 14\n"),
        (
            PARENT_DIRECTORY,
            "rmdir /c0\nmkdir /c0\n",
            "ok\nok\nbroken 1 gone\n",
        ),
        (owned.as_str(), set, "ok\nok\nbroken 1 limits\n"),
        (full.as_str(), "exit 11\n", "ok\nbroken 0 descendants\n"),
    ] {
        watched(ops, report, Ok(1)).expect(&rt, rt.alloc(), tree.as_bytes());
    }
    Ok(())
}

#[test]
fn subtrees_that_cannot_be_watched(rt: HostRuntime) {
    for (subtree, fault) in [
        ("c0", CliFault::BadPath),
        ("/", CliFault::Subtree(CheckFault::RootSubtree)),
        ("/zz", CliFault::Subtree(CheckFault::NoSuchSubtree)),
    ] {
        let refused = Replayed {
            subtree: Some(subtree),
            ..watched("exit 11\n", "", Err(fault))
        };
        refused.expect(&rt, rt.alloc(), DELEGATION);
    }
}
