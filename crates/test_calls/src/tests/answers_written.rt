//! Every kind of answer, at writers that fail after each number of bytes, take a byte at a time, and take none.
use super::calls::Call;
use super::changed::{Change, ROOT_PROCS_OWNED, SECOND_USER, delegation_with};
use super::writers::{ByteByByte, FailsOnce, TakesNone};
use crate::tests::users::USER;
use cg_cli::arguments::UserIds;
use cg_faults::fault::CliFault;
use std::alloc::Global;
use std::io::ErrorKind;
use std::process::Abort;
use std::test::Fail;
use test_trees::texts::{DELEGATION, PARENT_DELEGATED};

const SECOND: UserIds<'static> = UserIds {
    uid: 1001,
    gids: &[],
};

const BOTH: &[UserIds<'static>] = &[USER, SECOND];

/// Operations of user 1000, and their report where `/c0` is watched.
pub const REPLAYS: [(&[u8], &[u8]); 2] = [
    (
        b"mkdir /c0/c00/x\nmkdir /c0/c00/x/y\n",
        b"ok\nrefused depth-limit /c0\nkept\n",
    ),
    (
        b"control /c0 +memory\nset /c0/c00 memory.max 4096\ncontrol /c0 -memory +memory\ncontrol /c0/c01 +memory\ncontrol /c0 -memory\ncontrol /c0/c00 +memory\n",
        b"ok\nok\nok\nok\nrefused child-uses memory\nrefused internal-process /c0/c00\nkept\n",
    ),
];

/// A change of the delegation, a call, its report and its status.
type Row = (Change, Call<'static>, &'static [u8], u8);

const SAME: Change = ("", "");

const ROWS: [Row; 10] = [
    (SAME, Call::May(USER, 11, "/c0/c01"), b"granted\n", 0),
    (
        SAME,
        Call::May(USER, 11, "/zz"),
        b"refused no-such-cgroup /zz\n",
        1,
    ),
    (
        SAME,
        Call::May(USER, 10, "/c0/c00"),
        b"refused no-access / cgroup.procs\n",
        1,
    ),
    (SAME, Call::Check(USER, "/c0"), b"contained\n", 0),
    (
        ROOT_PROCS_OWNED,
        Call::Check(USER, "/c0"),
        b"escapes\nchmod / cgroup.procs 646\nmove 10 /c0\n",
        1,
    ),
    (SAME, Call::Audit(&[USER], &["/c1"]), b"contained\n", 0),
    (
        SAME,
        Call::Audit(&[USER], &["/c0/c00"]),
        b"pair 1000 /c0/c00\nescapes\nset /c0/c00 cgroup.max.descendants 0\n",
        1,
    ),
    (
        SECOND_USER,
        Call::Audit(BOTH, &["/c0"]),
        b"pair 1001 /c0\nescapes\nset /c0 memory.max max\n",
        1,
    ),
    (
        SECOND_USER,
        Call::AuditAll(BOTH, &["/c0"]),
        b"pair 1001 /c0\nescapes\nset /c0 memory.max max\n",
        1,
    ),
    (
        SECOND_USER,
        Call::AuditAll(BOTH, &["/c1"]),
        b"contained\n",
        0,
    ),
];

/// A call on a tree, and what it writes.
#[derive(Clone, Copy)]
pub struct Written<'a> {
    pub tree: &'a [u8],
    pub call: Call<'a>,
    pub report: &'a [u8],
    pub status: u8,
}

impl Written<'_> {
    /// Fails where something else goes to a writer that fails in this way after each number of bytes.
    fn expect_fronts(&self, rt: &impl Abort, alloc: Global, kind: ErrorKind) {
        for room in 0..self.report.len() {
            let mut out = FailsOnce::of_kind(alloc, room, kind);
            let ended = self.call.make(alloc, self.tree, &mut out);
            assert_eq!(rt; ended, Err(CliFault::Write));
            assert_eq!(rt; out.taken.as_slice(), &self.report[..room]);
        }
    }

    /// The same at a writer that is interrupted, one that takes none, and one that takes a byte at a time.
    pub fn expect(&self, rt: &impl Abort, alloc: Global) {
        self.expect_fronts(rt, alloc, ErrorKind::Interrupted);
        let mut out = TakesNone { asked: 0 };
        let ended = self.call.make(alloc, self.tree, &mut out);
        assert_eq!(rt; ended, Err(CliFault::Write));
        assert_eq!(rt; out.asked, 1);
        let mut out = ByteByByte {
            taken: Vec::new(alloc),
        };
        let ended = self.call.make(alloc, self.tree, &mut out);
        assert_eq!(rt; ended, Ok(self.status));
        assert_eq!(rt; out.taken.as_slice(), self.report);
    }

    /// The same, and at writers that fail in other ways.
    fn expect_always(&self, rt: &impl Abort, alloc: Global) {
        self.expect(rt, alloc);
        for kind in [ErrorKind::BrokenPipe, ErrorKind::OutOfMemory] {
            self.expect_fronts(rt, alloc, kind);
        }
    }
}

#[test]
fn a_failed_write_leaves_the_front_of_every_report(rt: HostRuntime) -> Result<(), Fail> {
    for (change, call, report, status) in ROWS {
        let tree = delegation_with(rt.alloc(), &[change])?;
        let written = Written {
            tree: tree.as_bytes(),
            call,
            report,
            status,
        };
        written.expect_always(&rt, rt.alloc());
    }
    let written = Written {
        tree: PARENT_DELEGATED,
        call: Call::Check(USER, "/p/s"),
        report: b"unsettled common-ancestor /p\n",
        status: 2,
    };
    written.expect_always(&rt, rt.alloc());
    Ok(())
}

#[test]
fn a_failed_write_leaves_a_part_of_a_replay(rt: HostRuntime) {
    for (ops, report) in REPLAYS {
        for call in [
            Call::Replay(USER, Some("/c0"), ops),
            Call::ReplayFrom(USER, Some("/c0"), ops),
        ] {
            let (tree, status) = (DELEGATION, 0);
            let written = Written {
                tree,
                call,
                report,
                status,
            };
            written.expect(&rt, rt.alloc());
        }
    }
}

#[test]
fn of_no_operations_nothing_is_written(rt: HostRuntime) {
    for call in [
        Call::Replay(USER, None, b""),
        Call::ReplayFrom(USER, None, b""),
    ] {
        let mut out = TakesNone { asked: 0 };
        assert_eq!(rt; call.make(rt.alloc(), DELEGATION, &mut out), Ok(0));
        assert_eq!(rt; out.asked, 0);
    }
}
