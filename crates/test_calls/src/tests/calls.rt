//! The calls over bytes as values, and what is expected of one.
use crate::tests::readers::Pieces;
use cg_cli::advise::advise_bytes;
use cg_cli::advise_pairs::advise_pairs_bytes;
use cg_cli::advise_settle::advise_settled_bytes;
use cg_cli::arguments::UserIds;
use cg_cli::audit::audit_bytes;
use cg_cli::audit_all::audit_all_bytes;
use cg_cli::audit_settle::{audit_all_settled_bytes, audit_settled_bytes};
use cg_cli::check::check_bytes;
use cg_cli::explain::explain_bytes;
use cg_cli::may::may_bytes;
use cg_cli::pairs::PairIds;
use cg_cli::replay::{replay_bytes, replay_from};
use cg_cli::upgrade::upgrade_bytes;
use cg_faults::fault::CliFault;
use std::alloc::Global;
use std::io::Write;
use std::process::Abort;

/// A call, but for its tree and where it writes. The operations of the last come from a reader, a byte at a time.
#[derive(Clone, Copy)]
pub enum Call<'a> {
    May(UserIds<'a>, u32, &'a str),
    Check(UserIds<'a>, &'a str),
    Audit(&'a [UserIds<'a>], &'a [&'a str]),
    AuditAll(&'a [UserIds<'a>], &'a [&'a str]),
    Explain(&'a [UserIds<'a>], &'a [&'a str]),
    AuditSettled(&'a [UserIds<'a>], &'a [&'a str]),
    AuditAllSettled(&'a [UserIds<'a>], &'a [&'a str]),
    Advise(&'a [UserIds<'a>], &'a [&'a str]),
    AdvisePairs(&'a [PairIds<'a>]),
    AdviseSettled(&'a [UserIds<'a>], &'a [&'a str]),
    Upgrade,
    Replay(UserIds<'a>, Option<&'a str>, &'a [u8]),
    ReplayFrom(UserIds<'a>, Option<&'a str>, &'a [u8]),
}

impl Call<'_> {
    pub fn make<W: Write>(self, alloc: Global, tree: &[u8], out: &mut W) -> Result<u8, CliFault> {
        let stranger = &mut None;
        match self {
            Call::May(user, pid, to) => may_bytes(alloc, tree, user, pid, to, &mut None, out),
            Call::Check(user, subtree) => check_bytes(alloc, tree, user, subtree, stranger, out),
            Call::Audit(users, subtrees) => audit_bytes(
                alloc, tree, users, subtrees, stranger, out,
            ),
            Call::AuditAll(users, subtrees) => audit_all_bytes(
                alloc, tree, users, subtrees, stranger, out,
            ),
            Call::Explain(users, subtrees) => explain_bytes(
                alloc, tree, users, subtrees, stranger, out,
            ),
            Call::AuditSettled(users, subtrees) => {
                audit_settled_bytes(alloc, tree, users, subtrees, stranger, out)
            }
            Call::AuditAllSettled(users, subtrees) => {
                audit_all_settled_bytes(alloc, tree, users, subtrees, stranger, out)
            }
            Call::Advise(users, subtrees) => advise_bytes(
                alloc, tree, users, subtrees, stranger, out,
            ),
            Call::AdvisePairs(pairs) => advise_pairs_bytes(alloc, tree, pairs, out),
            Call::AdviseSettled(users, subtrees) => {
                advise_settled_bytes(alloc, tree, users, subtrees, stranger, out)
            }
            Call::Upgrade => upgrade_bytes(alloc, tree, out),
            Call::Replay(user, subtree, ops) => replay_bytes(alloc, tree, user, subtree, ops, out),
            Call::ReplayFrom(user, subtree, ops) => {
                let mut ops = Pieces::new(ops, 1);
                replay_from(alloc, tree, user, subtree, &mut ops, out)
            }
        }
    }
}

/// Fails where a call says or writes something else.
pub fn expect(
    rt: &impl Abort,
    alloc: Global,
    tree: &[u8],
    call: Call<'_>,
    report: &str,
    status: u8,
) {
    let mut out = Vec::new(alloc);
    assert_eq!(rt; call.make(alloc, tree, &mut out), Ok(status), "{report}");
    assert_eq!(rt; out.as_slice(), report.as_bytes());
}

/// Fails where a call doesn't end in a fault, or has written something.
pub fn expect_fault(rt: &impl Abort, alloc: Global, tree: &[u8], call: Call<'_>, fault: CliFault) {
    let mut out = Vec::new(alloc);
    assert_eq!(rt; call.make(alloc, tree, &mut out), Err(fault));
    assert_eq!(rt; out.len(), 0);
}
