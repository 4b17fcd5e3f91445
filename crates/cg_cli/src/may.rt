//! One migration: whether a user may move a process to a cgroup.
ghost use Rattle.std.specs.Prelude.{◌≡◌, IfOk};
ghost use Rattle.cg_model.specs.Clauses.{first};
ghost use Rattle.cg_model.specs.Bars.{bars};
ghost use Rattle.cg_format.specs.Readings.{OnText};
ghost use Rattle.cg_cli.specs.May.{permission, may_report};
ghost use Rattle.cg_cli.specs.Missing.{IsAbsentFrom};
ghost use Rattle.cg_cli.specs.Reports.{Reports};

use crate::arguments::{UserIds, read_path, read_pid, read_user};
use crate::missing::if_missing;
use crate::reading::read_tree;
use crate::report::write_said;
use cg_cgroup::memory::NoMemory;
use cg_cgroup::user::User;
use cg_faults::fault::CliFault;
use cg_lines::outcome::outcome_text;
use cg_model::hierarchy::Hierarchy;
use cg_model::operation::Op;
use cg_model::outcome::Outcome;
use cg_ops::refusal;
use std::alloc::Global;
use std::io::Write;
use text_places::near::Missing;

/// Writes whether a user may move the process `pid` to the cgroup `to`: `granted` with status 0, or the first refusal
/// with status 1. Where the tree doesn't have that cgroup, `missing` is its path and the nearest that the tree has.
///
/// # Errors
/// The first that holds of `Uid`, `Gids`, `Pid`, `BadPath` and `Tree`, and then nothing is written; `Write` where a
/// write failed or took nothing; `NoMemory` where an allocation was refused.
pub fn may_bytes<W: Write>(
    alloc: Global,
    tree: &[u8],
    user: UserIds<'_>,
    pid: u32,
    to: &str,
    missing: &mut Option<Missing>,
    out: &mut W,
) -> Result<u8, CliFault>
    ensures report { OnText tree.now (λ read. Reports (may_report read user.entry.uid user.entry.gids.now pid to.now)
        (W.contents out.old) (W.contents out.new) result) }
    ensures missing { IsAbsentFrom tree.now to.now result missing.new }
{
    let user = read_user(user)?;
    let pid = read_pid(pid)?;
    let to = read_path(alloc, to)?;
    let tree = read_tree(alloc, tree)?;
    let found = if_missing(alloc, &tree, &to)?;
    let said = permission(alloc, &tree, &user, &Op::Move { pid, to })?;
    *missing = found;
    write_said(out, said)
}

/// What is said of an operation that may be refused, and the status.
fn permission<H: Hierarchy>(
    alloc: Global,
    tree: &H,
    user: &User,
    op: &Op,
) -> Result<(Vec<u8>, u8), NoMemory>
    ensures text { IfOk result (λ said. said.0.items
        ≡ (permission op.now (first (bars (H.state tree.now) user.now op.now))).0) }
    ensures status { IfOk result (λ said. said.1
        ≡ (permission op.now (first (bars (H.state tree.now) user.now op.now))).1) }
{
    match refusal(tree, user, op) {
        None => Ok((b"granted\n".to_vec(alloc)?, 0)),
        Some(refusal) => Ok((outcome_text(alloc, op, &Outcome::Refused(refusal))?, 1)),
    }
}
