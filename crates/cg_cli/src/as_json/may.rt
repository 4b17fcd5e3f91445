//! One migration, as JSON.
ghost use Rattle.std.specs.Prelude.{◌≡◌, IfOk};
ghost use Rattle.cg_model.specs.Clauses.{first};
ghost use Rattle.cg_model.specs.Bars.{bars};
ghost use Rattle.cg_format.specs.Readings.{OnText};
ghost use Rattle.cg_cli.specs.AsJson.{permission_as_json, may_json_report};
ghost use Rattle.cg_cli.specs.Missing.{IsAbsentFrom};
ghost use Rattle.cg_cli.specs.Reports.{Reports};

use crate::arguments::{UserIds, read_path, read_pid, read_user};
use crate::missing::if_missing;
use crate::reading::read_tree;
use crate::report::write_said;
use cg_cgroup::memory::NoMemory;
use cg_cgroup::user::User;
use cg_faults::fault::CliFault;
use cg_json::outcome::permission_json;
use cg_model::hierarchy::Hierarchy;
use cg_model::operation::Op;
use cg_ops::refusal;
use std::alloc::Global;
use std::io::Write;
use text_places::near::Missing;

/// Writes what `may_bytes` does, with its status, as the JSON object of that answer, which reads as it. Where the tree doesn't have the
/// cgroup, `missing` is its path and the nearest that the tree has.
///
/// # Errors
/// Those of `may_bytes`.
pub fn may_json_bytes<W: Write>(
    alloc: Global,
    tree: &[u8],
    user: UserIds<'_>,
    pid: u32,
    to: &str,
    missing: &mut Option<Missing>,
    out: &mut W,
) -> Result<u8, CliFault>
    ensures report { OnText tree.now (λ read. Reports (may_json_report read user.entry.uid user.entry.gids.now pid to.now)
        (W.contents out.old) (W.contents out.new) result) }
    ensures missing { IsAbsentFrom tree.now to.now result missing.new }
{
    let user = read_user(user)?;
    let pid = read_pid(pid)?;
    let to = read_path(alloc, to)?;
    let tree = read_tree(alloc, tree)?;
    let found = if_missing(alloc, &tree, &to)?;
    let said = permission_said(alloc, &tree, &user, &Op::Move { pid, to })?;
    *missing = found;
    write_said(out, said)
}

/// What is said of an operation that may be refused, and the status.
fn permission_said<H: Hierarchy>(
    alloc: Global,
    tree: &H,
    user: &User,
    op: &Op,
) -> Result<(Vec<u8>, u8), NoMemory>
    ensures text { IfOk result (λ said. said.0.items
        ≡ (permission_as_json op.now (first (bars (H.state tree.now) user.now op.now))).0) }
    ensures status { IfOk result (λ said. said.1
        ≡ (permission_as_json op.now (first (bars (H.state tree.now) user.now op.now))).1) }
{
    match refusal(tree, user, op) {
        None => {
            let text = permission_json(alloc, op, None)?;
            Ok((text, 0))
        }
        Some(bar) => {
            let text = permission_json(alloc, op, Some(bar))?;
            Ok((text, 1))
        }
    }
}
