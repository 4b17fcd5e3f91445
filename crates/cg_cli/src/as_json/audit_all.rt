//! All pairs of some users and some subtrees that aren't contained, as JSON.
ghost use Rattle.std.specs.Prelude.{◌≡◌, List, map, Ok, IfOk};
ghost use Rattle.cg_cgroup.specs.Identity.{Identity};
ghost use Rattle.cg_cgroup.specs.Paths.{Names, same_path};
ghost use Rattle.cg_model.specs.Once.{once};
ghost use Rattle.cg_model.specs.States.{State};
ghost use Rattle.cg_format.specs.Readings.{OnText};
ghost use Rattle.cg_format.specs.TextOf.{IsTextOf};
ghost use Rattle.cg_cli.specs.AllPairs.{all_report, ReportsPairsBy, UnlistedAreContained};
ghost use Rattle.cg_cli.specs.Audits.{users_read, paths_read};
ghost use Rattle.cg_cli.specs.Formats.{in_json};
ghost use Rattle.cg_cli.specs.Once.{same_user};
ghost use Rattle.cg_cli.specs.Strangers.{IsFirstStranger};

use crate::arguments::UserIds;
use crate::audit_all::AllPairs;
use crate::format::Format;
use crate::named_question::ask_named;
use cg_faults::fault::CliFault;
use std::alloc::Global;
use std::io::Write;

/// Writes what `audit_all_bytes` does, with its status, as a JSON object on a line for each pair, or that of `contained`, which reads
/// as it. `stranger` is the uid of the first user of whom the tree says nothing.
///
/// # Errors
/// Those of `audit_all_bytes`.
pub fn audit_all_json_bytes<W: Write>(
    alloc: Global,
    tree: &[u8],
    users: &[UserIds<'_>],
    subtrees: &[&str],
    stranger: &mut Option<u32>,
    out: &mut W,
) -> Result<u8, CliFault>
    ensures report { OnText tree.now (λ read. ReportsPairsBy in_json
        (all_report read (map (λ user. (user.uid, user.gids.now)) users.now) (map (λ subtree. subtree.now) subtrees.now))
        (W.contents out.old) (W.contents out.new) result) }
    ensures unlisted { IfOk result (λ status. (st : State) (who : List Identity) (paths : List Names)
        → IsTextOf st tree.now → users_read (map (λ user. (user.uid, user.gids.now)) users.now) ≡ Ok who
        → paths_read (map (λ subtree. subtree.now) subtrees.now) ≡ Ok paths
        → UnlistedAreContained st (once same_user who) (once same_path paths)) }
    ensures stranger { IsFirstStranger tree.now (map (λ user. (user.uid, user.gids.now)) users.now) result stranger.new }
{
    let asked = AllPairs {
        format: Format::Json,
    };
    ask_named(alloc, &asked, tree, users, subtrees, stranger, out)
}
