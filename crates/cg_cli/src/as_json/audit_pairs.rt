//! Which pairs of a user and a subtree, of those that are named, aren't contained, as JSON.
ghost use Rattle.std.specs.Prelude.{◌≡◌, List, map, Ok, IfOk};
ghost use Rattle.cg_cgroup.specs.Identity.{Identity};
ghost use Rattle.cg_cgroup.specs.Paths.{Names};
ghost use Rattle.cg_model.specs.States.{State};
ghost use Rattle.cg_format.specs.Readings.{OnText};
ghost use Rattle.cg_format.specs.TextOf.{IsTextOf};
ghost use Rattle.cg_cli.specs.Advising.{paired};
ghost use Rattle.cg_cli.specs.AllPairs.{ReportsPairsBy};
ghost use Rattle.cg_cli.specs.Audits.{users_read, paths_read};
ghost use Rattle.cg_cli.specs.EachPair.{audit_pairs_report, UnlistedAsNamed};
ghost use Rattle.cg_cli.specs.Formats.{in_json};
ghost use Rattle.cg_cli.specs.Pairs.{pair_given};

use crate::audit_pairs::NamedPairs;
use crate::format::Format;
use crate::pairs::{PairIds, ask_pairs};
use cg_faults::fault::CliFault;
use std::alloc::Global;
use std::io::Write;

/// Writes what `audit_pairs_bytes` does, with its status, as a JSON object on a line for each pair, or that of `contained`, which
/// reads as it.
///
/// # Errors
/// Those of `audit_pairs_bytes`.
pub fn audit_pairs_json_bytes<W: Write>(
    alloc: Global,
    tree: &[u8],
    pairs: &[PairIds<'_>],
    out: &mut W,
) -> Result<u8, CliFault>
    ensures report { OnText tree.now (λ read. ReportsPairsBy in_json (audit_pairs_report read (map pair_given pairs.now))
        (W.contents out.old) (W.contents out.new) result) }
    ensures unlisted { IfOk result (λ status. (st : State) (who : List Identity) (paths : List Names)
        → IsTextOf st tree.now → users_read (map (λ pair. (pair_given pair).0) pairs.now) ≡ Ok who
        → paths_read (map (λ pair. (pair_given pair).1) pairs.now) ≡ Ok paths → UnlistedAsNamed st (paired who paths)) }
{
    let asked = NamedPairs {
        format: Format::Json,
    };
    ask_pairs(alloc, &asked, tree, pairs, out)
}
