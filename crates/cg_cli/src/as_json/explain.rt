//! Why every subtree is contained against every user, or why that isn't told, as JSON.
ghost use Rattle.std.specs.Prelude.{map};
ghost use Rattle.cg_format.specs.Readings.{OnText};
ghost use Rattle.cg_cli.specs.AsJson.{ExplainedAsJson};
ghost use Rattle.cg_cli.specs.EachPair.{explain_pairs_asked};
ghost use Rattle.cg_cli.specs.Explaining.{explain_asked};
ghost use Rattle.cg_cli.specs.Pairs.{pair_given};
ghost use Rattle.cg_cli.specs.Strangers.{IsFirstStranger};

use crate::arguments::UserIds;
use crate::explain::Reasons;
use crate::explain_pairs::NamedReasons;
use crate::format::Format;
use crate::named_question::ask_named;
use crate::pairs::{PairIds, ask_pairs};
use cg_faults::fault::CliFault;
use std::alloc::Global;
use std::io::Write;

/// Writes what `explain_bytes` does, with its status, as a JSON object on a line for each pair, which reads as it. A pair's user is
/// named with all their groups. `stranger` is the uid of the first user of whom the tree says nothing.
///
/// # Errors
/// Those of `explain_bytes`.
pub fn explain_json_bytes<W: Write>(
    alloc: Global,
    tree: &[u8],
    users: &[UserIds<'_>],
    subtrees: &[&str],
    stranger: &mut Option<u32>,
    out: &mut W,
) -> Result<u8, CliFault>
    ensures report { OnText tree.now (λ read. ExplainedAsJson
        (explain_asked read (map (λ user. (user.uid, user.gids.now)) users.now) (map (λ subtree. subtree.now) subtrees.now))
        (W.contents out.old) (W.contents out.new) result) }
    ensures stranger { IsFirstStranger tree.now (map (λ user. (user.uid, user.gids.now)) users.now) result stranger.new }
{
    let reasons = Reasons {
        format: Format::Json,
    };
    ask_named(alloc, &reasons, tree, users, subtrees, stranger, out)
}

/// Writes of each pair, in the order in which pairs are named, what `explain_json_bytes` writes of it. A pair that is named again is
/// written again.
///
/// # Errors
/// Those of `explain_bytes`.
pub fn explain_pairs_json_bytes<W: Write>(
    alloc: Global,
    tree: &[u8],
    pairs: &[PairIds<'_>],
    out: &mut W,
) -> Result<u8, CliFault>
    ensures { OnText tree.now (λ read. ExplainedAsJson (explain_pairs_asked read (map pair_given pairs.now))
        (W.contents out.old) (W.contents out.new) result) }
{
    let reasons = NamedReasons {
        format: Format::Json,
    };
    ask_pairs(alloc, &reasons, tree, pairs, out)
}
