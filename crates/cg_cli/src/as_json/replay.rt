//! Operation lines that are replayed, as JSON.
ghost use Rattle.std.specs.Prelude.{◌≡◌, Err, IfErr};
ghost use Rattle.std.specs.Option.{option_map};
ghost use Rattle.cg_format.specs.Readings.{OnText, vocabulary_in};
ghost use Rattle.cg_cli.specs.Arguments.{user_read};
ghost use Rattle.cg_cli.specs.ReplayFormats.{in_format};
ghost use Rattle.cg_cli.specs.Replays.{closed_in, operations_report};
ghost use Rattle.cg_cli.specs.Replaying.{Replays, ReplaysFrom};

use crate::arguments::UserIds;
use crate::format::Format;
use crate::replay::{replay_bytes_in, replay_from_in};
use cg_faults::fault::CliFault;
use std::alloc::Global;
use std::io::{BufRead, Write};

/// Writes what `replay_bytes` does, with its status, as a JSON object on a line for each of its lines, which reads as it.
///
/// # Errors
/// Those of `replay_bytes`.
pub fn replay_json_bytes<W: Write>(
    alloc: Global,
    tree: &[u8],
    user: UserIds<'_>,
    subtree: Option<&str>,
    ops: &[u8],
    out: &mut W,
) -> Result<u8, CliFault>
    ensures replays { OnText tree.now (λ read. Replays (closed_in Format.Json)
        (operations_report (in_format Format.Json (vocabulary_in tree.now)) read user.entry.uid user.entry.gids.now
        (option_map (λ text. text.now) subtree.entry)) ops.now
        (W.contents out.old) (W.contents out.new) result) }
    ensures user { IfErr (user_read user.entry.uid user.entry.gids.now) (λ fault. result ≡ Err fault) }
{
    replay_bytes_in(alloc, Format::Json, tree, user, subtree, ops, out)
}

/// Replays operations that a reader gives, as `replay_json_bytes` does with the same bytes. At most one line is held.
///
/// # Errors
/// Those of `replay_from`.
pub fn replay_json_from<R: BufRead, W: Write>(
    alloc: Global,
    tree: &[u8],
    user: UserIds<'_>,
    subtree: Option<&str>,
    ops: &mut R,
    out: &mut W,
) -> Result<u8, CliFault>
    ensures replays { OnText tree.now (λ read. ReplaysFrom (closed_in Format.Json)
        (operations_report (in_format Format.Json (vocabulary_in tree.now)) read user.entry.uid user.entry.gids.now
        (option_map (λ text. text.now) subtree.entry))
        (R.remaining ops.old) (R.remaining ops.new) (W.contents out.old) (W.contents out.new) result) }
    ensures user { IfErr (user_read user.entry.uid user.entry.gids.now) (λ fault. result ≡ Err fault) }
{
    replay_from_in(alloc, Format::Json, tree, user, subtree, ops, out)
}
