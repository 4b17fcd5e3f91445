//! What is answered of several subtrees and everybody, but for who is left out, as JSON.
ghost use Rattle.std.specs.Prelude.{map};
ghost use Rattle.cg_format.specs.Readings.{OnText};
ghost use Rattle.cg_everybody.specs.Everybody.{everybody_of};
ghost use Rattle.cg_cli.specs.Everybody.{everybody_report_in};
ghost use Rattle.cg_cli.specs.Reports.{Reports};

use crate::everybody::{Wanted, everybody_bytes_in};
use crate::format::Format;
use cg_everybody::asked::Asked;
use cg_faults::fault::CliFault;
use std::alloc::Global;
use std::io::Write;

/// Writes what `everybody_bytes` does, with its status, as the JSON object of that answer, which reads as it.
///
/// # Errors
/// Those of `everybody_bytes`.
pub fn everybody_json_bytes<W: Write>(
    alloc: Global,
    tree: &[u8],
    wanted: Wanted,
    asked: &Asked<'_>,
    subtrees: &[&str],
    out: &mut W,
) -> Result<u8, CliFault>
    ensures { OnText tree.now (λ read. Reports
        (everybody_report_in Format.Json wanted (everybody_of asked.now) read (map (λ subtree. subtree.now) subtrees.now))
        (W.contents out.old) (W.contents out.new) result) }
{
    everybody_bytes_in(alloc, Format::Json, tree, wanted, asked, subtrees, out)
}
