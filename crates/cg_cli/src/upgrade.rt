//! Writing a tree text anew.
ghost use Rattle.cg_format.specs.Readings.{OnText, vocabulary_in};
ghost use Rattle.cg_cli.specs.Upgrades.{Upgrades};

use crate::reading::read_text;
use crate::report::write_said;
use cg_faults::fault::CliFault;
use cg_print::tree::tree_text;
use std::alloc::Global;
use std::io::Write;

/// Writes a tree text anew with every key written, of format 4 in format 4 and of another in format 2; the status is 0.
///
/// # Errors
/// `Tree`, and then nothing is written; `Write` where a write failed or took nothing; `NoMemory` where an allocation was
/// refused.
pub fn upgrade_bytes<W: Write>(alloc: Global, tree: &[u8], out: &mut W) -> Result<u8, CliFault>
    ensures report { OnText tree.now (Upgrades (vocabulary_in tree.now) (W.contents out.old) (W.contents out.new) result) }
{
    let read = read_text(alloc, tree)?;
    let text = tree_text(alloc, read.vocabulary, &read.rows)?;
    write_said(out, (text, 0))
}
