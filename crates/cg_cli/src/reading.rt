//! A tree text as the reports have it.
ghost use Rattle.cg_text.specs.Faults.{Reads};
ghost use Rattle.cg_format.specs.Readings.{Reading, IsReading, vocabulary_in};
ghost use Rattle.std.specs.Prelude.{◌≡◌, IfOk};

use cg_rows::rows::Rows;
use cg_text::tree::{Text, TreeFault};
use std::alloc::Global;

/// The tree of a text and which controllers its format names, or its first fault.
pub(crate) fn read_text(alloc: Global, bytes: &[u8]) -> Result<Text, TreeFault>
    ensures read { (read : Reading) → IsReading bytes.now read → Reads (λ text. text.rows) result read }
    ensures vocabulary { IfOk result (λ text. text.vocabulary ≡ vocabulary_in bytes.now) }
{
    cg_text::tree::read_text(alloc, bytes)
}

/// The tree of a text, or its first fault: what the text is read as.
pub(crate) fn read_tree(alloc: Global, bytes: &[u8]) -> Result<Rows, TreeFault>
    ensures read { (read : Reading) → IsReading bytes.now read → Reads (λ rows. rows) result read }
{
    cg_text::tree::read_tree(alloc, bytes)
}
