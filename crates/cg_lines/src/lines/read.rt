//! Reading an operation line.
ghost use Rattle.std.specs.Prelude.{◌≡◌, ◌≢◌, ◌≤◌, ◌<◌, ◌↔◌, length, IfOk, Err};
ghost use Rattle.cg_model.specs.declared.operation.Op.{Op};
ghost use Rattle.cg_lines.specs.OperationLines.{spelling, IsInRange};

use crate::lines::fault::LineFault;
use crate::lines::operations::operation_of;
use cg_cgroup::files::Vocabulary;
use cg_model::operation::Op;
use std::alloc::Global;
use std::str;

/// The greatest number of bytes of an operation line, its newline aside.
pub const LONGEST_LINE: usize = 8192;

/// The operation of a line for a tree of formats 1 and 2: `read_op_in` at their vocabulary.
pub fn read_op(alloc: Global, line: &[u8]) -> Result<Op, LineFault>
    ensures ok { IfOk result (λ op. (line.now ≡ spelling op) × (length line.now ≤ LONGEST_LINE)
        × IsInRange Vocabulary.Format2 op) }
    ensures too_long { (result ≡ Err LineFault.TooLong) ↔ (LONGEST_LINE < length line.now) }
    ensures bad_word { result ≡ Err LineFault.BadWord → (op : Op) → IsInRange Vocabulary.Format2 op → line.now ≢ spelling op }
    ensures not_cut { result ≢ Err LineFault.Cut }
{
    read_op_in(alloc, Vocabulary::Format2, line)
}

/// The operation of a line, without its newline, which names controllers and entries of a vocabulary. `TooLong` over 8192 bytes,
/// for which no memory is taken; `BadWord` where the line is no operation's; never `Cut`.
pub fn read_op_in(alloc: Global, vocabulary: Vocabulary, line: &[u8]) -> Result<Op, LineFault>
    ensures ok { IfOk result (λ op. (line.now ≡ spelling op) × (length line.now ≤ LONGEST_LINE) × IsInRange vocabulary op) }
    ensures too_long { (result ≡ Err LineFault.TooLong) ↔ (LONGEST_LINE < length line.now) }
    ensures bad_word { result ≡ Err LineFault.BadWord → (op : Op) → IsInRange vocabulary op → line.now ≢ spelling op }
    ensures not_cut { result ≢ Err LineFault.Cut }
{
    if line.len() > LONGEST_LINE {
        return Err(LineFault::TooLong);
    }
    let Ok(text) = str::from_utf8(line) else {
        return Err(LineFault::BadWord);
    };
    operation_of(alloc, vocabulary, text)
}
