//! The lines of a text, each of which is read by itself.
ghost use Rattle.std.specs.Prelude.{◌≡◌, ◌≢◌, ◌+◌, ◌<◌, ◌∷◌, [], length, Some, None, IfErr, IfSome, MatchOption, MatchResult};
ghost use Rattle.std.specs.List.{slice_split};
ghost use Rattle.cg_cli.specs.Replays.{is_newline};
ghost use Rattle.commands.specs.Lines.{end_fault};

use cg_cli::replay::line_end;
use cg_faults::fault::CliFault;
use cg_lines::lines::LineFault;
use std::alloc::Global;

/// How many bytes of a text are looked at, as many as a tree's text may have.
pub(crate) const LONGEST_LINES: usize = 16_777_216;

/// Whether a text ends behind its last newline.
pub(crate) fn test_end(is_long: bool, done: u32, rest: &[u8]) -> Result<(), CliFault>
    requires { done < LONGEST_LINES + 1 }
    ensures end { MatchResult result
        (λ _. end_fault is_long done rest.now ≡ None)
        (λ fault. end_fault is_long done rest.now ≡ Some fault) }
    ensures read { IfErr result (λ fault. fault ≢ CliFault.Write) }
{
    let fault = if is_long {
        LineFault::TooLong
    } else if rest.is_empty() {
        return Ok(());
    } else {
        LineFault::Cut
    };
    Err(CliFault::Line {
        number: done + 1,
        fault,
    })
}

/// What is before the first newline, and what is behind it.
pub(crate) fn cut_at_newline(bytes: &[u8]) -> Option<(&[u8], &[u8])>
    ensures pieces { MatchOption result (slice_split is_newline bytes.now ≡ bytes.now ∷ [])
        (λ parts. slice_split is_newline bytes.now ≡ parts.0.now ∷ slice_split is_newline parts.1.now) }
    ensures less { IfSome result (λ parts. length parts.1.now < length bytes.now) }
{
    let end = line_end(bytes);
    if end == bytes.len() {
        return None;
    }
    Some((&bytes[..end], &bytes[end + 1..]))
}

/// The line of a text that a fault names.
pub(crate) fn line_at(alloc: Global, text: &[u8], fault: &CliFault) -> Option<Vec<u8>> {
    let CliFault::Line { number, .. } = fault else {
        return None;
    };
    let place = usize::try_from(*number).ok()?.checked_sub(1)?;
    let line = text.split(|byte| *byte == b'\n').nth(place)?;
    Vec::from_slice(alloc, line).ok()
}
