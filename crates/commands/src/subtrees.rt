//! The subtrees that the lines of a text name.
ghost use Rattle.std.specs.Prelude.{◌≡◌, ◌≢◌, ◌+◌, ◌<◌, [], map, length, Some, None, Ok, Err, IfErr, MatchResult};
ghost use Rattle.std.specs.List.{slice_split};
ghost use Rattle.cg_cli.specs.Replays.{is_newline};
ghost use Rattle.cg_faults.specs.declared.fault.CliFault.TheVariants.{Line};
ghost use Rattle.cg_lines.specs.declared.lines.fault.LineFault.TheVariants.{BadWord};
ghost use Rattle.commands.specs.Lines.{pieces_read, lines_read};
ghost use Rattle.commands.specs.SubtreeLines.{subtree_read, subtree_line_read, subtrees_read};

use crate::lines::{LONGEST_LINES, cut_at_newline, test_end};
use cg_cgroup::path::{Path, PathFault};
use cg_faults::fault::CliFault;
use cg_lines::lines::LineFault;
use std::alloc::Global;
use std::str;

/// The subtrees of a text, in the order of its lines, each of which is a path. There is one at least.
///
/// # Errors
/// `Line` with the number of the first line that is no path (`BadWord`), that has no newline, as the first of a text without a line
/// (`Cut`), or in which more stands than is looked at (`TooLong`); `NoMemory` where an allocation was refused.
pub(crate) fn read_subtrees<'a>(alloc: Global, text: &'a [u8]) -> Result<Vec<&'a str>, CliFault>
    ensures subtrees { MatchResult result
        (λ subtrees. subtrees_read text.now ≡ Ok (map (λ subtree. subtree.now) subtrees.items))
        (λ fault. fault ≢ CliFault.NoMemory → subtrees_read text.now ≡ Err fault) }
    ensures read { IfErr result (λ fault. fault ≢ CliFault.Write) }
{
    let subtrees = lines_of(alloc, text)?;
    if subtrees.is_empty() {
        return Err(CliFault::Line {
            number: 1,
            fault: LineFault::Cut,
        });
    }
    Ok(subtrees)
}

/// The subtrees of the lines of a text, which may be none.
fn lines_of<'a>(alloc: Global, text: &'a [u8]) -> Result<Vec<&'a str>, CliFault>
    ensures subtrees { MatchResult result
        (λ subtrees. lines_read subtree_line_read text.now ≡ Ok (map (λ subtree. subtree.now) subtrees.items))
        (λ fault. fault ≢ CliFault.NoMemory → lines_read subtree_line_read text.now ≡ Err fault) }
    ensures read { IfErr result (λ fault. fault ≢ CliFault.Write) }
{
    if text.len() > LONGEST_LINES {
        subtrees_of(alloc, &text[..LONGEST_LINES], true)
    } else {
        subtrees_of(alloc, text, false)
    }
}

/// The subtrees of the lines of a text's front, where that is looked at.
fn subtrees_of<'a>(alloc: Global, front: &'a [u8], is_long: bool) -> Result<Vec<&'a str>, CliFault>
    requires { length front.now < LONGEST_LINES + 1 }
    ensures subtrees { MatchResult result
        (λ subtrees. pieces_read subtree_line_read is_long 0 (slice_split is_newline front.now) ≡ Ok (map (λ subtree. subtree.now) subtrees.items))
        (λ fault. fault ≢ CliFault.NoMemory → pieces_read subtree_line_read is_long 0 (slice_split is_newline front.now) ≡ Err fault) }
    ensures read { IfErr result (λ fault. fault ≢ CliFault.Write) }
{
    let mut subtrees = Vec::new(alloc);
    let mut rest = front;
    let mut done = 0;
    while let Some((line, others)) = cut_at_newline(rest) {
        subtrees.push(subtree_at(alloc, done + 1, line)?)?;
        done += 1;
        rest = others;
    }
    test_end(is_long, done, rest)?;
    Ok(subtrees)
}

/// The path of a line.
fn subtree_at<'a>(alloc: Global, number: u32, line: &'a [u8]) -> Result<&'a str, CliFault>
    ensures subtree { MatchResult result
        (λ subtree. subtree_read line.now ≡ Some subtree.now)
        (λ fault. fault ≢ CliFault.NoMemory → (subtree_read line.now ≡ None) × (fault ≡ Line number BadWord)) }
    ensures read { IfErr result (λ fault. fault ≢ CliFault.Write) }
{
    let bad = CliFault::Line {
        number,
        fault: LineFault::BadWord,
    };
    let Ok(subtree) = str::from_utf8(line) else {
        return Err(bad);
    };
    match Path::parse(alloc, subtree) {
        Ok(_) => Ok(subtree),
        Err(PathFault::BadPath) => Err(bad),
        Err(PathFault::NoMemory) => Err(CliFault::NoMemory),
    }
}
