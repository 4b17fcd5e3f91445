//! The pairs of a user and a subtree that the lines of a text name.
ghost use Rattle.std.specs.Prelude.{◌≡◌, ◌≢◌, ◌+◌, ◌<◌, ◌++◌, ◌||◌, List, [], map, length, Some, None, Ok, Err, IfOk, IfErr, OnOk, MatchResult};
ghost use Rattle.std.specs.List.{slice_split};
ghost use Rattle.arguments.specs.Given.{ids_of_pair};
ghost use Rattle.cg_cli.specs.Replays.{is_newline};
ghost use Rattle.cg_faults.specs.declared.fault.CliFault.TheVariants.{Line};
ghost use Rattle.cg_lines.specs.declared.lines.fault.LineFault.TheVariants.{BadWord};
ghost use Rattle.commands.specs.Lines.{pieces_read, lines_read};
ghost use Rattle.commands.specs.PairLines.{GivenPair, words_read, is_answer_line, is_operation_line, other_read, line_read, nothing_listed, pairs_read};

use crate::lines::{LONGEST_LINES, cut_at_newline, test_end};
use arguments::fault::ArgumentsFault;
use arguments::named_pair::NamedPair;
use cg_cgroup::files::Vocabulary;
use cg_cgroup::memory::NoMemory;
use cg_cgroup::path::{Path, PathFault};
use cg_faults::fault::CliFault;
use cg_lines::lines::{LineFault, read_op_in};
use std::alloc::Global;
use std::str;

/// What `audit` writes where it has no pair to list.
const NOTHING_LISTED: &[u8] = b"contained\n";

const CONTAINED: &[u8] = b"contained";

const ESCAPES: &[u8] = b"escapes";

/// The pairs of a text, in the order of its lines, each of which is one that `audit` with `--all` writes. There is one at least, but
/// where the text is what `audit` writes without any.
///
/// # Errors
/// `Line` with the number of the first line that is none of those (`BadWord`), that has no newline (`Cut`) or in which more stands
/// than is looked at (`TooLong`); `NoPair` where no line names a pair; `NoMemory` where an allocation was refused.
pub(crate) fn read_pairs<'a>(alloc: Global, text: &'a [u8]) -> Result<Vec<NamedPair<'a>>, CliFault>
    ensures pairs { MatchResult result
        (λ pairs. pairs_read text.now ≡ Ok (map ids_of_pair pairs.items))
        (λ fault. fault ≢ CliFault.NoMemory → pairs_read text.now ≡ Err fault) }
    ensures read { IfErr result (λ fault. fault ≢ CliFault.Write) }
{
    let pairs = lines_of(alloc, text)?;
    test_asked(text, pairs.as_slice())?;
    Ok(pairs)
}

/// Whether a text asks for some pair, or says that there is none.
fn test_asked(text: &[u8], pairs: &[NamedPair<'_>]) -> Result<(), CliFault>
    ensures asked { MatchResult result
        (λ _. pairs.now ≡ [] → text.now ≡ nothing_listed)
        (λ fault. (fault ≡ CliFault.NoPair) × (pairs.now ≡ []) × (text.now ≢ nothing_listed)) }
{
    if !pairs.is_empty() {
        return Ok(());
    }
    if text == NOTHING_LISTED {
        return Ok(());
    }
    Err(CliFault::NoPair)
}

/// The pairs of the lines of a text, which may be none.
fn lines_of<'a>(alloc: Global, text: &'a [u8]) -> Result<Vec<NamedPair<'a>>, CliFault>
    ensures pairs { MatchResult result
        (λ pairs. lines_read line_read text.now ≡ Ok (map ids_of_pair pairs.items))
        (λ fault. fault ≢ CliFault.NoMemory → lines_read line_read text.now ≡ Err fault) }
    ensures read { IfErr result (λ fault. fault ≢ CliFault.Write) }
{
    if text.len() > LONGEST_LINES {
        pairs_of(alloc, &text[..LONGEST_LINES], true)
    } else {
        pairs_of(alloc, text, false)
    }
}

/// The pairs of the lines of a text's front, where that is looked at.
fn pairs_of<'a>(
    alloc: Global,
    front: &'a [u8],
    is_long: bool,
) -> Result<Vec<NamedPair<'a>>, CliFault>
    requires { length front.now < LONGEST_LINES + 1 }
    ensures pairs { MatchResult result
        (λ pairs. pieces_read line_read is_long 0 (slice_split is_newline front.now) ≡ Ok (map ids_of_pair pairs.items))
        (λ fault. fault ≢ CliFault.NoMemory → pieces_read line_read is_long 0 (slice_split is_newline front.now) ≡ Err fault) }
    ensures read { IfErr result (λ fault. fault ≢ CliFault.Write) }
{
    let mut pairs = Vec::new(alloc);
    let mut rest = front;
    let mut done = 0;
    while let Some((line, others)) = cut_at_newline(rest) {
        push_line(alloc, &mut pairs, done, line)?;
        done += 1;
        rest = others;
    }
    test_end(is_long, done, rest)?;
    Ok(pairs)
}

/// The pair of a line, behind some, where the line names one.
fn push_line<'a>(
    alloc: Global,
    pairs: &mut Vec<NamedPair<'a>>,
    done: u32,
    line: &'a [u8],
) -> Result<(), CliFault>
    requires { done < LONGEST_LINES + 1 }
    ensures pairs { OnOk result ((more : List GivenPair) × (line_read done line.now ≡ Ok more)
        × (map ids_of_pair pairs.new.items ≡ map ids_of_pair pairs.old.items ++ more)) }
    ensures fault { IfErr result (λ fault. fault ≢ CliFault.NoMemory → line_read done line.now ≡ Err fault) }
    ensures read { IfErr result (λ fault. fault ≢ CliFault.Write) }
{
    let Some(words) = line.strip_prefix(b"pair ") else {
        return test_other(alloc, done, line);
    };
    pairs.push(pair_at(alloc, done + 1, words)?)?;
    Ok(())
}

/// Whether a line that names no pair is one of `audit`.
fn test_other(alloc: Global, done: u32, line: &[u8]) -> Result<(), CliFault>
    requires { done < LONGEST_LINES + 1 }
    ensures other { MatchResult result
        (λ _. other_read done (is_answer_line line.now || is_operation_line line.now) ≡ Ok [])
        (λ fault. fault ≢ CliFault.NoMemory → other_read done (is_answer_line line.now || is_operation_line line.now) ≡ Err fault) }
    ensures read { IfErr result (λ fault. fault ≢ CliFault.Write) }
{
    if is_answer(line) || is_operation(alloc, line)? {
        return Ok(());
    }
    Err(CliFault::Line {
        number: done + 1,
        fault: LineFault::BadWord,
    })
}

/// Whether a line is the first of an answer to a pair.
fn is_answer(line: &[u8]) -> bool
    ensures { result ≡ is_answer_line line.now }
{
    if line == CONTAINED {
        return true;
    }
    if line == ESCAPES {
        return true;
    }
    line.strip_prefix(b"unsettled ").is_some()
}

/// Whether a line is an operation's.
fn is_operation(alloc: Global, line: &[u8]) -> Result<bool, NoMemory>
    ensures { IfOk result (λ is. is ≡ is_operation_line line.now) }
{
    match read_op_in(alloc, Vocabulary::Format4, line) {
        Ok(_op) => Ok(true),
        Err(LineFault::NoMemory) => Err(NoMemory),
        Err(LineFault::TooLong) => Ok(false),
        Err(LineFault::BadWord) => Ok(false),
        Err(LineFault::Cut) => Ok(false),
    }
}

/// The pair that the words of a line name.
fn pair_at<'a>(alloc: Global, number: u32, words: &'a [u8]) -> Result<NamedPair<'a>, CliFault>
    ensures pair { MatchResult result
        (λ pair. words_read words.now ≡ Some (ids_of_pair pair))
        (λ fault. fault ≢ CliFault.NoMemory → (words_read words.now ≡ None) × (fault ≡ Line number BadWord)) }
    ensures read { IfErr result (λ fault. fault ≢ CliFault.Write) }
{
    match pair_of(alloc, words) {
        Ok(pair) => Ok(pair),
        Err(ArgumentsFault::Usage) => Err(CliFault::Line {
            number,
            fault: LineFault::BadWord,
        }),
        Err(ArgumentsFault::NoMemory) => Err(CliFault::NoMemory),
    }
}

/// The pair of words that are text, whose subtree is a path.
fn pair_of<'a>(alloc: Global, words: &'a [u8]) -> Result<NamedPair<'a>, ArgumentsFault>
    ensures { MatchResult result
        (λ pair. words_read words.now ≡ Some (ids_of_pair pair))
        (λ fault. fault ≢ ArgumentsFault.NoMemory → words_read words.now ≡ None) }
{
    let Ok(words) = str::from_utf8(words) else {
        return Err(ArgumentsFault::Usage);
    };
    let pair = NamedPair::from_words(alloc, words)?;
    match Path::parse(alloc, pair.subtree) {
        Ok(_) => Ok(pair),
        Err(PathFault::BadPath) => Err(ArgumentsFault::Usage),
        Err(PathFault::NoMemory) => Err(ArgumentsFault::NoMemory),
    }
}
