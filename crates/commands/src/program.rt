//! The whole program: what the host gives it in, its status and its streams out.
ghost use Rattle.std.specs.Prelude.{◌≡◌, ◌≢◌, ◌⊎◌, ℕ, map, string_bytes, Option, Result, Err, IfOk, IsErrAnd, MatchOption, MatchResult};
ghost use Rattle.std.specs.IoError.{error_kind};
ghost use Rattle.std.specs.Io.KnownBytes.{Keeps};
ghost use Rattle.commands.specs.Beside.{IsBeside};
ghost use Rattle.commands.specs.Runs.{exit_status, TellsFault, TellsBeside, Tells, RunsTo};
ghost use Rattle.commands.specs.Yes.{CheckMeans, AuditMeans, EverybodyMeans};
ghost use Rattle.commands.specs.declared.fault.Fault.{Fault};
ghost use Rattle.commands.specs.declared.fault.Fault.TheVariants.{Cli, Usage as UsageFault};
ghost use Rattle.streams.specs.declared.write.WriteFailed.{WriteFailed};
ghost use Rattle.cg_faults.specs.declared.fault.CliFault.TheVariants.{NoMemory as MemoryFault};

use crate::carried::Noted;
use crate::fault::{Fault, Untold, written};
use crate::run::{CommandLine, run};
use cg_cgroup::memory::NoMemory;
use cg_help::beside::{Beside, beside_lines};
use cg_help::help::{Seen, help_text};
use std::alloc::Global;
use std::io;
use std::io::{ErrorKind, Read, Write};
use streams::again::Again;
use streams::files::Files;
use streams::kept::Kept;

/// The status of a fault.
const FAULT: u8 = 3;

const NOTHING: Beside = Beside {
    mode: None,
    stranger: None,
    missing: None,
};

/// Where there are no words, nothing was read.
const UNSEEN: Seen<'static, 'static, 'static> = Seen {
    words: None,
    input: None,
    line: None,
};

/// How the program ended.
#[derive(Drop)]
pub struct Ended<W, E> {
    pub status: u8,
    /// The writer of the report. There is none where there was no memory for the buffer before it.
    pub out: Option<W>,
    /// Whether all that is told on standard error lies there.
    pub told: Result<(), Untold>,
    /// The writer of a fault's line, or of what stands beside an answer.
    pub errors: E,
}

/// Runs the program on the words of a command line, where they can be had, with the files that there are and its three streams. The
/// status is the command's, or 3 where there is a fault; then its line is printed to `errors`, and below it help, from a second look
/// at the words, the files and the input.
///
/// Where the words ask `check` or `audit`, status 0 says that the text that was read tells of a machine in which what they name is
/// contained against whom they name, or where they ask `audit --everybody` against everybody but root, whoever there
/// is, and with `--subtrees` each path that is a line of the text that it names.
pub fn run_program<F: Files, I: Read + Drop, W: Write + Drop, E: Write + Drop>(
    alloc: Global,
    version: &str,
    words: io::Result<Vec<String>>,
    files: &F,
    input: I,
    out: W,
    errors: E,
) -> Ended<W, E>
    ensures runs { (answer : Result ℕ Fault) × (beside : Beside) × (result.status ≡ exit_status answer)
        × Tells answer beside (E.contents errors) (E.contents result.errors) result.told
        × MatchOption result.out (answer ≡ Err (Cli MemoryFault)) (λ below. MatchResult words
        (λ words. (written : Result (Unit {0}) WriteFailed) × RunsTo (map string_bytes words.items) (F.given files.now)
        (I.remaining input) (W.contents out) (W.contents below) answer written
        × IsBeside (map string_bytes words.items) (F.given files.now) (I.remaining input) answer beside)
        (λ error. Keeps (W.contents out) (W.contents below)
        × IsErrAnd answer (λ fault. ((fault ≡ UsageFault) × (error_kind error ≢ ErrorKind.OutOfMemory))
        ⊎ ((fault ≡ Cli MemoryFault) × (error_kind error ≡ ErrorKind.OutOfMemory))))) }
    ensures check { IfOk words (λ words. CheckMeans (map string_bytes words.items) (F.given files.now) (I.remaining input) result.status) }
    ensures audit { IfOk words (λ words. AuditMeans (map string_bytes words.items) (F.given files.now) (I.remaining input) result.status) }
    ensures everybody { IfOk words (λ words. EverybodyMeans (map string_bytes words.items) (F.given files.now) (I.remaining input) result.status) }
{
    match words {
        Ok(words) => {
            let line = CommandLine {
                version,
                words: words.as_slice(),
            };
            run_line(alloc, line, files, input, out, errors)
        }
        Err(error) => {
            let mut errors = Again { inner: errors };
            let answer = Err(Fault::of_words(error));
            let (status, told) = status_told(alloc, files, answer, UNSEEN, &NOTHING, &mut errors);
            Ended {
                status,
                out: Some(out),
                told,
                errors: errors.inner,
            }
        }
    }
}

/// Runs the program on a command line.
fn run_line<F: Files, I: Read + Drop, W: Write + Drop, E: Write + Drop>(
    alloc: Global,
    line: CommandLine<'_>,
    files: &F,
    input: I,
    out: W,
    errors: E,
) -> Ended<W, E>
    ensures { (answer : Result ℕ Fault) × (beside : Beside) × (result.status ≡ exit_status answer)
        × Tells answer beside (E.contents errors) (E.contents result.errors) result.told
        × MatchOption result.out (answer ≡ Err (Cli MemoryFault)) (λ below.
        (written : Result (Unit {0}) WriteFailed) × RunsTo (map string_bytes line.entry.words.now) (F.given files.now)
        (I.remaining input) (W.contents out) (W.contents below) answer written
        × IsBeside (map string_bytes line.entry.words.now) (F.given files.now) (I.remaining input) answer beside) }
{
    let mut errors = Again { inner: errors };
    let mut input = Kept::new(alloc, input);
    let mut noted = Noted {
        line: None,
        beside: NOTHING,
    };
    let ended = run(alloc, line, files, &mut input, &mut noted, out);
    let seen = Seen {
        words: Some(line.words),
        input: input.whole(),
        line: noted.line.as_ref().map(Vec::as_slice),
    };
    let beside = &noted.beside;
    let (status, told) = status_told(alloc, files, ended.answer, seen, beside, &mut errors);
    Ended {
        status,
        out: ended.out,
        told,
        errors: errors.inner,
    }
}

/// The status of an answer, and whether all that is told was written. Where the answer is a fault, its line is written, and help
/// below it; else what stands beside an answer.
fn status_told<F: Files, E: Write>(
    alloc: Global,
    files: &F,
    answer: Result<u8, Fault>,
    seen: Seen<'_, '_, '_>,
    beside: &Beside,
    errors: &mut E,
) -> (u8, Result<(), Untold>)
    ensures status { result.0 ≡ exit_status answer }
    ensures told { Tells answer beside.now (E.contents errors.old) (E.contents errors.new) result.1 }
{
    match answer {
        Ok(status) => (status, tell_beside(alloc, beside, errors)),
        Err(fault) => (FAULT, tell(alloc, files, fault, seen, errors)),
    }
}

/// Writes a fault's line, and below it what a second look finds. Where the line can't be written there is no help.
fn tell<F: Files, E: Write>(
    alloc: Global,
    files: &F,
    fault: Fault,
    seen: Seen<'_, '_, '_>,
    errors: &mut E,
) -> Result<(), Untold>
    ensures { TellsFault fault (E.contents errors.old) (E.contents errors.new) result }
{
    fault.print(alloc, errors)?;
    let of_call = fault.call_fault();
    match help_text(alloc, files, of_call.as_ref(), seen) {
        Err(NoMemory) => Err(Untold::NoMemory),
        Ok(help) => written(errors, help.as_slice()),
    }
}

/// Writes what stands beside an answer.
fn tell_beside<E: Write>(alloc: Global, beside: &Beside, errors: &mut E) -> Result<(), Untold>
    ensures { TellsBeside beside.now (E.contents errors.old) (E.contents errors.new) result }
{
    match beside_lines(alloc, beside) {
        Err(NoMemory) => Err(Untold::NoMemory),
        Ok(lines) => written(errors, lines.as_slice()),
    }
}
