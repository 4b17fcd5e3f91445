//! What the words of a command line ask for is carried out, through a buffer.
ghost use Rattle.std.specs.Prelude.{◌≡◌, [], map, string_bytes, Err, IfOk, OnOk, IsOk, IsErr, MatchOption};
ghost use Rattle.std.specs.Io.Buffered.{writer_buffer, writer_contents};
ghost use Rattle.std.specs.Io.KnownBytes.{Keeps};
ghost use Rattle.commands.specs.Beside.{IsNotedFor, IsBeside};
ghost use Rattle.commands.specs.Runs.{IsFlushed, CarriesOutBuffered, LeadsTo, in_program, TellsWrites, RunsTo};
ghost use Rattle.commands.specs.declared.fault.Fault.TheVariants.{Cli};
ghost use Rattle.cg_faults.specs.declared.fault.CliFault.TheVariants.{NoMemory as MemoryFault};

use crate::carried::{Noted, carried_out};
use crate::fault::Fault;
use arguments::request::Request;
use cg_faults::fault::CliFault;
use std::alloc::Global;
use std::io::{BufWriter, Read, Write};
use streams::again::Again;
use streams::files::Files;
use streams::write::WriteFailed;

/// How a run ended.
#[derive(Drop)]
pub struct Ended<W> {
    /// The status of the command, or why there is none.
    pub answer: Result<u8, Fault>,
    /// Whether all that was answered lies in the writer, or a write failed.
    pub written: Result<(), WriteFailed>,
    /// The writer. There is none where there was no memory for the buffer before it.
    pub out: Option<W>,
}

/// A command line, and which version the program says that it is.
#[derive(Clone, Copy, Debug)]
pub struct CommandLine<'a> {
    pub version: &'a str,
    pub words: &'a [String],
}

/// Carries out what the words of a command line ask for.
///
/// What no file is named for is read from `input`, and the report goes to `out`, through a buffer. What help is made of is put into
/// `noted`.
pub fn run<F: Files, I: Read + Drop, W: Write + Drop>(
    alloc: Global,
    line: CommandLine<'_>,
    files: &F,
    input: I,
    noted: &mut Noted,
    out: W,
) -> Ended<W>
    ensures answer { MatchOption result.out
        (result.answer ≡ Err (Cli MemoryFault))
        (λ written. RunsTo (map string_bytes line.entry.words.now) (F.given files.now) (I.remaining input)
        (W.contents out) (W.contents written) result.answer result.written) }
    ensures beside { IsBeside (map string_bytes line.entry.words.now) (F.given files.now) (I.remaining input) result.answer noted.new.beside }
{
    let Ok(mut report) = BufWriter::new(alloc, Again { inner: out }) else {
        return Ended {
            answer: Err(Fault::Cli(CliFault::NoMemory)),
            written: Ok(()),
            out: None,
        };
    };
    let (answer, written) = answered(alloc, line, files, input, noted, &mut report);
    // what a write left that failed isn't written again
    let (below, _) = report.into_parts();
    Ended {
        answer,
        written,
        out: Some(below.inner),
    }
}

/// What was answered, and whether all of it is written.
type Answered<E> = (Result<u8, E>, Result<(), WriteFailed>);

/// Carries out what the words ask for, with a report that is held in a buffer.
fn answered<F: Files, I: Read + Drop, W: Write + Drop>(
    alloc: Global,
    line: CommandLine<'_>,
    files: &F,
    input: I,
    noted: &mut Noted,
    report: &mut BufWriter<W>,
) -> Answered<Fault>
    requires { writer_buffer report.old ≡ [] }
    ensures leads { LeadsTo (map string_bytes line.entry.words.now) (F.given files.now) (I.remaining input)
        (writer_contents W.contents report.old) (writer_contents W.contents report.new) result.0 }
    ensures tells { TellsWrites result.0 result.1 }
    ensures whole { OnOk result.1 (writer_buffer report.new ≡ []) }
    ensures beside { IsBeside (map string_bytes line.entry.words.now) (F.given files.now) (I.remaining input) result.0 noted.new.beside }
{
    match Request::from_words(alloc, line.words) {
        Err(fault) => (Err(Fault::from(fault)), Ok(())),
        Ok(request) => {
            let (ended, written) = reported(
                alloc,
                line.version,
                &request,
                files,
                input,
                noted,
                report,
            );
            (in_program(ended), written)
        }
    }
}

/// What a call came to, to the program.
fn in_program(ended: Result<u8, CliFault>) -> Result<u8, Fault>
    ensures { result ≡ in_program ended }
{
    match ended {
        Ok(status) => Ok(status),
        Err(fault) => Err(Fault::Cli(fault)),
    }
}

/// Carries a request out whose report is held in a buffer.
fn reported<F: Files, I: Read + Drop, W: Write + Drop>(
    alloc: Global,
    version: &str,
    request: &Request<'_>,
    files: &F,
    input: I,
    noted: &mut Noted,
    report: &mut BufWriter<W>,
) -> Answered<CliFault>
    ensures carried { CarriesOutBuffered request.now (F.given files.now) (I.remaining input)
        (writer_contents W.contents report.old) (writer_contents W.contents report.new) result.0 }
    ensures status { IfOk result.0 (λ status. IsOk result.1) }
    ensures failed { result.0 ≡ Err CliFault.Write → IsErr result.1 }
    ensures whole { OnOk result.1 (writer_buffer report.new ≡ []) }
    ensures noted { IfOk result.0 (λ _. IsNotedFor request.now (F.given files.now) (I.remaining input) noted.new.beside) }
{
    let ended = carried_out(alloc, version, request, files, input, noted, report);
    flushed(ended, report)
}

/// How a call ended whose report is held in a buffer, and whether all of it is written: its own fault comes before the flush's, and
/// what was said before it is written. Where a write has failed already, nothing more is.
fn flushed<W: Write + Drop>(
    ended: Result<u8, CliFault>,
    report: &mut BufWriter<W>,
) -> Answered<CliFault>
    ensures ended { IsFlushed ended result.0 }
    ensures status { IfOk result.0 (λ status. IsOk result.1) }
    ensures failed { result.0 ≡ Err CliFault.Write → IsErr result.1 }
    ensures whole { OnOk result.1 (writer_buffer report.new ≡ []) }
    ensures untouched { ended ≡ Err CliFault.Write → report.new ≡ report.old }
    ensures kept { Keeps (writer_contents W.contents report.old) (writer_contents W.contents report.new) }
{
    if let Err(CliFault::Write) = ended {
        return (ended, Err(WriteFailed));
    }
    match report.flush() {
        Ok(()) => (ended, Ok(())),
        Err(_) => (ended.and(Err(CliFault::Write)), Err(WriteFailed)),
    }
}
