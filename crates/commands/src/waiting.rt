//! A terminal is told that it is waited for.
ghost use Rattle.std.specs.Prelude.{map, string_bytes};
ghost use Rattle.commands.specs.Waiting.{TellsWaiting};

use arguments::fault::ArgumentsFault;
use arguments::request::Request;
use cg_faults::fault::CliFault;
use cg_help::waiting::waiting_line;
use std::alloc::Global;
use std::io::Write;
use streams::write::write_whole;

/// Writes what the words of a command line ask to be read from standard input, where that is a terminal.
///
/// # Errors
/// `Write` where a write failed, and a front of the line may be written; `NoMemory` where an allocation was refused, and nothing is written.
pub fn tell_waiting<E: Write>(
    alloc: Global,
    words: &[String],
    is_terminal: bool,
    errors: &mut E,
) -> Result<(), CliFault>
    ensures { TellsWaiting (map string_bytes words.now) is_terminal (E.contents errors.old) (E.contents errors.new) result }
{
    if !is_terminal {
        return Ok(());
    }
    match Request::from_words(alloc, words) {
        Ok(request) => {
            let line = waiting_line(alloc, &request)?;
            write_whole(errors, line.as_slice())?;
            Ok(())
        }
        Err(ArgumentsFault::Usage) => Ok(()),
        Err(ArgumentsFault::NoMemory) => Err(CliFault::NoMemory),
    }
}
