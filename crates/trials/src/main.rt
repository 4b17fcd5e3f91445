//! One call of the libraries, told by words, so that each of its allocations can be refused in turn.
//!
//! `trials SPENT BEGIN END CALL WORD ..` makes SPENT allocations and gives them back, prepares the call, makes it, and makes
//! it again where it wanted memory. The tree of the call is standard input. BEGIN and END are how many allocations are made
//! at most before the call and at the end, to find which is refused. Without words it does nothing.
#![tactic(auto)]

mod allocations;
mod begin;
mod bytes;
mod calls;
mod checks;
mod lent;
mod operations;
mod paths;
mod reader;
mod said;
mod texts;
mod trees;
mod trial;
mod words;

use begin::{Begin, Stopped};
use cg_faults::fault::CliFault;
use said::Said;
use std::alloc::Global;
use std::io::{Read, Write};
use std::process::ExitCode;
use std::rt::Env;
use std::{env, io};
use streams::read::read_input;
use trial::{Ended, Trial};

/// The call came to no answer: its words aren't those of a call.
const BAD_WORDS: u8 = 3;

fn main(rt: HostRuntime) -> ExitCode {
    let mut out = rt.stdout();
    let Ok(words) = words_of(&rt) else {
        return ExitCode::from(shown(&mut out, b"setup\n", 0));
    };
    if words.is_empty() {
        return ExitCode::from(0);
    }
    let Ok(mut trial) = Trial::new(rt.alloc(), words.as_slice()) else {
        return ExitCode::from(BAD_WORDS);
    };
    let ended = tried(rt.stdin(), &mut trial);
    ExitCode::from(told(rt.alloc(), &trial.begin, ended, &mut out))
}

/// Makes the call that the words tell, on the tree that is read.
fn tried<R: Read + Drop>(input: R, trial: &mut Trial<'_>) -> Ended {
    trial.begin.start(trial.alloc)?;
    let tree = read_input(trial.alloc, input).map_err(CliFault::from)?;
    calls::made(tree.as_slice(), trial)
}

fn words_of<R: AllocGlobal + Env>(rt: &R) -> io::Result<Vec<String>> {
    Ok(env::args(rt)?.collect(rt.alloc())?)
}

/// Writes how the trial ended, and how many allocations went through at its end.
fn told<W: Write>(alloc: Global, begin: &Begin, ended: Ended, out: &mut W) -> u8 {
    match ended {
        Ok(said) => {
            let made = begin.end(alloc);
            let _ = writeln!(out, "end {made}");
            shown_whole(out, &said)
        }
        Err(Stopped::Probed(made)) => {
            let _ = writeln!(out, "begin {made}");
            0
        }
        Err(Stopped::BadWords) => BAD_WORDS,
        Err(Stopped::NoMemory) if begin.has_begun => shown(out, b"after\n", 0),
        Err(Stopped::NoMemory) => shown(out, b"setup\n", 0),
    }
}

/// Writes what was said.
fn shown_whole<W: Write>(out: &mut W, said: &Said) -> u8 {
    let first = match (said.wanted, said.kept) {
        (true, true) => b"memory kept\n".as_slice(),
        (true, false) => b"memory changed\n",
        (false, true) => b"answer\n",
        (false, false) => b"answer changed\n",
    };
    let status = shown(out, first, 0);
    shown(out, said.text.as_slice(), status)
}

fn shown<W: Write>(out: &mut W, text: &[u8], status: u8) -> u8 {
    match out.write_all(text) {
        Ok(()) => status,
        Err(_) => 1,
    }
}
