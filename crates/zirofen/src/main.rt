//! Zirofen's program: the host's words, files and streams are handed over, and the status back.
#![tactic(auto)]

mod version;

use commands::program::run_program;
use commands::waiting::tell_waiting;
use std::io::IsTerminal;
use std::process::ExitCode;
use std::{env, io};
use streams::again::Again;
use streams::files::HostFiles;
use version::VERSION;

fn main(rt: HostRuntime) -> ExitCode {
    let words = words(&rt);
    if let Ok(words) = &words {
        let is_terminal = rt.stdin().is_terminal();
        let mut errors = Again { inner: rt.stderr() };
        // nobody is left to be told where that fails
        let _ = tell_waiting(rt.alloc(), words.as_slice(), is_terminal, &mut errors);
    }
    ExitCode::from(
        run_program(
            rt.alloc(),
            VERSION,
            words,
            &HostFiles { rt: &rt },
            rt.stdin(),
            rt.stdout(),
            rt.stderr(),
        )
        .status,
    )
}

fn words(rt: &HostRuntime) -> io::Result<Vec<String>> {
    Ok(env::args(rt)?.collect(rt.alloc())?)
}
