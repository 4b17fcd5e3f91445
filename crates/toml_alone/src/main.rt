//! Reads a TOML text from standard input, and says by its status alone whether it is one: what `tools/bench/run` compares the
//! reading of a tree with.
#![tactic(auto)]

ghost use Rattle.std.specs.Prelude.{◌≡◌, None, true, is_some};
ghost use Rattle.std.specs.Str.{IsUtf8};
ghost use Rattle.toml.specs.Parse.{parse_document};

use std::alloc::Global;
use std::io::Read;
use std::process::ExitCode;

/// The status of a text: 0 where it is a TOML document, 1 where it is none, and 2 where an allocation was refused.
fn status_of(alloc: Global, text: &[u8]) -> u8
    ensures document { result ≡ 0 → is_some (parse_document text.now) ≡ true }
    ensures none { result ≡ 1 → IsUtf8 text.now → parse_document text.now ≡ None }
{
    match toml::table_from_slice(alloc, text) {
        Ok(_) => 0,
        Err(error) if error.is_memory() => 2,
        Err(_) => 1,
    }
}

fn main(rt: HostRuntime) -> ExitCode {
    let mut text = Vec::new(rt.alloc());
    if rt.stdin().read_to_end(&mut text).is_err() {
        return ExitCode::from(2);
    }
    ExitCode::from(status_of(rt.alloc(), text.as_slice()))
}
