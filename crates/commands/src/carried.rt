//! A request is carried out: its tree is read, its files are opened, and one call answers.
ghost use Rattle.std.specs.Prelude.{ℕ, List, Ok, IfOk};
ghost use Rattle.cg_cli.specs.Reports.{Reports};
ghost use Rattle.commands.specs.Beside.{IsNotedFor};
ghost use Rattle.commands.specs.Requests.{CarriesOut};

use crate::both::replay;
use crate::on_pairs::{Advising, Auditing, Explaining, on_pairs};
use crate::on_subtrees::on_subtrees;
use crate::on_tree::{Settling, on_tree};
use arguments::request::Request;
use cg_faults::fault::CliFault;
use cg_help::beside::Beside;
use clap::error::ErrorKind;
use std::alloc::Global;
use std::io::{Read, Write};
use streams::files::Files;
use streams::write::write_whole;

/// What help is made of.
#[derive(Drop)]
pub struct Noted {
    /// The line of operations, pairs or subtrees that ended a command, as far as it was read and kept.
    pub line: Option<Vec<u8>>,
    pub beside: Beside,
}

/// Carries out a request. What no file is named for is read from `input`, and the report goes to `out`.
pub(crate) fn carried_out<F: Files, I: Read + Drop, W: Write>(
    alloc: Global,
    version: &str,
    request: &Request<'_>,
    files: &F,
    input: I,
    noted: &mut Noted,
    out: &mut W,
) -> Result<u8, CliFault>
    ensures answer { CarriesOut request.now (F.given files.now) (I.remaining input) (W.contents out.old) (W.contents out.new) result }
    ensures noted { IfOk result (λ _. IsNotedFor request.now (F.given files.now) (I.remaining input) noted.new.beside) }
{
    noted.beside = Beside {
        mode: None,
        stranger: None,
        missing: None,
    };
    let beside = &mut noted.beside;
    match request {
        Request::Help(help) => shown(alloc, version, help, out),
        Request::May(asked) => on_tree(alloc, asked, files, input, beside, out),
        Request::Check(asked) => on_tree(alloc, asked, files, input, beside, out),
        Request::Settle(asked) => { on_tree(alloc, &Settling { asked }, files, input, beside, out) }
        Request::Audit(asked) => on_tree(alloc, asked, files, input, beside, out),
        Request::Everybody(asked) => on_tree(alloc, asked, files, input, beside, out),
        Request::Subtrees(asked) => on_subtrees(alloc, asked, files, input, noted, out),
        Request::Explain(asked) => on_tree(alloc, asked, files, input, beside, out),
        Request::Advise(asked) => on_tree(alloc, asked, files, input, beside, out),
        Request::Upgrade(asked) => on_tree(alloc, asked, files, input, beside, out),
        Request::AdvisePairs(asked) => {
            let advising = Advising {
                format: asked.format,
            };
            on_pairs(alloc, &advising, asked.sources, files, input, noted, out)
        }
        Request::AuditPairs(asked) => {
            let auditing = Auditing {
                format: asked.format,
            };
            on_pairs(alloc, &auditing, asked.sources, files, input, noted, out)
        }
        Request::ExplainPairs(asked) => {
            let explaining = Explaining {
                format: asked.format,
            };
            on_pairs(alloc, &explaining, asked.sources, files, input, noted, out)
        }
        Request::Replay(asked) => replay(alloc, asked, files, input, noted, out),
    }
}

/// Shows help, in clap's words, or which program this is.
fn shown<W: Write>(
    alloc: Global,
    version: &str,
    help: &clap::Error,
    out: &mut W,
) -> Result<u8, CliFault>
    ensures { (text : List ℕ) × Reports (record { text = text; ending = Ok 0 }) (W.contents out.old) (W.contents out.new) result }
{
    let text = match help.kind() {
        ErrorKind::DisplayVersion => format!(in alloc; "zirofen {version}\n")?,
        _ => format!(in alloc; "{help}")?,
    };
    write_whole(out, text.as_bytes())?;
    Ok(0)
}
