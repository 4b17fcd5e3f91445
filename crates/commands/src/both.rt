//! The command that is asked of a tree and of operations: a replay.
ghost use Rattle.std.specs.Prelude.{◌≡◌, None, IfOk, IfErr};
ghost use Rattle.cg_format.specs.Readings.{OnText, vocabulary_in};
ghost use Rattle.arguments.specs.Given.{tree_file, other_file};
ghost use Rattle.cg_help.specs.Modes.{spelled_mode};
ghost use Rattle.commands.specs.Beside.{IsPlain};
ghost use Rattle.commands.specs.Requests.{source, replay_said, ReplaysOver, ReplaysOnTree};

use crate::carried::Noted;
use crate::texts::{file_text, opened, tree_text};
use crate::users::{format_of, ids};
use arguments::request::{Replay, Sources};
use cg_cli::replay::replay_from_in;
use cg_faults::fault::CliFault;
use cg_help::beside::Beside;
use cg_help::modes::spelled_mode;
use std::alloc::Global;
use std::io::{BufReader, Read, Write};
use streams::again::Again;
use streams::files::Files;
use streams::line::{LineKept, line_of};

/// A replay, and the place of the line that ends it.
#[derive(Drop)]
struct Replaying<'r, 'a> {
    asked: &'r Replay<'a>,
    line: &'r mut Option<Vec<u8>>,
}

/// Replays operations on a tree. Where one of their lines ends it, that line is noted.
pub(crate) fn replay<F: Files, I: Read + Drop, W: Write>(
    alloc: Global,
    asked: &Replay<'_>,
    files: &F,
    input: I,
    noted: &mut Noted,
    out: &mut W,
) -> Result<u8, CliFault>
    ensures answer { ReplaysOnTree asked.now (source (F.given files.now) (tree_file asked.now.sources) (I.remaining input))
        (source (F.given files.now) (other_file asked.now.sources) (I.remaining input))
        (W.contents out.old) (W.contents out.new) result }
    ensures noted { IfOk result (λ _. IsPlain (source (F.given files.now) (tree_file asked.now.sources) (I.remaining input)) noted.new.beside) }
{
    match asked.sources {
        Sources::Files(tree, ops) => {
            let tree = file_text(alloc, files, tree)?;
            noted.beside = plain(alloc, tree.as_slice())?;
            let line = &mut noted.line;
            let of = Replaying { asked, line };
            replay_file(alloc, tree.as_slice(), of, files, ops, out)
        }
        Sources::TreeGiven(ops) => {
            let tree = tree_text(alloc, files, None, input)?;
            noted.beside = plain(alloc, tree.as_slice())?;
            let line = &mut noted.line;
            let of = Replaying { asked, line };
            replay_file(alloc, tree.as_slice(), of, files, ops, out)
        }
        Sources::OtherGiven(tree) => {
            let tree = file_text(alloc, files, tree)?;
            noted.beside = plain(alloc, tree.as_slice())?;
            let line = &mut noted.line;
            let of = Replaying { asked, line };
            replayed(alloc, tree.as_slice(), of, input, out)
        }
    }
}

/// Replays the operations of a file.
fn replay_file<F: Files, W: Write>(
    alloc: Global,
    tree: &[u8],
    of: Replaying<'_, '_>,
    files: &F,
    file: &str,
    out: &mut W,
) -> Result<u8, CliFault>
    ensures { OnText tree.now (λ read. ReplaysOver of.entry.asked.now.format (F.given files.now file.now) (replay_said of.entry.asked.now (vocabulary_in tree.now) read)
        (W.contents out.old) (W.contents out.new) result) }
{
    let ops = opened(files, file)?;
    replayed(alloc, tree, of, ops, out)
}

/// Replays what a reader gives, behind a buffer.
fn replayed<O: Read + Drop, W: Write>(
    alloc: Global,
    tree: &[u8],
    of: Replaying<'_, '_>,
    ops: O,
    out: &mut W,
) -> Result<u8, CliFault>
    ensures { OnText tree.now (λ read. ReplaysOver of.entry.asked.now.format (O.remaining ops) (replay_said of.entry.asked.now (vocabulary_in tree.now) read)
        (W.contents out.old) (W.contents out.new) result) }
{
    let inner = LineKept {
        inner: Again { inner: ops },
        bytes: Vec::new(alloc),
        is_whole: true,
    };
    let Ok(mut ops) = BufReader::new(alloc, inner) else {
        return Err(CliFault::NoMemory);
    };
    let format = format_of(of.asked.format);
    let replayer = ids(&of.asked.user);
    let ended = replay_from_in(
        alloc,
        format,
        tree,
        replayer,
        of.asked.subtree,
        &mut ops,
        out,
    );
    if let Err(CliFault::Line { .. }) = ended {
        if let Ok(kept) = line_of(alloc, &ops) {
            *of.line = kept;
        }
    }
    ended
}

/// What is noted of a tree's text where no user is asked about.
pub(crate) fn plain(alloc: Global, text: &[u8]) -> Result<Beside, CliFault>
    ensures fault { IfErr result (λ fault. fault ≡ CliFault.NoMemory) }
    ensures mode { IfOk result (λ beside. beside.mode ≡ spelled_mode text.now) }
    ensures stranger { IfOk result (λ beside. beside.stranger ≡ None) }
    ensures missing { IfOk result (λ beside. beside.missing ≡ None) }
{
    Ok(Beside {
        mode: spelled_mode(alloc, text)?,
        stranger: None,
        missing: None,
    })
}
