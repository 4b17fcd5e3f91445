//! The commands that are asked of everybody, of a tree and of the subtrees that a text names.
ghost use Rattle.std.specs.Prelude.{◌⊎◌, IfOk, map};
ghost use Rattle.cg_format.specs.Readings.{OnText};
ghost use Rattle.cg_cli.specs.Everybody.{everybody_report_in};
ghost use Rattle.cg_cli.specs.Reports.{Reports};
ghost use Rattle.arguments.specs.Given.{tree_file, other_file};
ghost use Rattle.commands.specs.Beside.{IsPlain};
ghost use Rattle.commands.specs.Requests.{source, format_of, whom, wanted_of, EverybodyOn, IsUnread, AnswersLines, OnBothTexts};
ghost use Rattle.commands.specs.SubtreeLines.{subtrees_read};

use crate::both::plain;
use crate::carried::Noted;
use crate::lines::line_at;
use crate::subtrees::read_subtrees;
use crate::texts::both_texts;
use crate::users::{all_members, format_of, wanted_of};
use arguments::everyone::{Everyone, Wanted};
use arguments::format::Format;
use arguments::request::Subtrees;
use cg_cli::everybody::everybody_bytes_in;
use cg_everybody::asked::Asked;
use cg_faults::fault::CliFault;
use std::alloc::Global;
use std::io::{Read, Write};
use streams::files::Files;

/// Answers on the subtrees of a text and everybody, but for who is left out. Where one of its lines ends it, that line is noted.
pub(crate) fn on_subtrees<F: Files, I: Read + Drop, W: Write>(
    alloc: Global,
    asked: &Subtrees<'_>,
    files: &F,
    input: I,
    noted: &mut Noted,
    out: &mut W,
) -> Result<u8, CliFault>
    ensures answer { OnBothTexts subtrees_read (EverybodyOn asked.now.format (wanted_of asked.now.wanted) (whom asked.now.everyone))
        (source (F.given files.now) (tree_file asked.now.sources) (I.remaining input))
        (source (F.given files.now) (other_file asked.now.sources) (I.remaining input))
        (W.contents out.old) (W.contents out.new) result }
    ensures noted { IfOk result (λ _. IsPlain (source (F.given files.now) (tree_file asked.now.sources) (I.remaining input)) noted.new.beside) }
{
    let texts = both_texts(alloc, asked.sources, files, input)?;
    noted.beside = plain(alloc, texts.tree.as_slice())?;
    answered(
        alloc,
        asked.format,
        asked.wanted,
        &asked.everyone,
        texts.tree.as_slice(),
        texts.other.as_slice(),
        &mut noted.line,
        out,
    )
}

/// Answers on the subtrees of a text and the text of a tree.
fn answered<W: Write>(
    alloc: Global,
    format: Format,
    wanted: Wanted,
    everyone: &Everyone,
    tree: &[u8],
    text: &[u8],
    line: &mut Option<Vec<u8>>,
    out: &mut W,
) -> Result<u8, CliFault>
    ensures { AnswersLines subtrees_read (EverybodyOn format (wanted_of wanted) (whom everyone.now)) tree.now text.now (W.contents out.old) (W.contents out.new) result }
{
    match read_subtrees(alloc, text) {
        Err(fault) => {
            *line = line_at(alloc, text, &fault);
            Err(fault)
        }
        Ok(subtrees) => {
            against_everybody(
                alloc,
                format,
                tree,
                wanted,
                everyone,
                subtrees.as_slice(),
                out,
            )
        }
    }
}

/// Answers on subtrees and everybody, but for who is left out.
pub(crate) fn against_everybody<W: Write>(
    alloc: Global,
    format: Format,
    tree: &[u8],
    wanted: Wanted,
    everyone: &Everyone,
    subtrees: &[&str],
    out: &mut W,
) -> Result<u8, CliFault>
    ensures { OnText tree.now (λ read. Reports
        (everybody_report_in (format_of format) (wanted_of wanted) (whom everyone.now) read (map (λ subtree. subtree.now) subtrees.now))
        (W.contents out.old) (W.contents out.new) result)
        ⊎ IsUnread (W.contents out.old) (W.contents out.new) result }
{
    let groups = all_members(alloc, everyone.groups.as_slice())?;
    let asked = Asked {
        but: everyone.but.as_slice(),
        groups: groups.as_slice(),
    };
    let (format, wanted) = (format_of(format), wanted_of(wanted));
    everybody_bytes_in(alloc, format, tree, wanted, &asked, subtrees, out)
}
