//! The text of a tree, and one beside it, from a file where one is named, and else from standard input.
ghost use Rattle.std.specs.Prelude.{◌≡◌, ◌⊎◌, IfOk, IfErr};
ghost use Rattle.arguments.specs.Given.{tree_file, other_file};
ghost use Rattle.commands.specs.Requests.{source, name_of, IsTree, IsOtherText};

use arguments::request::Sources;
use cg_faults::fault::CliFault;
use cg_input::read::read_tree_input;
use std::alloc::Global;
use std::io::Read;
use streams::files::Files;
use streams::read::read_input;

/// A tree's text, and one beside it.
#[derive(Drop)]
pub(crate) struct Texts {
    pub tree: Vec<u8>,
    pub other: Vec<u8>,
}

/// The text of a tree, and then the one beside it.
pub(crate) fn both_texts<F: Files, I: Read + Drop>(
    alloc: Global,
    sources: Sources<'_>,
    files: &F,
    input: I,
) -> Result<Texts, CliFault>
    ensures tree { IfOk result (λ texts. IsTree (source (F.given files.now) (tree_file sources.entry) (I.remaining input)) texts.tree.items) }
    ensures other { IfOk result (λ texts. IsOtherText (source (F.given files.now) (other_file sources.entry) (I.remaining input)) texts.other.items) }
    ensures fault { IfErr result (λ fault. (fault ≡ CliFault.Read) ⊎ (fault ≡ CliFault.NoMemory)) }
{
    match sources {
        Sources::Files(tree, other) => {
            let tree = file_text(alloc, files, tree)?;
            let other = read_input(alloc, opened(files, other)?)?;
            Ok(Texts { tree, other })
        }
        Sources::TreeGiven(other) => {
            let tree = tree_text(alloc, files, None, input)?;
            let other = read_input(alloc, opened(files, other)?)?;
            Ok(Texts { tree, other })
        }
        Sources::OtherGiven(tree) => {
            let tree = file_text(alloc, files, tree)?;
            let other = read_input(alloc, input)?;
            Ok(Texts { tree, other })
        }
    }
}

/// The text of the tree: of the file where one is named, and else of the input.
pub(crate) fn tree_text<F: Files, I: Read + Drop>(
    alloc: Global,
    files: &F,
    file: Option<&str>,
    input: I,
) -> Result<Vec<u8>, CliFault>
    ensures text { IfOk result (λ text. IsTree (source (F.given files.now) (name_of file.entry) (I.remaining input)) text.items) }
    ensures fault { IfErr result (λ fault. (fault ≡ CliFault.Read) ⊎ (fault ≡ CliFault.NoMemory)) }
{
    match file {
        None => Ok(read_tree_input(alloc, input)?),
        Some(name) => file_text(alloc, files, name),
    }
}

pub(crate) fn file_text<F: Files>(alloc: Global, files: &F, name: &str) -> Result<Vec<u8>, CliFault>
    ensures text { IfOk result (λ text. IsTree (F.given files.now name.now) text.items) }
    ensures fault { IfErr result (λ fault. (fault ≡ CliFault.Read) ⊎ (fault ≡ CliFault.NoMemory)) }
{
    Ok(read_tree_input(alloc, opened(files, name)?)?)
}

pub(crate) fn opened<F: Files>(files: &F, name: &str) -> Result<F::File, CliFault>
    ensures file { IfOk result (λ file. F.File.remaining file ≡ F.given files.now name.now) }
    ensures fault { IfErr result (λ fault. (fault ≡ CliFault.Read) ⊎ (fault ≡ CliFault.NoMemory)) }
{
    Ok(files.open(name)?)
}
