//! The help below the line of a fault.
ghost use Rattle.std.specs.Prelude.{◌≡◌, [], true, false, IfOk, option_copied};
ghost use Rattle.std.specs.Option.{option_map_or};
ghost use Rattle.cg_help.specs.Help.{IsHelpFor, has_help, plain_help};

use crate::files::{read_again, why_unread};
use crate::given::{other_of, paths_of, tree_of};
use crate::lines::line_said;
use crate::paths::{missing_said, why_no_path};
use crate::trees::{first_missing_said, tree_said, vocabulary_of};
use arguments::request::Request;
use arguments::usage::usage_text;
use cg_cgroup::files::Vocabulary;
use cg_cgroup::memory::NoMemory;
use cg_faults::fault::CliFault;
use cg_format::fault::TreeFault;
use cg_model::fault::CheckFault;
use std::alloc::{AllocError, Global};
use streams::files::Files;
use text_places::near::Missing;
use text_places::shown::{indented, quoted};

const ROOT_USER: &str = "uid 0 is root's, whom no owner and no mode keeps: root isn't checked";

const GIDS: &str = "a user has at most 32 gids: name those that stand in the tree";

const PID: &str = "a PID is 1 to 4194303";

const ROOT_SUBTREE: &str = "the root is handed to nobody: name a cgroup below it";

const TOO_LONG: &str =
    "a text has at most 16777216 bytes, or 67108864 where format = 4 is its first line, or its second behind controllers = [..]";

const TOO_MANY: &str =
    "a tree has at most 4096 cgroups and 4096 processes, or 65536 of each with format = 4";

const STEPS: &str = "a replay takes at most 65536 operations";

const NO_PAIR: &str =
    "no line names a pair, and the text isn't what audit writes where it has none to list, the one line contained:
what is read are the lines of audit --all, or pair UID PATH, or pair UID:GID,GID.. PATH, a line each";

/// What was seen of the words, of standard input and of the operations.
#[derive(Clone, Copy)]
pub struct Seen<'w, 'i, 'l> {
    /// The words of the command line, where all of them are text.
    pub words: Option<&'w [String]>,
    /// What standard input gave, where all of it was kept.
    pub input: Option<&'i [u8]>,
    /// The line of operations, pairs or subtrees at which the command ended, as far as it was read.
    pub line: Option<&'l [u8]>,
}

/// The help below the line of a fault, or nothing; a command line that is none of the program's has no fault of a call.
///
/// The words and the files are looked at once more.
pub fn help_text<F: Files>(
    alloc: Global,
    files: &F,
    fault: Option<&CliFault>,
    seen: Seen<'_, '_, '_>,
) -> Result<Vec<u8>, NoMemory>
    ensures said { IfOk result (λ help. IsHelpFor (option_copied fault.entry) help.items) }
    ensures silent { option_map_or (λ fault. has_help fault.now) fault.entry true ≡ false → IfOk result (λ help. help.items ≡ []) }
{
    if !has_help(fault) {
        return Ok(Vec::new(alloc));
    }
    if let Some(words) = plain_words(fault) {
        return Ok(indented(alloc, words)?);
    }
    match said(alloc, files, fault, seen)? {
        None => Ok(Vec::new(alloc)),
        Some(text) => Ok(indented(alloc, text.as_str().trim_end())?),
    }
}

/// Whether there is anything to be looked at once more: not where a write failed, or memory was refused.
fn has_help(fault: Option<&CliFault>) -> bool
    ensures { result ≡ option_map_or (λ fault. has_help fault.now) fault.entry true }
{
    !matches!(fault, Some(CliFault::Write | CliFault::NoMemory))
}

/// What is said of a fault of which no second look tells more.
fn plain_words(fault: Option<&CliFault>) -> Option<&'static str>
    ensures { option_copied result ≡ plain_help (option_copied fault.entry) }
{
    match fault? {
        CliFault::Uid => Some(ROOT_USER),
        CliFault::Gids => Some(GIDS),
        CliFault::Pid => Some(PID),
        CliFault::Subtree(CheckFault::RootSubtree) => Some(ROOT_SUBTREE),
        CliFault::Tree(TreeFault::TooLong) => Some(TOO_LONG),
        CliFault::Tree(TreeFault::TooMany) => Some(TOO_MANY),
        CliFault::TooManySteps => Some(STEPS),
        CliFault::NoPair => Some(NO_PAIR),
        _ => None,
    }
}

fn said<F: Files>(
    alloc: Global,
    files: &F,
    fault: Option<&CliFault>,
    seen: Seen<'_, '_, '_>,
) -> Result<Option<String>, NoMemory> {
    let Some(words) = seen.words else {
        return plainly(alloc, "an argument isn't UTF-8");
    };
    let Some(fault) = fault else {
        return usage_said(alloc, words);
    };
    match Request::from_words(alloc, words) {
        Ok(request) => fault_said(alloc, files, fault, &request, seen),
        Err(_) => Ok(None),
    }
}

fn plainly(alloc: Global, words: &str) -> Result<Option<String>, NoMemory> {
    Ok(Some(String::from_str(alloc, words)?))
}

/// What is wrong with the words, which clap is given as they are quoted.
fn usage_said(alloc: Global, words: &[String]) -> Result<Option<String>, NoMemory> {
    let quotes = all_quoted(alloc, words)?;
    Ok(usage_text(alloc, quotes.as_slice())?)
}

fn all_quoted(alloc: Global, words: &[String]) -> Result<Vec<String>, NoMemory> {
    let mut quotes = Vec::new(alloc);
    for word in words {
        quotes.push(quoted(alloc, word.as_str())?)?;
    }
    Ok(quotes)
}

fn fault_said<F: Files>(
    alloc: Global,
    files: &F,
    fault: &CliFault,
    request: &Request<'_>,
    seen: Seen<'_, '_, '_>,
) -> Result<Option<String>, NoMemory> {
    match fault {
        CliFault::BadPath => first_bad_path(alloc, request),
        CliFault::Subtree(_) => missing_path(alloc, files, request, seen),
        CliFault::Tree(fault) => match tree_bytes(alloc, files, request, seen)? {
            Some(bytes) => Ok(tree_said(alloc, *fault, bytes.as_slice())?),
            None => Ok(None),
        },
        CliFault::Read => unread(alloc, files, request),
        CliFault::Line { .. } => match seen.line {
            Some(line) => {
                let vocabulary = vocabulary_seen(alloc, files, request, seen)?;
                Ok(Some(line_said(alloc, request, vocabulary, line)?))
            }
            None => Ok(None),
        },
        _ => Ok(None),
    }
}

fn first_bad_path(alloc: Global, request: &Request<'_>) -> Result<Option<String>, NoMemory> {
    for path in paths_of(alloc, request)? {
        if let Some(why) = why_no_path(alloc, path)? {
            return Ok(Some(why));
        }
    }
    Ok(None)
}

/// Which path is missing, and which row's is the nearest: of several the first that no row has.
fn missing_path<F: Files>(
    alloc: Global,
    files: &F,
    request: &Request<'_>,
    seen: Seen<'_, '_, '_>,
) -> Result<Option<String>, NoMemory> {
    let paths = paths_of(alloc, request)?;
    if let Some(tree) = tree_bytes(alloc, files, request, seen)? {
        if let Some(why) = first_missing_said(alloc, tree.as_slice(), paths.as_slice())? {
            return Ok(Some(why));
        }
    }
    match paths.as_slice() {
        [path] => {
            let missing = Missing {
                name: String::from_str(alloc, path)?,
                nearest: None,
            };
            Ok(Some(missing_said(alloc, &missing)?))
        }
        _ => Ok(None),
    }
}

/// The bytes of the tree's text.
fn tree_bytes<F: Files>(
    alloc: Global,
    files: &F,
    request: &Request<'_>,
    seen: Seen<'_, '_, '_>,
) -> Result<Option<Vec<u8>>, AllocError> {
    match tree_of(request) {
        Some(name) => Ok(read_again(alloc, files, name)),
        None => match seen.input {
            Some(bytes) => Ok(Some(Vec::from_slice(alloc, bytes)?)),
            None => Ok(None),
        },
    }
}

/// Which controllers and files lines of operations name with the tree.
fn vocabulary_seen<F: Files>(
    alloc: Global,
    files: &F,
    request: &Request<'_>,
    seen: Seen<'_, '_, '_>,
) -> Result<Vocabulary, AllocError> {
    match tree_bytes(alloc, files, request, seen)? {
        Some(bytes) => Ok(vocabulary_of(alloc, bytes.as_slice())),
        None => Ok(Vocabulary::Format2),
    }
}

/// Which file can't be read: the tree's is opened before that of the operations, pairs or subtrees.
fn unread<F: Files>(
    alloc: Global,
    files: &F,
    request: &Request<'_>,
) -> Result<Option<String>, NoMemory> {
    if let Some(name) = tree_of(request) {
        if let Some(why) = why_unread(alloc, files, name)? {
            return Ok(Some(why));
        }
    }
    match other_of(request) {
        Some(name) => why_unread(alloc, files, name),
        None => Ok(None),
    }
}
