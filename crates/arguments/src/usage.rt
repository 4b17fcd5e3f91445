//! What is wrong with words that are no request.
use crate::command::command;
use clap::error::ErrorKind;
use clap::{ArgMatches, Error};
use std::alloc::{AllocError, Global};

const USERS: &str =
    "audit and explain take users and subtrees, --uid and --subtree once or more each, or pairs of them alone, --pairs;
audit, advise and explain take --everybody in place of users, and then --subtree once or more, or a text of them alone,
--subtrees, and beside it --but UID and --group GID=UID,UID.. or GID=, once or more each;
of these and the tree one at most comes from standard input; a user of audit or explain is UID or UID:GID,GID.. in decimal
digits, with no spaces: `id -u NAME` prints a user's uid, `id -G NAME` the gids";

const ONE_INPUT: &str =
    "standard input is read once, and both the tree and the operations are to come from it:
name a file for one of them; a file of the name - is ./-";

const ADVISED: &str =
    "advise takes users and subtrees, --uid and --subtree once or more each, or pairs of them alone, --pairs;
audit, advise and explain take --everybody in place of users, and then --subtree once or more, or a text of them alone,
--subtrees, and beside it --but UID and --group GID=UID,UID.. or GID=, once or more each;
of these and the tree one at most comes from standard input; a user is UID or UID:GID,GID.. in decimal digits,
with no spaces, and --gid stands beside one plain --uid alone";

const SIGNED: &str =
    "a uid, a gid and a PID are written in decimal digits, with no sign and no spaces:
`id -u NAME` prints a user's uid, `id -G NAME` the gids";

const FORMATS: &str = "--format takes lines, or json for a JSON object a line";

/// An option that takes a number, as clap names it, and what is to be written.
const NUMBERS: [(&str, &str); 3] = [
    (
        "'--uid <UID>'",
        "--uid takes a number from 1 to 4294967295: `id -u NAME` prints a user's",
    ),
    (
        "'--gid <GID>'",
        "--gid takes one number from 0 to 4294967295, and stands again before each further one:
`id -G NAME` prints a user's",
    ),
    (
        "'--pid <PID>'",
        "--pid takes a number from 1 to 4194303: `pgrep NAME` prints a program's",
    ),
];

/// What is wrong with the words of a command line that is no request, mostly in clap's words: which word it is, the nearest
/// command or option, and the usage. Nothing where help is asked for.
pub fn usage_text<'a>(alloc: Global, words: &'a [String]) -> Result<Option<String>, AllocError> {
    match command(alloc)?.try_get_matches_from(words) {
        Ok(matches) => Ok(Some(String::from_str(alloc, beside_clap(&matches))?)),
        Err(error) => error_text(alloc, error, words),
    }
}

/// What is wrong with words that clap takes.
fn beside_clap(matches: &ArgMatches<'_>) -> &'static str {
    match matches.subcommand() {
        Some((_, given)) if has_other_format(given) => FORMATS,
        Some(("replay", given)) if !has_sign(given) => ONE_INPUT,
        Some(("advise", _)) => ADVISED,
        Some(("audit" | "explain", _)) => USERS,
        _ => SIGNED,
    }
}

/// Whether a word that is no format stands behind `--format`, which clap takes.
fn has_other_format(given: &ArgMatches<'_>) -> bool {
    match given.get_str("format") {
        Some(word) => word != "lines" && word != "json",
        None => false,
    }
}

/// Whether a number stands behind a sign, which clap takes.
fn has_sign(given: &ArgMatches<'_>) -> bool {
    for name in ["uid", "gid"] {
        if let Some(words) = given.get_strs(name) {
            if words.iter().any(|word| word.starts_with(&['+', '-'])) {
                return true;
            }
        }
    }
    false
}

fn error_text(alloc: Global, error: Error, words: &[String]) -> Result<Option<String>, AllocError> {
    if !error.use_stderr() {
        return Ok(None);
    }
    let said = format!(in alloc; "{error}")?;
    let said = said.as_str().trim_end();
    match number_wanted(error.kind(), said, words) {
        Some(wanted) => Ok(Some(format!(in alloc; "{said}\n\n{wanted}")?)),
        None => Ok(Some(String::from_str(alloc, said)?)),
    }
}

/// What is to be written for a number that is none.
fn number_wanted(kind: ErrorKind, said: &str, words: &[String]) -> Option<&'static str> {
    match kind {
        ErrorKind::ValueValidation => option_wanted(said),
        ErrorKind::UnknownArgument if words.iter().any(|word| is_negative(word.as_str())) => {
            Some("no uid, gid or PID is negative")
        }
        _ => None,
    }
}

fn option_wanted(said: &str) -> Option<&'static str> {
    for (option, wanted) in NUMBERS {
        if said.contains(option) {
            return Some(wanted);
        }
    }
    None
}

fn is_negative(word: &str) -> bool {
    match word.strip_prefix('-') {
        Some(digits) => !digits.is_empty() && digits.bytes().all(|byte| byte.is_ascii_digit()),
        None => false,
    }
}
