//! What the command line asks for.
ghost use Rattle.std.specs.Prelude.{◌≡◌, ◌≢◌, ◌⊎◌, [], Some, None, IfOk, IfErr, MatchBool, MatchResult, codes, map, ok_or, string_bytes};
ghost use Rattle.std.specs.Option.{option_map};
ghost use Rattle.clap.specs.Matches.{found_of, first_value};
ghost use Rattle.arguments.specs.Formats.{format_at};
ghost use Rattle.arguments.specs.UserWords.{ids_at, all_read, user_at};
ghost use Rattle.arguments.specs.Given.{words_at, file_named, file_at, NamesNoFile, number_at, numbers_at, user_given, users_given, plain_number, users_beside, advised_given, ids_of, NoneIsLeftOut, IsMay, IsCheck, IsAudit, IsEverybody, IsExplain, IsAdvise, IsOfPairs, IsOfSubtrees, tree_file, other_file, IsReplay, IsUpgrade, wanted_command, command_of, Holds, IsOf};
ghost use Rattle.arguments.specs.Words.{Makes, IsNone};
ghost use Rattle.arguments.specs.declared.request.Everybody.{Everybody};
ghost use Rattle.arguments.specs.declared.request.Pairs.{Pairs};
ghost use Rattle.arguments.specs.declared.request.Subtrees.{Subtrees};
ghost use Rattle.arguments.specs.declared.request.Request.{Request};

use crate::command::command;
use crate::everyone::{Everyone, Wanted};
use crate::fault::ArgumentsFault;
use crate::format::Format;
use crate::named_user::{NamedUser, id_of};
use clap::ArgMatches;
use clap::error::ErrorKind;
use std::alloc::Global;

/// What the words of a command line ask for.
#[derive(Drop)]
pub enum Request<'a> {
    /// What is to be shown: help, in clap's own words, or the version.
    Help(clap::Error),
    May(May<'a>),
    Check(Check<'a>),
    /// What `check` is asked, looked at further.
    Settle(Check<'a>),
    Audit(Audit<'a>),
    AuditPairs(Pairs<'a>),
    /// What `audit`, `advise` and `explain` are asked of everybody.
    Everybody(Everybody<'a>),
    /// The same of the subtrees that a text names.
    Subtrees(Subtrees<'a>),
    Explain(Explain<'a>),
    ExplainPairs(Pairs<'a>),
    Advise(Advise<'a>),
    AdvisePairs(Pairs<'a>),
    Replay(Replay<'a>),
    Upgrade(Upgrade<'a>),
}

impl<'a> Request<'a> {
    /// The request of a command line, whose first word is the program's name.
    ///
    /// # Errors
    /// `Usage` where the words are no request, `NoMemory` where an allocation was refused.
    pub fn from_words(alloc: Global, words: &'a [String]) -> Result<Request<'a>, ArgumentsFault>
        ensures { MatchResult result
            (Makes (map string_bytes words.now))
            (λ fault. fault ≢ ArgumentsFault.NoMemory → IsNone (map string_bytes words.now)) }
    {
        match command(alloc)?.try_get_matches_from(words) {
            Ok(matches) => Request::from_matches(alloc, &matches),
            Err(error) => match error.kind() {
                ErrorKind::DisplayHelp | ErrorKind::DisplayVersion => Ok(Request::Help(error)),
                _ => Err(ArgumentsFault::from(error)),
            },
        }
    }

    fn from_matches(alloc: Global, matches: &ArgMatches<'a>) -> Result<Request<'a>, ArgumentsFault>
        ensures { MatchResult result
            (IsOf matches.now)
            (λ fault. fault ≢ ArgumentsFault.NoMemory → (asked : Request) → IsOf matches.now asked → ⊥) }
    {
        match matches.subcommand() {
            Some((name, given)) => Request::of_command(alloc, name, given),
            None => Err(ArgumentsFault::Usage),
        }
    }

    /// The request of a command, by what it was given.
    fn of_command(
        alloc: Global,
        name: &str,
        given: &ArgMatches<'a>,
    ) -> Result<Request<'a>, ArgumentsFault>
        ensures name { IfOk result (λ asked. command_of asked ≡ Some name.now) }
        ensures given { IfOk result (Holds (found_of given.now)) }
        ensures fault { IfErr result (λ fault. fault ≢ ArgumentsFault.NoMemory
            → (asked : Request) → command_of asked ≡ Some name.now → Holds (found_of given.now) asked → ⊥) }
    {
        match name {
            "may" => Ok(Request::May(May::from_matches(alloc, given)?)),
            "check" => Ok(Request::Check(Check::from_matches(alloc, given)?)),
            "settle" => Ok(Request::Settle(Check::from_matches(alloc, given)?)),
            "audit" => Request::of_audit(alloc, given),
            "explain" => Request::of_explain(alloc, given),
            "advise" => Request::of_advise(alloc, given),
            "replay" => Ok(Request::Replay(Replay::from_matches(alloc, given)?)),
            "upgrade" => Ok(Request::Upgrade(Upgrade::from_matches(given))),
            _ => Err(ArgumentsFault::Usage),
        }
    }

    /// The request of `audit`, which is of the pairs of a text where one is named, and of everybody where that is said.
    fn of_audit(alloc: Global, given: &ArgMatches<'a>) -> Result<Request<'a>, ArgumentsFault>
        ensures name { IfOk result (λ asked. command_of asked ≡ Some (codes "audit")) }
        ensures given { IfOk result (Holds (found_of given.now)) }
        ensures fault { IfErr result (λ fault. fault ≢ ArgumentsFault.NoMemory
            → (asked : Request) → command_of asked ≡ Some (codes "audit") → Holds (found_of given.now) asked → ⊥) }
    {
        match given.get_str("pairs") {
            Some(_) => Ok(Request::AuditPairs(Pairs::from_matches(given)?)),
            None if is_said(given, "everybody", "true") => {
                Request::of_everybody(alloc, Wanted::Audit, given)
            }
            None => Ok(Request::Audit(Audit::from_matches(alloc, given)?)),
        }
    }

    /// What a command is asked of everybody, which is of the subtrees of a text where one is named.
    fn of_everybody(
        alloc: Global,
        wanted: Wanted,
        given: &ArgMatches<'a>,
    ) -> Result<Request<'a>, ArgumentsFault>
        requires pairs { first_value (found_of given.now) (codes "pairs") ≡ None }
        requires everybody { first_value (found_of given.now) (codes "everybody") ≡ Some (codes "true") }
        ensures name { IfOk result (λ asked. command_of asked ≡ Some (wanted_command wanted)) }
        ensures given { IfOk result (Holds (found_of given.now)) }
        ensures fault { IfErr result (λ fault. fault ≢ ArgumentsFault.NoMemory
            → (asked : Request) → command_of asked ≡ Some (wanted_command wanted) → Holds (found_of given.now) asked → ⊥) }
    {
        match given.get_str("subtrees") {
            None => Ok(Request::Everybody(Everybody::from_matches(alloc, wanted, given)?)),
            Some(_) => Ok(Request::Subtrees(Subtrees::from_matches(alloc, wanted, given)?)),
        }
    }

    /// The request of `explain`, which is of the pairs of a text where one is named, and of everybody where that is said.
    fn of_explain(alloc: Global, given: &ArgMatches<'a>) -> Result<Request<'a>, ArgumentsFault>
        ensures name { IfOk result (λ asked. command_of asked ≡ Some (codes "explain")) }
        ensures given { IfOk result (Holds (found_of given.now)) }
        ensures fault { IfErr result (λ fault. fault ≢ ArgumentsFault.NoMemory
            → (asked : Request) → command_of asked ≡ Some (codes "explain") → Holds (found_of given.now) asked → ⊥) }
    {
        match given.get_str("pairs") {
            Some(_) => Ok(Request::ExplainPairs(Pairs::from_matches(given)?)),
            None if is_said(given, "everybody", "true") => {
                Request::of_everybody(alloc, Wanted::Explain, given)
            }
            None => Ok(Request::Explain(Explain::from_matches(alloc, given)?)),
        }
    }

    /// The request of `advise`, which is of the pairs of a text where one is named, and of everybody where that is said.
    fn of_advise(alloc: Global, given: &ArgMatches<'a>) -> Result<Request<'a>, ArgumentsFault>
        ensures name { IfOk result (λ asked. command_of asked ≡ Some (codes "advise")) }
        ensures given { IfOk result (Holds (found_of given.now)) }
        ensures fault { IfErr result (λ fault. fault ≢ ArgumentsFault.NoMemory
            → (asked : Request) → command_of asked ≡ Some (codes "advise") → Holds (found_of given.now) asked → ⊥) }
    {
        match given.get_str("pairs") {
            Some(_) => Ok(Request::AdvisePairs(Pairs::from_matches(given)?)),
            None if is_said(given, "everybody", "true") => {
                Request::of_everybody(alloc, Wanted::Advise, given)
            }
            None => Ok(Request::Advise(Advise::from_matches(alloc, given)?)),
        }
    }
}

/// One migration: whether a user may move a process to a cgroup.
#[derive(Drop)]
pub struct May<'a> {
    pub tree: Option<&'a str>,
    pub user: NamedUser,
    pub pid: u32,
    pub to: &'a str,
    pub format: Format,
}

impl<'a> May<'a> {
    /// What was given to the command.
    fn from_matches(alloc: Global, matches: &ArgMatches<'a>) -> Result<May<'a>, ArgumentsFault>
        ensures given { IfOk result (IsMay (found_of matches.now)) }
        ensures fault { IfErr result (λ fault. fault ≢ ArgumentsFault.NoMemory → (user_given (found_of matches.now) ≡ None)
            ⊎ (number_at (found_of matches.now) (codes "pid") ≡ None)
            ⊎ (first_value (found_of matches.now) (codes "to") ≡ None)
            ⊎ (format_at (found_of matches.now) ≡ None)) }
    {
        Ok(May {
            tree: file_of(matches, "tree"),
            user: user_of(alloc, matches)?,
            pid: number(matches, "pid")?,
            to: matches.get_str("to").ok_or(ArgumentsFault::Usage)?,
            format: Format::from_matches(matches)?,
        })
    }
}

/// A subtree and a user: whether it is contained against them.
#[derive(Drop)]
pub struct Check<'a> {
    pub tree: Option<&'a str>,
    pub user: NamedUser,
    pub subtree: &'a str,
    pub format: Format,
}

impl<'a> Check<'a> {
    /// What was given to the command.
    fn from_matches(alloc: Global, matches: &ArgMatches<'a>) -> Result<Check<'a>, ArgumentsFault>
        ensures given { IfOk result (IsCheck (found_of matches.now)) }
        ensures fault { IfErr result (λ fault. fault ≢ ArgumentsFault.NoMemory → (user_given (found_of matches.now) ≡ None)
            ⊎ (first_value (found_of matches.now) (codes "subtree") ≡ None)
            ⊎ (format_at (found_of matches.now) ≡ None)) }
    {
        Ok(Check {
            tree: file_of(matches, "tree"),
            user: user_of(alloc, matches)?,
            subtree: matches.get_str("subtree").ok_or(ArgumentsFault::Usage)?,
            format: Format::from_matches(matches)?,
        })
    }
}

/// Whether several subtrees are contained against several users.
#[derive(Drop)]
pub struct Audit<'a> {
    pub tree: Option<&'a str>,
    pub users: Vec<NamedUser>,
    pub subtrees: Vec<&'a str>,
    /// Whether every pair that isn't contained is asked for, and not the first alone.
    pub all: bool,
    /// Whether it is looked further where `check` says `unsettled`.
    pub settle: bool,
    pub format: Format,
}

impl<'a> Audit<'a> {
    /// What was given to the command, where no text of pairs is named, and it isn't of everybody.
    fn from_matches(alloc: Global, matches: &ArgMatches<'a>) -> Result<Audit<'a>, ArgumentsFault>
        requires pairs { first_value (found_of matches.now) (codes "pairs") ≡ None }
        requires everybody { first_value (found_of matches.now) (codes "everybody") ≢ Some (codes "true") }
        ensures given { IfOk result (IsAudit (found_of matches.now)) }
        ensures fault { IfErr result (λ fault. fault ≢ ArgumentsFault.NoMemory → (users_given (found_of matches.now) ≡ None)
            ⊎ (words_at (found_of matches.now) (codes "uid") ≡ [])
            ⊎ (words_at (found_of matches.now) (codes "subtree") ≡ [])
            ⊎ (first_value (found_of matches.now) (codes "subtrees") ≢ None)
            ⊎ (NoneIsLeftOut (found_of matches.now) → ⊥)
            ⊎ (format_at (found_of matches.now) ≡ None)) }
    {
        if matches.get_str("subtrees").is_some() || leaves_out(matches) {
            return Err(ArgumentsFault::Usage);
        }
        Ok(Audit {
            tree: file_of(matches, "tree"),
            users: users_of(alloc, given(matches, "uid")?)?,
            subtrees: given(matches, "subtree")?.to_vec(alloc)?,
            all: matches.get_flag("all"),
            settle: matches.get_flag("settle"),
            format: Format::from_matches(matches)?,
        })
    }
}

/// What is asked of several subtrees and everybody but root.
#[derive(Drop)]
pub struct Everybody<'a> {
    pub wanted: Wanted,
    pub tree: Option<&'a str>,
    pub everyone: Everyone,
    pub subtrees: Vec<&'a str>,
    pub format: Format,
}

impl<'a> Everybody<'a> {
    /// What was given to a command, where no text of pairs or subtrees is named, and it is of everybody: beside that no user and no
    /// group, and neither every pair nor a further look.
    fn from_matches(
        alloc: Global,
        wanted: Wanted,
        matches: &ArgMatches<'a>,
    ) -> Result<Everybody<'a>, ArgumentsFault>
        requires pairs { first_value (found_of matches.now) (codes "pairs") ≡ None }
        requires everybody { first_value (found_of matches.now) (codes "everybody") ≡ Some (codes "true") }
        requires subtrees { first_value (found_of matches.now) (codes "subtrees") ≡ None }
        ensures wanted { IfOk result (λ asked. asked.wanted ≡ wanted) }
        ensures given { IfOk result (IsEverybody (found_of matches.now)) }
        ensures fault { IfErr result (λ fault. fault ≢ ArgumentsFault.NoMemory
            → (asked : Everybody) → IsEverybody (found_of matches.now) asked → ⊥) }
    {
        if is_given(matches, "uid") || is_given(matches, "gid") {
            return Err(ArgumentsFault::Usage);
        }
        if is_said(matches, "all", "true") || is_said(matches, "settle", "true") {
            return Err(ArgumentsFault::Usage);
        }
        Ok(Everybody {
            wanted,
            tree: file_of(matches, "tree"),
            everyone: Everyone::from_matches(alloc, matches)?,
            subtrees: given(matches, "subtree")?.to_vec(alloc)?,
            format: Format::from_matches(matches)?,
        })
    }
}

/// Subtrees that a text names, in place of words: what is asked of them and everybody but root.
#[derive(Debug, Drop)]
pub struct Subtrees<'a> {
    pub wanted: Wanted,
    pub sources: Sources<'a>,
    pub everyone: Everyone,
    pub format: Format,
}

impl<'a> Subtrees<'a> {
    /// What was given to a command, where a text of subtrees is named and none of pairs, and it is of everybody: beside that no
    /// subtree, no user and no group, and neither every pair nor a further look.
    fn from_matches(
        alloc: Global,
        wanted: Wanted,
        matches: &ArgMatches<'a>,
    ) -> Result<Subtrees<'a>, ArgumentsFault>
        requires pairs { first_value (found_of matches.now) (codes "pairs") ≡ None }
        requires everybody { first_value (found_of matches.now) (codes "everybody") ≡ Some (codes "true") }
        requires subtrees { first_value (found_of matches.now) (codes "subtrees") ≢ None }
        ensures { MatchResult result
            (λ asked. (asked.wanted ≡ wanted) × IsOfSubtrees (found_of matches.now) asked)
            (λ fault. fault ≢ ArgumentsFault.NoMemory → (asked : Subtrees) → IsOfSubtrees (found_of matches.now) asked → ⊥) }
    {
        if is_given(matches, "subtree") || is_given(matches, "uid") || is_given(matches, "gid") {
            return Err(ArgumentsFault::Usage);
        }
        if is_said(matches, "all", "true") || is_said(matches, "settle", "true") {
            return Err(ArgumentsFault::Usage);
        }
        Ok(Subtrees {
            wanted,
            sources: Sources::from_matches(matches, "subtrees")?,
            everyone: Everyone::from_matches(alloc, matches)?,
            format: Format::from_matches(matches)?,
        })
    }
}

/// Subtrees and users: what each guard asks of them, and by what it holds or fails.
#[derive(Drop)]
pub struct Explain<'a> {
    pub tree: Option<&'a str>,
    pub users: Vec<NamedUser>,
    pub subtrees: Vec<&'a str>,
    pub format: Format,
}

impl<'a> Explain<'a> {
    /// What was given to the command, where no text of pairs is named, and it isn't of everybody.
    fn from_matches(alloc: Global, matches: &ArgMatches<'a>) -> Result<Explain<'a>, ArgumentsFault>
        requires pairs { first_value (found_of matches.now) (codes "pairs") ≡ None }
        requires everybody { first_value (found_of matches.now) (codes "everybody") ≢ Some (codes "true") }
        ensures given { IfOk result (IsExplain (found_of matches.now)) }
        ensures fault { IfErr result (λ fault. fault ≢ ArgumentsFault.NoMemory → (users_given (found_of matches.now) ≡ None)
            ⊎ (words_at (found_of matches.now) (codes "uid") ≡ [])
            ⊎ (words_at (found_of matches.now) (codes "subtree") ≡ [])
            ⊎ (first_value (found_of matches.now) (codes "subtrees") ≢ None)
            ⊎ (NoneIsLeftOut (found_of matches.now) → ⊥)
            ⊎ (format_at (found_of matches.now) ≡ None)) }
    {
        if matches.get_str("subtrees").is_some() || leaves_out(matches) {
            return Err(ArgumentsFault::Usage);
        }
        Ok(Explain {
            tree: file_of(matches, "tree"),
            users: users_of(alloc, given(matches, "uid")?)?,
            subtrees: given(matches, "subtree")?.to_vec(alloc)?,
            format: Format::from_matches(matches)?,
        })
    }
}

/// Subtrees and users: what to change so that every subtree is contained against every user.
#[derive(Drop)]
pub struct Advise<'a> {
    pub tree: Option<&'a str>,
    pub users: Vec<NamedUser>,
    pub subtrees: Vec<&'a str>,
    /// Whether it is looked further where a guard fails.
    pub settle: bool,
    pub format: Format,
}

impl<'a> Advise<'a> {
    /// What was given to the command, where no text of pairs is named, and it isn't of everybody.
    fn from_matches(alloc: Global, matches: &ArgMatches<'a>) -> Result<Advise<'a>, ArgumentsFault>
        requires pairs { first_value (found_of matches.now) (codes "pairs") ≡ None }
        requires everybody { first_value (found_of matches.now) (codes "everybody") ≢ Some (codes "true") }
        ensures given { IfOk result (IsAdvise (found_of matches.now)) }
        ensures fault { IfErr result (λ fault. fault ≢ ArgumentsFault.NoMemory → (advised_given (found_of matches.now) ≡ None)
            ⊎ (words_at (found_of matches.now) (codes "uid") ≡ [])
            ⊎ (words_at (found_of matches.now) (codes "subtree") ≡ [])
            ⊎ (first_value (found_of matches.now) (codes "subtrees") ≢ None)
            ⊎ (NoneIsLeftOut (found_of matches.now) → ⊥)
            ⊎ (format_at (found_of matches.now) ≡ None)) }
    {
        if matches.get_str("subtrees").is_some() || leaves_out(matches) {
            return Err(ArgumentsFault::Usage);
        }
        let words = given(matches, "uid")?;
        Ok(Advise {
            tree: file_of(matches, "tree"),
            users: users_beside(alloc, words, numbers(alloc, matches, "gid")?)?,
            subtrees: given(matches, "subtree")?.to_vec(alloc)?,
            settle: matches.get_flag("settle"),
            format: Format::from_matches(matches)?,
        })
    }
}

/// Pairs of a user and a subtree that a text names, in place of users and subtrees.
#[derive(Clone, Copy, Debug, PartialEq, Eq)]
pub struct Pairs<'a> {
    pub sources: Sources<'a>,
    pub format: Format,
}

impl<'a> Pairs<'a> {
    /// What was given to the command, where a text of pairs is named: beside it no user and no subtree, nor a text of subtrees,
    /// nor everybody, and no further look.
    fn from_matches(matches: &ArgMatches<'a>) -> Result<Pairs<'a>, ArgumentsFault>
        requires { first_value (found_of matches.now) (codes "pairs") ≢ None }
        ensures { MatchResult result
            (IsOfPairs (found_of matches.now))
            (λ fault. (asked : Pairs) → IsOfPairs (found_of matches.now) asked → ⊥) }
    {
        if is_given(matches, "uid") || is_given(matches, "gid") || is_given(matches, "subtree") {
            return Err(ArgumentsFault::Usage);
        }
        if is_said(matches, "settle", "true") || is_said(matches, "everybody", "true") {
            return Err(ArgumentsFault::Usage);
        }
        if matches.get_str("subtrees").is_some() || leaves_out(matches) {
            return Err(ArgumentsFault::Usage);
        }
        Ok(Pairs {
            sources: Sources::from_matches(matches, "pairs")?,
            format: Format::from_matches(matches)?,
        })
    }
}

/// The tree to be written again.
#[derive(Debug, Drop)]
pub struct Upgrade<'a> {
    pub tree: Option<&'a str>,
}

impl<'a> Upgrade<'a> {
    /// What was given to the command.
    fn from_matches(matches: &ArgMatches<'a>) -> Upgrade<'a>
        ensures { IsUpgrade (found_of matches.now) result }
    {
        Upgrade {
            tree: file_of(matches, "tree"),
        }
    }
}

/// Where a tree and a text beside it, of operations, pairs or subtrees, are read from: standard input is one of the two at most.
#[derive(Clone, Copy, Debug, PartialEq, Eq)]
pub enum Sources<'a> {
    /// A file of the tree, and one of the other text.
    Files(&'a str, &'a str),
    /// The tree from standard input, and a file of the other text.
    TreeGiven(&'a str),
    /// A file of the tree, and the other text from standard input.
    OtherGiven(&'a str),
}

impl<'a> Sources<'a> {
    /// The files that `--tree` and another option name.
    fn from_matches(matches: &ArgMatches<'a>, option: &str) -> Result<Sources<'a>, ArgumentsFault>
        ensures tree { IfOk result (λ sources. tree_file sources ≡ file_at (found_of matches.now) (codes "tree")) }
        ensures other { IfOk result (λ sources. other_file sources ≡ file_at (found_of matches.now) option.now) }
        ensures fault { IfErr result (λ fault. NamesNoFile (found_of matches.now) option.now) }
    {
        match (file_of(matches, "tree"), file_of(matches, option)) {
            (Some(tree), Some(other)) => Ok(Sources::Files(tree, other)),
            (None, Some(other)) => Ok(Sources::TreeGiven(other)),
            (Some(tree), None) => Ok(Sources::OtherGiven(tree)),
            (None, None) => Err(ArgumentsFault::Usage),
        }
    }

    /// The file of the tree, where it isn't standard input.
    pub fn tree(self) -> Option<&'a str>
        ensures { option_map (λ file. file.now) result ≡ tree_file self.entry }
    {
        match self {
            Sources::Files(tree, _) | Sources::OtherGiven(tree) => Some(tree),
            Sources::TreeGiven(_) => None,
        }
    }

    /// The file of the other text, where it isn't standard input.
    pub fn other(self) -> Option<&'a str>
        ensures { option_map (λ file. file.now) result ≡ other_file self.entry }
    {
        match self {
            Sources::Files(_, other) | Sources::TreeGiven(other) => Some(other),
            Sources::OtherGiven(_) => None,
        }
    }
}

/// Operations that a user makes one after another.
#[derive(Drop)]
pub struct Replay<'a> {
    pub sources: Sources<'a>,
    pub user: NamedUser,
    pub subtree: Option<&'a str>,
    pub format: Format,
}

impl<'a> Replay<'a> {
    /// What was given to the command.
    fn from_matches(alloc: Global, matches: &ArgMatches<'a>) -> Result<Replay<'a>, ArgumentsFault>
        ensures given { IfOk result (IsReplay (found_of matches.now)) }
        ensures fault { IfErr result (λ fault. fault ≢ ArgumentsFault.NoMemory → (user_given (found_of matches.now) ≡ None)
            ⊎ NamesNoFile (found_of matches.now) (codes "ops")
            ⊎ (format_at (found_of matches.now) ≡ None)) }
    {
        Ok(Replay {
            sources: Sources::from_matches(matches, "ops")?,
            user: user_of(alloc, matches)?,
            subtree: matches.get_str("subtree"),
            format: Format::from_matches(matches)?,
        })
    }
}

/// The file that an option names. There is none where the option is left out, or says `-`, which is standard input.
fn file_of<'a>(matches: &ArgMatches<'a>, option: &str) -> Option<&'a str>
    ensures { option_map (λ file. file.now) result ≡ file_at (found_of matches.now) option.now }
{
    file_named(matches.get_str(option)?)
}

/// The file that a word names.
fn file_named(word: &str) -> Option<&str>
    ensures { option_map (λ file. file.now) result ≡ file_named word.now }
{
    if word == "-" { None } else { Some(word) }
}

/// The one user of a command.
fn user_of(alloc: Global, matches: &ArgMatches<'_>) -> Result<NamedUser, ArgumentsFault>
    ensures { MatchResult result
        (λ user. user_given (found_of matches.now) ≡ Some (ids_of user))
        (λ fault. fault ≢ ArgumentsFault.NoMemory → user_given (found_of matches.now) ≡ None) }
{
    Ok(NamedUser {
        uid: number(matches, "uid")?,
        gids: numbers(alloc, matches, "gid")?,
    })
}

/// The users of words.
fn users_of(alloc: Global, words: &[&str]) -> Result<Vec<NamedUser>, ArgumentsFault>
    ensures { MatchResult result
        (λ users. all_read user_at (map (λ word. word.now) words.now) ≡ Some (map ids_of users.items))
        (λ fault. fault ≢ ArgumentsFault.NoMemory → all_read user_at (map (λ word. word.now) words.now) ≡ None) }
{
    let mut users = Vec::new(alloc);
    for word in words {
        users.push(NamedUser::from_word(alloc, word)?)?;
    }
    Ok(users)
}

/// The users of words, where one plain number has groups beside it.
fn users_beside(
    alloc: Global,
    words: &[&str],
    gids: Vec<u32>,
) -> Result<Vec<NamedUser>, ArgumentsFault>
    ensures { MatchResult result
        (λ users. users_beside (map (λ word. word.now) words.now) gids.items ≡ Some (map ids_of users.items))
        (λ fault. fault ≢ ArgumentsFault.NoMemory → users_beside (map (λ word. word.now) words.now) gids.items ≡ None) }
{
    let Some(uid) = plain_number(words) else {
        return if gids.is_empty() {
            users_of(alloc, words)
        } else {
            Err(ArgumentsFault::Usage)
        };
    };
    let mut users = Vec::new(alloc);
    users.push(NamedUser { uid, gids })?;
    Ok(users)
}

/// The plain number of words, where they are one word.
fn plain_number(words: &[&str]) -> Option<u32>
    ensures { result ≡ plain_number (map (λ word. word.now) words.now) }
{
    match words {
        [word] => id_of(word).ok(),
        _ => None,
    }
}

/// What an option was given, each time that it stands, which it does once at least.
fn given<'m, 'a>(matches: &'m ArgMatches<'a>, name: &str) -> Result<&'m [&'a str], ArgumentsFault>
    ensures { MatchResult result
        (λ words. (words_at (found_of matches.now) name.now ≡ map (λ word. word.now) words.now) × (words.now ≢ []))
        (λ fault. words_at (found_of matches.now) name.now ≡ []) }
{
    match matches.get_strs(name) {
        Some(words) if !words.is_empty() => Ok(words),
        _ => Err(ArgumentsFault::Usage),
    }
}

/// Whether an option was given a word first.
fn is_said(matches: &ArgMatches<'_>, name: &str, word: &str) -> bool
    ensures { MatchBool result (first_value (found_of matches.now) name.now ≡ Some word.now)
        (first_value (found_of matches.now) name.now ≢ Some word.now) }
{
    match matches.get_str(name) {
        None => false,
        Some(said) => said == word,
    }
}

/// Whether an option was given anything.
fn is_given(matches: &ArgMatches<'_>, name: &str) -> bool
    ensures { MatchBool result (words_at (found_of matches.now) name.now ≢ []) (words_at (found_of matches.now) name.now ≡ []) }
{
    given(matches, name).is_ok()
}

/// Whether somebody is left out of everybody, or a group is listed.
fn leaves_out(matches: &ArgMatches<'_>) -> bool
    ensures { MatchBool result (NoneIsLeftOut (found_of matches.now) → ⊥) (NoneIsLeftOut (found_of matches.now)) }
{
    is_given(matches, "but") || is_given(matches, "group")
}

fn number(matches: &ArgMatches<'_>, name: &str) -> Result<u32, ArgumentsFault>
    ensures { result ≡ ok_or (number_at (found_of matches.now) name.now) ArgumentsFault.Usage }
{
    id_of(matches.get_str(name).ok_or(ArgumentsFault::Usage)?)
}

/// All numbers that an option was given, in their order.
pub(crate) fn numbers(
    alloc: Global,
    matches: &ArgMatches<'_>,
    name: &str,
) -> Result<Vec<u32>, ArgumentsFault>
    ensures { MatchResult result
        (λ numbers. numbers_at (found_of matches.now) name.now ≡ Some numbers.items)
        (λ fault. fault ≢ ArgumentsFault.NoMemory → numbers_at (found_of matches.now) name.now ≡ None) }
{
    match matches.get_strs(name) {
        None => Ok(Vec::new(alloc)),
        Some(words) => all_of(alloc, words),
    }
}

/// The numbers of words, where each is one.
fn all_of(alloc: Global, words: &[&str]) -> Result<Vec<u32>, ArgumentsFault>
    ensures { MatchResult result
        (λ numbers. ids_at (map (λ word. word.now) words.now) ≡ Some numbers.items)
        (λ fault. fault ≢ ArgumentsFault.NoMemory → ids_at (map (λ word. word.now) words.now) ≡ None) }
{
    let mut numbers = Vec::new(alloc);
    for word in words {
        numbers.push(id_of(word)?)?;
    }
    Ok(numbers)
}
