//! Whom `--everybody` is about, as the command line says.
ghost use Rattle.std.specs.Prelude.{◌≡◌, ◌≢◌, Some, None, map, codes, MatchResult};
ghost use Rattle.std.specs.Option.{option_map};
ghost use Rattle.clap.specs.Matches.{found_of};
ghost use Rattle.arguments.specs.UserWords.{is_equals, cut_at, group_at, members_at, all_read};
ghost use Rattle.arguments.specs.Given.{words_at, everyone_given, everyone_of, listed_group};
ghost use Rattle.arguments.specs.declared.everyone.Everyone.{Everyone};

use crate::fault::ArgumentsFault;
use crate::named_user::{id_of, ids_of};
use crate::request::numbers;
use clap::ArgMatches;
use std::alloc::Global;

/// The command that is asked of everybody.
#[derive(Clone, Copy, Debug, PartialEq, Eq)]
pub enum Wanted {
    Audit,
    Advise,
    Explain,
}

/// Everybody but root and these uids. Of a group that is listed nobody is a member but who stands there.
#[derive(Debug, Drop)]
pub struct Everyone {
    pub but: Vec<u32>,
    pub groups: Vec<ListedGroup>,
}

/// A group: its gid, and the uids of whoever may be a member.
#[derive(Debug, Drop)]
pub struct ListedGroup {
    pub gid: u32,
    pub uids: Vec<u32>,
}

impl Everyone {
    /// Who is left out, and the groups that are listed.
    ///
    /// # Errors
    /// `Usage` where a word names no uid or no group, `NoMemory` where an allocation was refused.
    pub(crate) fn from_matches(
        alloc: Global,
        matches: &ArgMatches<'_>,
    ) -> Result<Everyone, ArgumentsFault>
        ensures { MatchResult result
            (λ everyone. everyone_given (found_of matches.now) ≡ Some (everyone_of everyone))
            (λ fault. fault ≢ ArgumentsFault.NoMemory → everyone_given (found_of matches.now) ≡ None) }
    {
        Ok(Everyone {
            but: numbers(alloc, matches, "but")?,
            groups: groups_given(alloc, matches)?,
        })
    }
}

impl ListedGroup {
    /// The group of a word: a gid, the sign `=`, and uids with commas between them, or nothing where nobody is a member.
    ///
    /// # Errors
    /// `Usage` where the word names no group, `NoMemory` where an allocation was refused.
    pub fn from_word(alloc: Global, word: &str) -> Result<ListedGroup, ArgumentsFault>
        ensures { MatchResult result
            (λ group. group_at word.now ≡ Some (listed_group group))
            (λ fault. fault ≢ ArgumentsFault.NoMemory → group_at word.now ≡ None) }
    {
        match cut_at_sign(word) {
            None => Err(ArgumentsFault::Usage),
            Some((gid, uids)) => Ok(ListedGroup {
                gid: id_of(gid)?,
                uids: members_of(alloc, uids)?,
            }),
        }
    }
}

/// The members of words with commas between them.
fn members_of(alloc: Global, words: &str) -> Result<Vec<u32>, ArgumentsFault>
    ensures { MatchResult result
        (λ uids. members_at words.now ≡ Some uids.items)
        (λ fault. fault ≢ ArgumentsFault.NoMemory → members_at words.now ≡ None) }
{
    if words.is_empty() {
        return Ok(Vec::new(alloc));
    }
    ids_of(alloc, words)
}

/// What is before the first `=`, and what is behind it.
fn cut_at_sign(word: &str) -> Option<(&str, &str)>
    ensures { option_map (λ parts. (parts.0.now, parts.1.now)) result ≡ cut_at is_equals word.now }
{
    word.split_once('=')
}

/// The groups that are listed, in their order.
fn groups_given(alloc: Global, matches: &ArgMatches<'_>) -> Result<Vec<ListedGroup>, ArgumentsFault>
    ensures { MatchResult result
        (λ groups. all_read group_at (words_at (found_of matches.now) (codes "group")) ≡ Some (map listed_group groups.items))
        (λ fault. fault ≢ ArgumentsFault.NoMemory → all_read group_at (words_at (found_of matches.now) (codes "group")) ≡ None) }
{
    match matches.get_strs("group") {
        None => Ok(Vec::new(alloc)),
        Some(words) => groups_of(alloc, words),
    }
}

/// The groups of words.
fn groups_of(alloc: Global, words: &[&str]) -> Result<Vec<ListedGroup>, ArgumentsFault>
    ensures { MatchResult result
        (λ groups. all_read group_at (map (λ word. word.now) words.now) ≡ Some (map listed_group groups.items))
        (λ fault. fault ≢ ArgumentsFault.NoMemory → all_read group_at (map (λ word. word.now) words.now) ≡ None) }
{
    let mut groups = Vec::new(alloc);
    for word in words {
        groups.push(ListedGroup::from_word(alloc, word)?)?;
    }
    Ok(groups)
}
