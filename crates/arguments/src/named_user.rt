//! A user, as the command line names them.
ghost use Rattle.std.specs.Prelude.{◌≡◌, ◌≢◌, Some, None, MatchResult};
ghost use Rattle.std.specs.Option.{ok_or, option_map};
ghost use Rattle.std.specs.List.{slice_split};
ghost use Rattle.arguments.specs.UserWords.{is_comma, is_colon, cut_at, id_at, ids_at, user_at};

use crate::fault::ArgumentsFault;
use std::alloc::Global;

/// A user: a uid, and gids of which the first is the primary one.
#[derive(Debug, Drop)]
pub struct NamedUser {
    pub uid: u32,
    pub gids: Vec<u32>,
}

impl NamedUser {
    /// The user of a word: a uid, and where there are gids a colon and the gids with commas between them.
    ///
    /// # Errors
    /// `Usage` where the word names no user, `NoMemory` where an allocation was refused.
    pub fn from_word(alloc: Global, word: &str) -> Result<NamedUser, ArgumentsFault>
        ensures { MatchResult result
            (λ user. user_at word.now ≡ Some (user.uid, user.gids.items))
            (λ fault. fault ≢ ArgumentsFault.NoMemory → user_at word.now ≡ None) }
    {
        match cut_at_colon(word) {
            None => Ok(NamedUser {
                uid: id_of(word)?,
                gids: Vec::new(alloc),
            }),
            Some((uid, gids)) => Ok(NamedUser {
                uid: id_of(uid)?,
                gids: ids_of(alloc, gids)?,
            }),
        }
    }
}

/// The ids of words with commas between them.
pub(crate) fn ids_of(alloc: Global, words: &str) -> Result<Vec<u32>, ArgumentsFault>
    ensures { MatchResult result
        (λ ids. ids_at (slice_split is_comma words.now) ≡ Some ids.items)
        (λ fault. fault ≢ ArgumentsFault.NoMemory → ids_at (slice_split is_comma words.now) ≡ None) }
{
    let mut ids = Vec::new(alloc);
    let mut rest = words;
    while let Some((word, others)) = cut_at_comma(rest) {
        ids.push(id_of(word)?)?;
        rest = others;
    }
    ids.push(id_of(rest)?)?;
    Ok(ids)
}

/// What is before the first colon, and what is behind it.
fn cut_at_colon(word: &str) -> Option<(&str, &str)>
    ensures { option_map (λ parts. (parts.0.now, parts.1.now)) result ≡ cut_at is_colon word.now }
{
    word.split_once(':')
}

/// What is before the first comma, and what is behind it.
fn cut_at_comma(words: &str) -> Option<(&str, &str)>
    ensures { option_map (λ parts. (parts.0.now, parts.1.now)) result ≡ cut_at is_comma words.now }
{
    words.split_once(',')
}

/// The number that a word of decimal digits writes, leading zeros allowed, and no sign.
pub(crate) fn id_of(word: &str) -> Result<u32, ArgumentsFault>
    ensures { result ≡ ok_or (id_at word.now) ArgumentsFault.Usage }
{
    if word.starts_with('+') {
        return Err(ArgumentsFault::Usage);
    }
    match word.parse() {
        Ok(id) => Ok(id),
        Err(_) => Err(ArgumentsFault::Usage),
    }
}
