//! A user and a subtree, as a line names them.
ghost use Rattle.std.specs.Prelude.{◌≡◌, ◌≢◌, Some, None, MatchResult};
ghost use Rattle.std.specs.Option.{option_map};
ghost use Rattle.arguments.specs.Given.{ids_of_pair};
ghost use Rattle.arguments.specs.UserWords.{is_space, cut_at, pair_at};

use crate::fault::ArgumentsFault;
use crate::named_user::NamedUser;
use std::alloc::Global;

/// A user, and what names a subtree.
#[derive(Debug, Drop)]
pub struct NamedPair<'a> {
    pub user: NamedUser,
    pub subtree: &'a str,
}

impl<'a> NamedPair<'a> {
    /// The pair of a user's word, a space, and what is behind it, which isn't looked into.
    ///
    /// # Errors
    /// `Usage` where the words are none, `NoMemory` where an allocation was refused.
    pub fn from_words(alloc: Global, words: &'a str) -> Result<NamedPair<'a>, ArgumentsFault>
        ensures { MatchResult result
            (λ pair. pair_at words.now ≡ Some (ids_of_pair pair))
            (λ fault. fault ≢ ArgumentsFault.NoMemory → pair_at words.now ≡ None) }
    {
        let Some((user, subtree)) = cut_at_space(words) else {
            return Err(ArgumentsFault::Usage);
        };
        Ok(NamedPair {
            user: NamedUser::from_word(alloc, user)?,
            subtree,
        })
    }
}

/// What is before the first space, and what is behind it.
fn cut_at_space(words: &str) -> Option<(&str, &str)>
    ensures { option_map (λ parts. (parts.0.now, parts.1.now)) result ≡ cut_at is_space words.now }
{
    words.split_once(' ')
}
