//! How an answer is written.
ghost use Rattle.std.specs.Prelude.{◌≡◌, ok_or};
ghost use Rattle.clap.specs.Matches.{found_of};
ghost use Rattle.arguments.specs.Formats.{format_named, format_at};

use crate::fault::ArgumentsFault;
use clap::ArgMatches;

/// How an answer is written.
#[derive(Clone, Copy, Debug, PartialEq, Eq)]
pub enum Format {
    Lines,
    Json,
}

impl Format {
    /// What `--format` says. Where it is left out it is lines.
    pub(crate) fn from_matches(matches: &ArgMatches<'_>) -> Result<Format, ArgumentsFault>
        ensures { result ≡ ok_or (format_at (found_of matches.now)) ArgumentsFault.Usage }
    {
        match matches.get_str("format") {
            None => Ok(Format::Lines),
            Some(word) => Format::from_word(word),
        }
    }

    fn from_word(word: &str) -> Result<Format, ArgumentsFault>
        ensures { result ≡ ok_or (format_named word.now) ArgumentsFault.Usage }
    {
        match word {
            "lines" => Ok(Format::Lines),
            "json" => Ok(Format::Json),
            _ => Err(ArgumentsFault::Usage),
        }
    }
}
