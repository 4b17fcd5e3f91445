//! The formats of tree texts.
ghost use Rattle.std.specs.Prelude.{◌≡◌, ◌≤◌};
ghost use Rattle.cg_format.specs.Form.{vocabulary, most_rows};

use cg_cgroup::files::Vocabulary;

/// The largest number of cgroups of a text of format 1 or 2, and of its processes.
const MOST_ROWS: usize = 4096;

/// The same of format 4.
pub const MOST_ROWS_OF_4: usize = 65536;

/// The formats of a tree text. There is no third.
#[derive(Clone, Copy, Debug, PartialEq, Eq)]
pub enum Format {
    One,
    Two,
    Four,
}

impl Format {
    /// Which controllers its texts name.
    pub fn vocabulary(self) -> Vocabulary
        ensures { result ≡ vocabulary self }
    {
        match self {
            Format::One | Format::Two => Vocabulary::Format2,
            Format::Four => Vocabulary::Format4,
        }
    }

    /// The largest number of cgroups of a text, and of its processes.
    pub fn most_rows(self) -> usize
        ensures rows { result ≡ most_rows self }
        ensures most { result ≤ MOST_ROWS_OF_4 }
    {
        match self {
            Format::One | Format::Two => MOST_ROWS,
            Format::Four => MOST_ROWS_OF_4,
        }
    }
}
