//! How an answer is written.

/// How an answer is written: as lines, or as JSON.
#[derive(Clone, Copy, Debug, PartialEq, Eq)]
pub enum Format {
    Lines,
    Json,
}
