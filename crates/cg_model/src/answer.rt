//! The answer for a user and a subtree, and for several of both.
use crate::guard::Failed;
use crate::operations::Operations;

/// Whether a subtree is contained against a user.
#[derive(Debug, PartialEq, Drop)]
pub enum Answer {
    /// Whatever the user does, the subtree is held.
    Contained,
    /// These operations of the user, in turn, break it.
    Escapes(Operations),
    /// This guard fails, and none of the tries breaks anything.
    Unsettled(Failed),
}

/// Whether each subtree of a list is contained against each user of a list.
#[derive(Debug, PartialEq, Drop)]
pub enum AllAnswer {
    /// Every user with every subtree.
    Contained,
    /// The first pair that isn't, by user and then subtree, each named by its place in its list.
    Pair {
        user: usize,
        subtree: usize,
        answer: Answer,
    },
}
