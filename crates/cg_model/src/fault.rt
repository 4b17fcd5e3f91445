//! Why a subtree isn't checked.

/// Why a subtree isn't checked.
#[derive(Clone, Copy, Debug, PartialEq, Eq)]
pub enum CheckFault {
    /// 1: the subtree is the root.
    RootSubtree,
    /// 2: the subtree isn't there.
    NoSuchSubtree,
    /// 3: an allocation was refused.
    NoMemory,
}
