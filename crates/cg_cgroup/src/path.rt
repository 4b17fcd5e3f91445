//! Paths of cgroups.
pub mod copies;
pub mod laws;
mod names;
pub mod order;
pub mod parse;

ghost use Rattle.std.specs.Prelude.{◌≡◌, ◌+◌, ◌<◌, ◌≤◌, length, take, slice_index_or, [], IfOk};
ghost use Rattle.cg_cgroup.specs.Paths.{path_text, path_cmp, same_path, inside, common, IsPath};
ghost use Rattle.cg_cgroup.specs.PathText.{names_text};
ghost use Rattle.cg_cgroup.specs.declared.path.PathFault.{PathFault};

use crate::memory::NoMemory;
use std::alloc::{AllocError, AllocFailed};
use std::marker::Model;

/// Why a call that makes a path made none.
#[derive(Clone, Copy, Debug, PartialEq, Eq)]
pub enum PathFault {
    /// The text, or the text with the name, is no path.
    BadPath = 1,
    /// An allocation was refused.
    NoMemory = 2,
}

impl From<NoMemory> for PathFault {
    ghost from_gives = { λ _ fault. fault ≡ PathFault.NoMemory };

    fn from(_error: NoMemory) -> PathFault {
        PathFault::NoMemory
    }
}

impl From<AllocError> for PathFault {
    ghost from_gives = { λ _ fault. fault ≡ PathFault.NoMemory };

    fn from(_error: AllocError) -> PathFault {
        PathFault::NoMemory
    }
}

impl<T: Drop> From<AllocFailed<T>> for PathFault {
    ghost from_gives = { λ _ fault. fault ≡ PathFault.NoMemory };

    fn from(_error: AllocFailed<T>) -> PathFault {
        PathFault::NoMemory
    }
}

/// The path of a cgroup: the root, or names from the root down.
#[derive(Debug, Drop)]
pub struct Path {
    text: String,
    ends: Vec<u16>,
}

impl Model for Path {
    ghost use Rattle.std.specs.Prelude.{List, ℕ};
    ghost use Rattle.std.specs.String.{string_bytes};
    ghost use Rattle.cg_cgroup.specs.Paths.{names_of};
    ghost use Rattle.cg_cgroup.specs.PathText.{IsKept};

    ghost Value = { List (List ℕ) };

    ghost view = { λ p. names_of (string_bytes p.text) };

    ghost invariant = { λ p. IsKept (string_bytes p.text) p.ends.items };
}

impl Path {
    /// How many names the path has; 0 for the root.
    pub fn depth(&self) -> usize
        ensures depth { result ≡ length self.now }
        ensures path { IsPath self.now }
    {
        self.ends.len()
    }

    /// Where the first `len` names end in the text.
    fn end(&self, len: usize) -> usize
        requires { len ≤ length self.now }
        ensures { result ≡ length (names_text (take len self.now)) }
    {
        if len == 0 {
            0
        } else {
            self.ends[len - 1] as usize
        }
    }

    /// The text of the first `len` names alone: nothing for none.
    fn front(&self, len: usize) -> &str
        requires { len ≤ length self.now }
        ensures text { result.now ≡ names_text (take len self.now) }
        ensures path { IsPath self.now }
    {
        &self.text.as_str()[..self.end(len)]
    }

    /// The text of the path of the first `len` names.
    pub fn prefix(&self, len: usize) -> &str
        requires { len ≤ length self.now }
        ensures text { result.now ≡ path_text (take len self.now) }
        ensures path { IsPath self.now }
    {
        let front = self.front(len);
        if len == 0 { "/" } else { front }
    }

    /// The name at `i`, counted from 0 at the root's child.
    pub fn name(&self, i: usize) -> &str
        requires { i < length self.now }
        ensures { result.now ≡ slice_index_or self.now i [] }
    {
        &self.text.as_str()[self.end(i) + 1..self.end(i + 1)]
    }

    /// The depth of the parent of a path that isn't the root.
    pub fn parent_len(&self) -> usize
        requires { 0 < length self.now }
        ensures { result + 1 ≡ length self.now }
    {
        self.depth() - 1
    }
}
