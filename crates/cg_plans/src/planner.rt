//! Who plans, and what a tree says of what they reach.
ghost use Rattle.std.specs.Prelude.{◌≤◌, length};

use crate::loose::Loose;
use crate::sought::{Side, Way};
use cg_cgroup::files::EntryName;
use cg_cgroup::memory::NoMemory;
use cg_cgroup::path::{Path, PathFault};
use cg_cgroup::process::Pid;
use cg_cgroup::user::User;
use cg_model::hierarchy::Hierarchy;
use std::alloc::Global;
use std::cell::OnceCell;

/// A user, the subtree of a tree that they would break, and what was in the tree at the start.
#[derive(Drop)]
pub struct Planner<'a, H: Hierarchy> {
    pub alloc: Global,
    pub tree: &'a H,
    pub user: &'a User,
    pub subtree: &'a Path,
    pub paths: Vec<Path>,
    pub pids: Vec<Pid>,
    /// What may go of the tree at the start, once a place is sought.
    pub loose: OnceCell<Loose>,
}

impl<'a, H: Hierarchy> Planner<'a, H> {
    /// What may go of the tree at the start.
    pub fn loose(&self) -> Result<&Loose, NoMemory> {
        self.loose.get_or_try_init(|| {
            Loose::new(
                self.alloc,
                self.tree,
                self.user,
                self.subtree,
                self.paths.as_slice(),
            )
        })
    }

    /// Whether a live process is the user's.
    pub fn is_own(&self, pid: Pid) -> bool {
        self.tree.owner(pid) == Some(self.user.uid())
    }

    /// Whether the user reaches an entry of the cgroup of the first `len` names of a path.
    pub fn reaches(&self, tree: &H, path: &Path, len: usize, name: EntryName) -> bool
        requires { len ≤ length path.now }
    {
        let Some(cgroup) = tree.get(path, len) else {
            return false;
        };
        match cgroup.entry(name) {
            Some(entry) => self.user.reaches(&entry),
            None => false,
        }
    }

    /// Whether the user reaches the `cgroup.procs` of the cgroup of the first `len` names of a path.
    pub fn passes_at(&self, tree: &H, path: &Path, len: usize) -> bool
        requires { len ≤ length path.now }
    {
        self.reaches(tree, path, len, EntryName::Procs)
    }

    /// Whether the user moves processes past the common ancestor of two cgroups.
    #[tactic(auto, using(cg_model::proofs::Prefixes::length_common))]
    pub fn passes(&self, tree: &H, from: &Path, to: &Path) -> bool {
        self.passes_at(tree, to, from.common_len(to))
    }

    /// The first of the cgroups above one, from the root down, past which the user moves processes, by its number of names.
    pub fn top_passed(&self, tree: &H, path: &Path) -> Option<usize> {
        for len in 0..path.depth() {
            if self.passes_at(tree, path, len) {
                return Some(len);
            }
        }
        None
    }

    /// How a process comes from a place to another, if it may: over the first cgroup above that is passed where the user doesn't
    /// move it there.
    pub fn way(&self, tree: &H, from: &Path, to: &Path, top: Option<usize>) -> Option<Way> {
        if self.passes(tree, from, to) {
            return Some(Way::Straight);
        }
        match top {
            Some(top) if top < from.common_len(to) => Some(Way::Around),
            _ => None,
        }
    }

    /// Whether a cgroup is on a side, and the user moves processes past its common ancestor with the subtree.
    pub fn is_beside(&self, tree: &H, side: Side, path: &Path) -> bool {
        match side {
            Side::Inside => self.subtree.is_prefix_of(path),
            Side::Outside => {
                !self.subtree.is_prefix_of(path) && self.passes(tree, path, self.subtree)
            }
        }
    }

    /// A path below a cgroup that isn't there; none where its text would be too long.
    pub fn new_child(&self, tree: &H, path: &Path) -> Result<Option<Path>, NoMemory> {
        for number in 0..=self.paths.len() {
            let name = format!(in self.alloc; "probe{number}")?;
            match path.with_child(self.alloc, path.depth(), &name) {
                Ok(child) => {
                    if tree.get(&child, child.depth()).is_none() {
                        return Ok(Some(child));
                    }
                }
                Err(PathFault::BadPath) => return Ok(None),
                Err(PathFault::NoMemory) => return Err(NoMemory),
            }
        }
        Ok(None)
    }
}
