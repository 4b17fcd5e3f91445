//! What of a tree may go, by the directories and the control files that a user reaches. Of processes nothing is asked.
use cg_cgroup::memory::NoMemory;
use cg_cgroup::path::Path;
use cg_cgroup::user::User;
use cg_model::hierarchy::Hierarchy;
use std::alloc::Global;

/// How many of the cgroups before each place are of a kind.
#[derive(Drop)]
struct Tally {
    count: usize,
    counts: Vec<usize>,
}

impl Tally {
    fn new(alloc: Global) -> Result<Tally, NoMemory> {
        let counts = vec![in alloc; 0]?;
        Ok(Tally { count: 0, counts })
    }

    /// Adds the next cgroup, which is of the kind or not.
    fn add(&mut self, is_one: bool) -> Result<(), NoMemory> {
        if is_one {
            self.count = self.count.saturating_add(1);
        }
        self.counts.push(self.count)?;
        Ok(())
    }

    /// How many there are from one place up to another.
    fn between(&self, from: usize, to: usize) -> usize {
        let counts = self.counts.as_slice();
        match (counts.get(from), counts.get(to)) {
            (Some(before), Some(after)) => after.saturating_sub(*before),
            _ => 0,
        }
    }
}

/// A cgroup with all below it. It goes by its place among the paths of the tree, where those below it come directly behind it.
#[derive(Clone, Copy, Debug, PartialEq, Eq)]
struct Branch {
    /// The place of its parent; none of the root.
    parent: Option<usize>,
    /// The place behind it and all below it.
    end: usize,
    /// Whether the user reaches its directory.
    is_reached: bool,
    /// Whether it enables a controller, and the user doesn't reach its `cgroup.subtree_control`.
    stays_enabled: bool,
    /// Whether it, or a cgroup below it, has a child and a directory that isn't reached.
    is_shut: bool,
}

impl Branch {
    /// A cgroup with nothing below it.
    fn new<H: Hierarchy>(
        tree: &H,
        user: &User,
        path: &Path,
        at: usize,
        parent: Option<usize>,
    ) -> Branch {
        let (is_reached, stays_enabled) = match tree.get(path, path.depth()) {
            Some(cgroup) => (
                user.reaches(&cgroup.dir),
                !cgroup.enabled.is_empty() && !user.reaches(&cgroup.subtree_control),
            ),
            None => (false, false),
        };
        Branch {
            parent,
            end: at.saturating_add(1),
            is_reached,
            stays_enabled,
            is_shut: false,
        }
    }

    /// With one of its children, of which all is known.
    fn with_child(self, child: Branch) -> Branch {
        Branch {
            end: self.end.max(child.end),
            is_shut: self.is_shut || child.is_shut || !self.is_reached,
            ..self
        }
    }
}

/// Each cgroup of a tree by itself.
fn alone<H: Hierarchy>(
    alloc: Global,
    tree: &H,
    user: &User,
    paths: &[Path],
) -> Result<Vec<Branch>, NoMemory> {
    let mut branches = Vec::new(alloc);
    // the last one and those above it
    let mut above: Vec<usize> = Vec::new(alloc);
    for (at, path) in paths.iter().enumerate() {
        above.truncate(path.depth());
        let parent = above.as_slice().last().copied();
        branches.push(Branch::new(tree, user, path, at, parent))?;
        above.push(at)?;
    }
    Ok(branches)
}

/// Adds to each cgroup what is known of those below it.
fn join(branches: &mut [Branch]) {
    for at in (0..branches.len()).rev() {
        tell_parent(branches, at);
    }
}

/// Adds to a cgroup's parent what is known of the one at a place, once all is known of it.
fn tell_parent(branches: &mut [Branch], at: usize) {
    let Some(child) = branches.get(at).copied() else {
        return;
    };
    let Some(place) = child.parent else {
        return;
    };
    if let Some(parent) = branches.get_mut(place) {
        *parent = parent.with_child(child);
    }
}

/// Whether the user may remove a cgroup and all below it.
fn is_removable(branches: &[Branch], branch: &Branch) -> bool {
    let Some(place) = branch.parent else {
        return false;
    };
    match branches.get(place) {
        Some(parent) => parent.is_reached && !branch.is_shut,
        None => false,
    }
}

/// Which cgroups may be removed, and which have to enable a controller as long as they are there. Cgroups go by their place among
/// the paths of the tree.
#[derive(Drop)]
pub struct Loose {
    branches: Vec<Branch>,
    removable: Tally,
    enabling: Tally,
}

impl Loose {
    pub fn new<H: Hierarchy>(
        alloc: Global,
        tree: &H,
        user: &User,
        subtree: &Path,
        paths: &[Path],
    ) -> Result<Loose, NoMemory> {
        let mut branches = alone(alloc, tree, user, paths)?;
        join(&mut branches);
        let mut removable = Tally::new(alloc)?;
        let mut enabling = Tally::new(alloc)?;
        for (branch, path) in branches.iter().zip(paths) {
            let goes = is_removable(branches.as_slice(), branch) && !path.is_prefix_of(subtree);
            removable.add(goes)?;
            enabling.add(!goes && branch.stays_enabled)?;
        }
        Ok(Loose {
            branches,
            removable,
            enabling,
        })
    }

    /// The place behind the cgroup at a place and all below it.
    fn end(&self, at: usize) -> usize {
        match self.branches.as_slice().get(at) {
            Some(branch) => branch.end,
            None => at,
        }
    }

    /// How many of the cgroups below the one at a place may be removed.
    pub fn removable_below(&self, at: usize) -> usize {
        self.removable.between(at.saturating_add(1), self.end(at))
    }

    /// Whether each cgroup below the one at a place may be removed, or enable nothing.
    pub fn opens_below(&self, at: usize) -> bool {
        self.enabling.between(at.saturating_add(1), self.end(at)) == 0
    }
}
