//! What is known of the cgroups of a tree once all were gone over.
ghost use Rattle.std.specs.Prelude.{◌≡◌, ◌<◌, length, slice_index_or, [], cond, IfOk};
ghost use Rattle.cg_second.specs.Greatest.{greatest};
ghost use Rattle.cg_second.specs.Lasting.{lasting_below};
ghost use Rattle.cg_model.specs.WellFormed.{IsWellFormed};
ghost use Rattle.cg_cgroup.specs.declared.files.Controller.TheVariants.{Memory};
ghost use Rattle.cg_second.specs.Anchors.{any_below, is_fixed};
ghost use Rattle.cg_second.specs.Counts.{IsSurvey};

use crate::counts::{anchored_counts, ends_of, lasting_counts};
use cg_cgroup::memory::NoMemory;
use cg_cgroup::path::Path;
use cg_cgroup::user::User;
use cg_model::hierarchy::Hierarchy;
use std::alloc::Global;

/// The cgroups of a tree in the order of their paths, and what some users can't change of them.
#[derive(Drop)]
pub struct Survey<'a, H: Hierarchy> {
    pub tree: &'a H,
    pub users: &'a [User],
    pub paths: Vec<Path>,
    /// For each cgroup the place of the next that isn't below it.
    pub ends: Vec<usize>,
    /// How many before each place stay.
    pub kept: Vec<usize>,
    /// How many before each place go on enabling memory, whatever is below them.
    pub fixed: Vec<usize>,
}

impl<'a, H: Hierarchy> Survey<'a, H> {
    /// That of a tree and some users.
    pub fn of(alloc: Global, tree: &'a H, users: &'a [User]) -> Result<Self, NoMemory>
        requires { IsWellFormed (H.state tree.now) }
        ensures tree { IfOk result (λ survey. survey.tree.now ≡ tree.now) }
        ensures users { IfOk result (λ survey. survey.users.now ≡ users.now) }
        ensures survey { IfOk result (λ survey. IsSurvey (H.state tree.now) users.now survey.paths.items survey.ends.items survey.kept.items survey.fixed.items) }
    {
        let paths = tree.paths(alloc)?;
        let ends = ends_of(alloc, tree, &paths)?;
        let anchored = anchored_counts(alloc, tree, users, &paths)?;
        let lasting = lasting_counts(alloc, tree, users, &paths, &ends, &anchored)?;
        Ok(Survey {
            tree,
            users,
            paths,
            ends,
            kept: lasting.kept,
            fixed: lasting.fixed,
        })
    }

    /// Whether the cgroup at a place stays.
    pub fn stays_at(&self, at: usize) -> bool
        requires survey { IsSurvey (H.state self.now.tree.now) self.now.users.now self.now.paths.items self.now.ends.items self.now.kept.items self.now.fixed.items }
        requires within { at < length self.now.paths.items }
        ensures { result ≡ (greatest (H.state self.now.tree.now) self.now.users.now).stays (slice_index_or self.now.paths.items at []) }
    {
        self.kept[at] < self.kept[at + 1]
    }

    /// How many of those below the cgroup at a place stay.
    pub fn kept_below(&self, at: usize) -> usize
        requires survey { IsSurvey (H.state self.now.tree.now) self.now.users.now self.now.paths.items self.now.ends.items self.now.kept.items self.now.fixed.items }
        requires within { at < length self.now.paths.items }
        ensures { result ≡ lasting_below (H.state self.now.tree.now) (greatest (H.state self.now.tree.now) self.now.users.now) (slice_index_or self.now.paths.items at []) }
    {
        self.kept[self.ends[at]] - self.kept[at + 1]
    }

    /// Whether one of those below the cgroup at a place goes on enabling memory.
    pub fn fixed_below(&self, at: usize) -> bool
        requires survey { IsSurvey (H.state self.now.tree.now) self.now.users.now self.now.paths.items self.now.ends.items self.now.kept.items self.now.fixed.items }
        requires within { at < length self.now.paths.items }
        ensures { result ≡ any_below (H.state self.now.tree.now) (slice_index_or self.now.paths.items at []) (is_fixed (H.state self.now.tree.now) self.now.users.now Memory) }
    {
        self.fixed[at + 1] < self.fixed[self.ends[at]]
    }
}
