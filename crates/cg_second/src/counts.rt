//! Counts of the cgroups before each place, in the order of their paths.
ghost use Rattle.std.specs.Prelude.{◌≡◌, ◌<◌, ◌+◌, ◌++◌, ◌∷◌, [], ◌&&◌, not, cond, length, vec_len, IfOk, OnOk};
ghost use Rattle.cg_cgroup.specs.Files.{enables};
ghost use Rattle.cg_cgroup.specs.declared.files.EntryName.TheVariants.{SubtreeControl};
ghost use Rattle.cg_cgroup.specs.declared.files.Controller.TheVariants.{Memory};
ghost use Rattle.cg_model.specs.States.{paths_of};
ghost use Rattle.cg_model.specs.WellFormed.{IsWellFormed, enabled_at};
ghost use Rattle.cg_second.specs.Greatest.{greatest};
ghost use Rattle.cg_second.specs.Lasting.{is_reached};
ghost use Rattle.cg_second.specs.Anchors.{is_anchored, is_fixed};
ghost use Rattle.cg_second.specs.Counts.{AreCounts, AreEnds};

use crate::reach::{is_anchored, is_enabled, is_reached};
use cg_cgroup::files::{Controller, EntryName};
use cg_cgroup::memory::NoMemory;
use cg_cgroup::path::Path;
use cg_cgroup::user::User;
use cg_model::hierarchy::Hierarchy;
use std::alloc::Global;

/// How many passed before each place so far.
#[derive(Drop)]
struct Tally {
    counts: Vec<usize>,
    count: usize,
}

impl Tally {
    fn new(alloc: Global) -> Result<Tally, NoMemory>
        ensures counts { IfOk result (λ tally. tally.counts.items ≡ 0 ∷ []) }
        ensures count { IfOk result (λ tally. tally.count ≡ 0) }
    {
        let mut counts = Vec::new(alloc);
        counts.push(0)?;
        Ok(Tally { counts, count: 0 })
    }

    /// Counts one more, which passes or doesn't.
    fn add(&mut self, passes: bool) -> Result<(), NoMemory>
        requires { self.old.count < vec_len self.old.counts }
        ensures counts { OnOk result (self.new.counts.items ≡ self.old.counts.items ++ self.new.count ∷ []) }
        ensures count { OnOk result (self.new.count ≡ self.old.count + cond passes 1 0) }
    {
        if passes {
            self.count += 1;
        }
        self.counts.push(self.count)?;
        Ok(())
    }
}

/// For each cgroup the place of the next that isn't below it.
pub fn ends_of<H: Hierarchy>(
    alloc: Global,
    tree: &H,
    paths: &[Path],
) -> Result<Vec<usize>, NoMemory>
    requires { paths.now ≡ paths_of (H.state tree.now) }
    ensures { IfOk result (λ ends. AreEnds (H.state tree.now) (length (paths_of (H.state tree.now))) ends.items) }
{
    let mut ends = Vec::new(alloc);
    for (at, path) in paths.iter().enumerate() {
        let below = tree.count_below(path, path.depth());
        ends.push(at + 1 + below as usize)?;
    }
    Ok(ends)
}

/// How many cgroups before each place are anchored.
pub fn anchored_counts<H: Hierarchy>(
    alloc: Global,
    tree: &H,
    users: &[User],
    paths: &[Path],
) -> Result<Vec<usize>, NoMemory>
    ensures { IfOk result (λ counts. AreCounts (is_anchored (H.state tree.now) users.now) paths.now (length paths.now) counts.items) }
{
    let mut tally = Tally::new(alloc)?;
    for path in paths {
        tally.add(is_anchored(tree, users, path))?;
    }
    Ok(tally.counts)
}

/// Counts of those that stay, and of those that go on enabling memory.
#[derive(Drop)]
pub struct Lasting {
    pub kept: Vec<usize>,
    pub fixed: Vec<usize>,
}

/// How many cgroups before each place stay, and how many go on enabling memory, whatever is below them.
pub fn lasting_counts<H: Hierarchy>(
    alloc: Global,
    tree: &H,
    users: &[User],
    paths: &[Path],
    ends: &[usize],
    anchored: &[usize],
) -> Result<Lasting, NoMemory>
    requires formed { IsWellFormed (H.state tree.now) }
    requires all { paths.now ≡ paths_of (H.state tree.now) }
    requires ends { AreEnds (H.state tree.now) (length (paths_of (H.state tree.now))) ends.now }
    requires anchored { AreCounts (is_anchored (H.state tree.now) users.now) (paths_of (H.state tree.now)) (length (paths_of (H.state tree.now))) anchored.now }
    ensures kept { IfOk result (λ lasting. AreCounts
        (greatest (H.state tree.now) users.now).stays
        (paths_of (H.state tree.now)) (length (paths_of (H.state tree.now))) lasting.kept.items) }
    ensures fixed { IfOk result (λ lasting. AreCounts
        (is_fixed (H.state tree.now) users.now Memory)
        (paths_of (H.state tree.now)) (length (paths_of (H.state tree.now))) lasting.fixed.items) }
{
    let mut kept = Tally::new(alloc)?;
    let mut fixed = Tally::new(alloc)?;
    for (at, path) in paths.iter().enumerate() {
        let is_kept = anchored[at] < anchored[ends[at]];
        kept.add(is_kept)?;
        let is_fixed = is_kept && goes_on_enabling(tree, users, path, Controller::Memory);
        fixed.add(is_fixed)?;
    }
    Ok(Lasting {
        kept: kept.counts,
        fixed: fixed.counts,
    })
}

/// Whether a cgroup enables a controller, and none of the users disables it there.
pub fn goes_on_enabling<H: Hierarchy>(
    tree: &H,
    users: &[User],
    path: &Path,
    controller: Controller,
) -> bool
    ensures { result ≡ (enables (enabled_at (H.state tree.now) path.now) controller
        && not (is_reached (H.state tree.now) users.now path.now SubtreeControl)) }
{
    is_enabled(tree, path, path.depth(), controller)
        && !is_reached(tree, users, path, path.depth(), EntryName::SubtreeControl)
}
