//! Entries that let somebody in.
ghost use Rattle.cg_advice.specs.AdviceLines.{IsShown};

use cg_cgroup::path::Path;
use cg_model::guard::GuardedEntry;

/// An entry that lets somebody in and on which a guard of a subtree stands.
#[derive(Clone, Copy)]
pub struct Entrance<'a> {
    pub subtree: &'a Path,
    pub at: GuardedEntry,
    ghost shown: { IsShown subtree.now at },
}
