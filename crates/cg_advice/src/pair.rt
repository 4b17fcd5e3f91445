//! Users and subtrees that are to be contained against them, and who gets in.
ghost use Rattle.cg_advice.specs.AdviceLines.{IsShown};

use crate::ways::Ways;
use cg_cgroup::path::Path;
use cg_cgroup::user::User;
use cg_model::guard::GuardedEntry;

/// A user, and a subtree that is to be contained against them.
#[derive(Clone, Copy)]
pub struct Pair<'a> {
    pub user: &'a User,
    pub subtree: &'a Path,
}

/// The user of a pair, and an entry that they reach on which a guard of its subtree stands.
#[derive(Clone, Copy)]
pub struct Entrant<'a> {
    pub pair: Pair<'a>,
    pub at: GuardedEntry,
    ghost shown: { IsShown pair.subtree.now at },
}

/// An entry on which a guard of a subtree stands, and by what those get in who were met there.
#[derive(Clone, Copy)]
pub struct Stand<'a> {
    pub subtree: &'a Path,
    pub at: GuardedEntry,
    pub ways: Ways,
    ghost shown: { IsShown subtree.now at },
}

/// A subtree that is over its limits: how many cgroups and how many levels are below it, where that is more than its limit.
#[derive(Clone, Copy)]
pub struct Over<'a> {
    pub subtree: &'a Path,
    pub descendants: Option<u64>,
    pub depth: Option<u64>,
}
