//! What a place is sought for.
use crate::planner::Planner;
use cg_cgroup::path::Path;
use cg_model::hierarchy::Hierarchy;

/// A side of the edge of the subtree.
#[derive(Clone, Copy, Debug, PartialEq, Eq)]
pub enum Side {
    Inside,
    Outside,
}

/// How a process comes to a place.
#[derive(Clone, Copy, Debug, PartialEq, Eq)]
pub enum Way {
    /// The user moves it there.
    Straight,
    /// They move it to another place first.
    Around,
}

/// From where processes have to go.
#[derive(Clone, Copy)]
pub enum Leaving<'a> {
    /// From a cgroup and all below it.
    Below(&'a Path),
    /// From a cgroup that is to enable a controller.
    At(&'a Path),
}

impl Leaving<'_> {
    /// Whether a process at a place has to go.
    pub fn is_from(&self, place: &Path) -> bool {
        match self {
            Leaving::Below(top) => top.is_prefix_of(place),
            Leaving::At(at) => *at == place,
        }
    }

    /// Whether a process may go to a cgroup, or to a new child of it: the cgroups above the subtree enable the controller, too.
    pub fn may_go_to(&self, path: &Path, is_new: bool, subtree: &Path) -> bool {
        match self {
            Leaving::Below(top) => !top.is_prefix_of(path),
            Leaving::At(_) => {
                is_new || path.depth() == 0 || path == subtree || !path.is_prefix_of(subtree)
            }
        }
    }
}

/// For which process a place is sought.
#[derive(Clone, Copy)]
pub enum Goer<'a> {
    /// One that comes over the edge, to a side of it.
    Over(Side),
    /// One that has to leave where it is, and the first cgroup above that past which the user moves it.
    Leaving {
        from: &'a Path,
        leaving: Leaving<'a>,
        top: Option<usize>,
    },
    /// One that comes from a place to another by the one that is sought.
    Between {
        from: &'a Path,
        to: &'a Path,
    },
}

/// What is sought: a place for a process, but for some that are avoided.
#[derive(Clone, Copy)]
pub struct Sought<'a> {
    pub goer: Goer<'a>,
    pub avoided: &'a [Path],
}

impl Sought<'_> {
    /// How the process comes to a cgroup, or to a new child of it, if it may.
    pub fn way<H: Hierarchy>(
        &self,
        planner: &Planner<H>,
        tree: &H,
        path: &Path,
        is_new: bool,
    ) -> Option<Way> {
        match &self.goer {
            Goer::Over(side) if planner.is_beside(tree, *side, path) => Some(Way::Straight),
            Goer::Over(_) => None,
            Goer::Leaving { from, leaving, top } => {
                if leaving.may_go_to(path, is_new, planner.subtree) {
                    planner.way(tree, from, path, *top)
                } else {
                    None
                }
            }
            Goer::Between { from, to }
                if planner.passes(tree, from, path) && planner.passes(tree, path, to) => {
                Some(Way::Straight)
            }
            Goer::Between { .. } => None,
        }
    }

    /// Whether a place is avoided.
    pub fn avoids(&self, place: &Path) -> bool {
        self.avoided.contains(place)
    }
}
