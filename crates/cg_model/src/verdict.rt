//! What a run broke of a subtree.
use cg_cgroup::process::Pid;

/// What a step may break of a subtree, in the order in which it is asked.
#[derive(Clone, Copy, Debug, PartialEq, Eq)]
pub enum Clause {
    /// The subtree isn't there.
    Gone,
    /// This process, live before and after the step, was inside on one side of it alone.
    Crossed(Pid),
    /// The limit files that stand at the subtree, or their values, aren't those at the start.
    Limits,
    /// The subtree has more descendants than its `cgroup.max.descendants` allows.
    Descendants,
    /// The subtree has descendants further down than its `cgroup.max.depth` allows.
    Depth,
}

/// Whether a subtree was kept over a run.
#[derive(Clone, Copy, Debug, PartialEq, Eq)]
pub enum Verdict {
    /// No step broke anything.
    Kept,
    /// After so many steps, 0 for the start, something was broken for the first time.
    Broken { after: usize, clause: Clause },
}
