//! How an operation ends, and why it may not be carried out.
use cg_cgroup::files::{Controller, EntryName, LimitFile};
use cg_cgroup::process::Pid;

/// Why an operation isn't carried out. A `len` names the cgroup of that many first names of the operation's own path.
#[derive(Clone, Copy, Debug, PartialEq, Eq)]
pub enum Refusal {
    /// 1: the cgroup isn't there.
    NoSuchCgroup { len: usize },
    /// 2: the user doesn't write the entry.
    NoAccess { len: usize, entry: EntryName },
    /// 3: no process of that number is live.
    NoSuchProcess { pid: Pid },
    /// 4: a cgroup other than the root would have processes and enable controllers.
    InternalProcess { len: usize },
    /// 5: the controller isn't available to the cgroup.
    NotAvailable { controller: Controller },
    /// 6: a child of the cgroup enables the controller.
    ChildUses { controller: Controller },
    /// 7: the cgroup is there already.
    Exists,
    /// 8: a cgroup would have more descendants than its `cgroup.max.descendants` allows.
    DescendantLimit { len: usize },
    /// 9: a cgroup would have descendants further down than its `cgroup.max.depth` allows.
    DepthLimit { len: usize },
    /// 10: the root isn't removed.
    RootCgroup,
    /// 11: the cgroup has a child.
    HasChildren,
    /// 12: a live process is in the cgroup.
    HasProcesses,
    /// 13: the limit file doesn't stand at the cgroup.
    NoSuchFile { entry: EntryName },
    /// 14: the limit file doesn't accept the value.
    BadValue { file: LimitFile },
    /// 15: the process isn't the user's.
    NotYours { pid: Pid },
    /// 16: a process of that number was there before.
    PidUsed { pid: Pid },
    /// 17: the user doesn't own the entry.
    NotOwner { entry: EntryName },
}

/// How an operation ended.
#[derive(Clone, Copy, Debug, PartialEq, Eq)]
pub enum Outcome {
    /// It was carried out.
    Done,
    /// It was refused, and nothing changed.
    Refused(Refusal),
}
