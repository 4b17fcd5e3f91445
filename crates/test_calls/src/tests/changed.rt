//! Tree texts that differ from others at a few places.
use std::alloc::Global;
use std::test::Fail;
use test_trees::changes::changed;
use test_trees::texts::DELEGATION;

/// A part of a text, and what stands in its place.
pub type Change = (&'static str, &'static str);

/// The first row of tree texts that enable memory at the root, up to its end.
pub const ROOT: &str = "enabled = [\"memory\"]\n";

/// The limit on the memory of `/c0` in the delegation.
pub const MEMORY_MAX: &str = "\"memory.max\" = { value = 1073741824 }";

pub const FORMAT_2: Change = ("format = 1", "format = 2");

pub const FORMAT_4: Change = ("format = 1", "format = 4");

/// The delegation's root has `io` and `dmem` too, and its text is of format 4.
pub const OTHERS: [Change; 2] = [
    FORMAT_4,
    (
        "controllers = [\"cpu\", \"memory\", \"pids\"]",
        "controllers = [\"pids\", \"dmem\", \"memory\", \"io\", \"cpu\"]",
    ),
];

/// User 1000 owns the limit on the memory of `/c0`.
pub const MEMORY_MAX_OWNED: Change = (
    MEMORY_MAX,
    "\"memory.max\" = { uid = 1000, value = 1073741824 }",
);

/// `/c0` has more descendants than it may have.
pub const TOO_MANY: Change = (
    "\"cgroup.max.descendants\" = { value = 4 }",
    "\"cgroup.max.descendants\" = { value = 1 }",
);

/// Others write `cgroup.procs` of the root.
pub const ROOT_PROCS_OPEN: Change = (
    ROOT,
    "enabled = [\"memory\"]\n[cgroup.files]\n\"cgroup.procs\" = { mode = 0o646 }\n",
);

/// User 1000 owns `cgroup.procs` of the root, and may not write it.
pub const ROOT_PROCS_OWNED: Change = (
    ROOT,
    "enabled = [\"memory\"]\n[cgroup.files]\n\"cgroup.procs\" = { uid = 1000, mode = 0o446 }\n",
);

/// Group 50 writes `cgroup.procs` of the root.
pub const GROUP_WRITES: Change = (
    ROOT,
    "enabled = [\"memory\"]\n[cgroup.files]\n\"cgroup.procs\" = { gid = 50, mode = 0o664 }\n",
);

/// User 1001 owns the limit on the memory of `/c0`.
pub const SECOND_USER: Change = (
    MEMORY_MAX,
    "\"memory.max\" = { uid = 1001, value = 1073741824 }",
);

/// The delegation with these changes.
pub fn delegation_with(alloc: Global, changes: &[(&str, &str)]) -> Result<String, Fail> {
    changed(alloc, DELEGATION, changes)
}
