//! Tree texts.

/// Two subtrees delegated to user 1000, as in the document's example: `/c0` and `/c1`, each with limits that aren't theirs.
pub const DELEGATION: &[u8] = b"
format = 1
controllers = [\"cpu\", \"memory\", \"pids\"]

[[cgroup]]
path = \"/\"
enabled = [\"memory\"]

[[cgroup]]
path = \"/c0\"
dir = { uid = 1000 }
[cgroup.files]
\"cgroup.procs\" = { uid = 1000 }
\"cgroup.subtree_control\" = { uid = 1000 }
\"cgroup.max.depth\" = { value = 2 }
\"cgroup.max.descendants\" = { value = 4 }
\"memory.max\" = { value = 1073741824 }

[[cgroup]]
path = \"/c1\"
dir = { uid = 1000 }
[cgroup.files]
\"cgroup.procs\" = { uid = 1000 }
\"cgroup.subtree_control\" = { uid = 1000 }

[[cgroup]]
path = \"/c0/c00\"
dir = { uid = 1000 }
[cgroup.files]
\"cgroup.procs\" = { uid = 1000 }
\"cgroup.subtree_control\" = { uid = 1000 }
\"cgroup.max.depth\" = { uid = 1000 }
\"cgroup.max.descendants\" = { uid = 1000 }

[[cgroup]]
path = \"/c0/c01\"
dir = { uid = 1000 }
[cgroup.files]
\"cgroup.procs\" = { uid = 1000 }
\"cgroup.subtree_control\" = { uid = 1000 }
\"cgroup.max.depth\" = { uid = 1000 }
\"cgroup.max.descendants\" = { uid = 1000 }

[[cgroup]]
path = \"/c1/c10\"
dir = { uid = 1000 }
[cgroup.files]
\"cgroup.procs\" = { uid = 1000 }
\"cgroup.subtree_control\" = { uid = 1000 }
\"cgroup.max.depth\" = { uid = 1000 }
\"cgroup.max.descendants\" = { uid = 1000 }

[[process]]
pid = 10
uid = 1000
at = \"/c1/c10\"

[[process]]
pid = 11
uid = 1000
at = \"/c0/c00\"
";

/// The same with process 13 at `/c0` itself.
pub const DELEGATION_AND_PROCESS: &[u8] = b"
[[process]]
pid = 13
uid = 1000
at = \"/c0\"
";

/// `/p` is delegated to user 1000 and enables memory; process 20 is below it.
pub const PARENT_DELEGATED: &[u8] = b"
format = 1
controllers = [\"memory\"]

[[cgroup]]
path = \"/\"
enabled = [\"memory\"]

[[cgroup]]
path = \"/p\"
enabled = [\"memory\"]
[cgroup.files]
\"cgroup.procs\" = { uid = 1000 }

[[cgroup]]
path = \"/p/s\"

[[process]]
pid = 20
uid = 1000
at = \"/p/s\"
";

/// User 1000 has all that the guards of `/s` ask for, and a process on each side of its edge.
pub const OPEN: &[u8] = b"
format = 2
controllers = [\"memory\"]

[[cgroup]]
path = \"/\"
dir = { uid = 1000 }
enabled = [\"memory\"]
[cgroup.files]
\"cgroup.procs\" = { uid = 1000 }
\"cgroup.subtree_control\" = { uid = 1000 }

[[cgroup]]
path = \"/s\"
dir = { uid = 1000 }
[cgroup.files]
\"cgroup.procs\" = { uid = 1000 }
\"cgroup.max.descendants\" = { uid = 1000, value = 2 }
\"cgroup.max.depth\" = { uid = 1000, value = 1 }
\"memory.max\" = { uid = 1000 }

[[cgroup]]
path = \"/s/a\"
dir = { uid = 1000 }
[cgroup.files]
\"cgroup.procs\" = { uid = 1000 }
\"cgroup.max.depth\" = { uid = 1000 }

[[process]]
pid = 10
uid = 1000
at = \"/s/a\"

[[process]]
pid = 11
uid = 1000
at = \"/\"
";

/// The parent of `/a/b` isn't there.
pub const NO_PARENT: &[u8] = b"
format = 1
controllers = []
[[cgroup]]
path = \"/\"
[[cgroup]]
path = \"/a/b\"
";

/// Process 5 is in `/a`, which enables memory.
pub const INTERNAL_PROCESS: &[u8] = b"
format = 1
controllers = [\"memory\"]
[[cgroup]]
path = \"/\"
enabled = [\"memory\"]
[[cgroup]]
path = \"/a\"
enabled = [\"memory\"]
[[process]]
pid = 5
uid = 1000
at = \"/a\"
";

/// `/` and `/c0`, everything of uid 0.
pub const EMPTY: &[u8] = b"
format = 1
controllers = []
[[cgroup]]
path = \"/\"
[[cgroup]]
path = \"/c0\"
";
