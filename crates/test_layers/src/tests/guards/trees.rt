//! Trees of texts, and the first guard that fails in one.
ghost use Rattle.std.specs.Prelude.{◌≡◌, false};
ghost use Rattle.cg_cgroup.specs.Paths.{is_root};

use cg_cgroup::path::Path;
use cg_cgroup::user::User;
use cg_guards::failed::failed_guard;
use cg_indexed::indexed::Indexed;
use cg_model::guard::Failed;
use cg_model::hierarchy::Hierarchy;
use cg_rows::rows::Rows;
use cg_text::tree::read_tree;
use std::alloc::Global;
use std::test::Fail;
use test_trees::changes::changed;

/// The row of the root, which stands first in every text.
pub const ROOT: &str = "path = \"/\"\n";

/// Others write `cgroup.procs` of the root.
pub const ROOT_PROCS_OPEN: (&str, &str) = (
    ROOT,
    "path = \"/\"\nfiles = { \"cgroup.procs\" = { mode = 0o646 } }\n",
);

/// User 1000 owns `cgroup.subtree_control` of the root.
pub const ROOT_CONTROL_OWNED: (&str, &str) = (
    ROOT,
    "path = \"/\"\nfiles = { \"cgroup.subtree_control\" = { uid = 1000 } }\n",
);

/// User 1000 owns the root's directory.
pub const ROOT_DIR_OWNED: (&str, &str) = (ROOT, "path = \"/\"\ndir = { uid = 1000 }\n");

/// User 1000 owns `memory.max` of the first cgroup whose row names it.
pub const MEMORY_MAX_OWNED: (&str, &str) = ("\"memory.max\" = {", "\"memory.max\" = { uid = 1000,");

/// The first cgroup with so many descendants at most has room for one alone.
pub const ROOM_FOR_ONE: (&str, &str) = ("value = 4", "value = 1");

/// The tree of a text with a change, in the format that has groups.
pub fn tree_with(alloc: Global, text: &[u8], change: (&str, &str)) -> Result<Rows, Fail> {
    let text = changed(alloc, text, &[("format = 1", "format = 2"), change])?;
    Ok(read_tree(alloc, text.as_bytes())?)
}

/// The first guard that fails of a subtree that is there and isn't the root. Each way to keep the tree says the same.
pub fn first_failed(
    alloc: Global,
    tree: Rows,
    user: &User,
    subtree: &str,
) -> Result<Option<Failed>, Fail> {
    let of_rows = failed_of(alloc, &tree, user, subtree)?;
    let of_indexed = failed_of(alloc, &Indexed::from_rows(alloc, tree)?, user, subtree)?;
    if of_rows != of_indexed {
        return Err("the trees answer differently".into());
    }
    Ok(of_rows)
}

fn failed_of<H: Hierarchy>(
    alloc: Global,
    tree: &H,
    user: &User,
    subtree: &str,
) -> Result<Option<Failed>, Fail> {
    let subtree = Path::parse(alloc, subtree)?;
    if is_root(&subtree) || tree.get(&subtree, subtree.depth()).is_none() {
        return Err("no subtree to ask about".into());
    }
    Ok(failed_guard(tree, user, &subtree))
}

#[tactic(auto, using(cg_model::proofs::Prefixes::root_of_length, cg_model::proofs::Prefixes::no_root_of_length))]
fn is_root(path: &Path) -> bool
    ensures { result ≡ is_root path.now }
{
    path.depth() == 0
}
