//! How many cgroups lie below one, while cgroups are made and removed below it.
use crate::tests::trees::fixtures::{Owners, add, delegation, path, remove};
use cg_cgroup::path::PathFault;
use cg_indexed::indexed::Indexed;
use cg_model::hierarchy::Hierarchy;
use std::alloc::Global;
use std::process::Abort;
use std::test::Fail;

/// How many cgroups lie below that of a text.
fn count_below<H: Hierarchy>(
    alloc: Global,
    tree: &H,
    text: &str,
) -> Result<Option<u64>, PathFault> {
    let path = path(alloc, text)?;
    if tree.get(&path, path.depth()).is_none() {
        return Ok(None);
    }
    Ok(Some(tree.count_below(&path, path.depth())))
}

/// Cgroups that are made and removed in turn, and how many then lie below `/c0`.
const CHANGES: [(bool, &str, u64); 4] = [
    (true, "/c0/a", 3),
    (true, "/c0/b", 4),
    (false, "/c0/a", 3),
    (true, "/c0/c", 4),
];

/// Counts below `/c0` of the delegation at the start and after each change.
fn check_counts<H: Hierarchy>(rt: &impl Abort, alloc: Global, tree: &mut H) -> Result<(), Fail> {
    assert_eq!(rt; count_below(alloc, tree, "/c0")?, Some(2));
    for (is_made, text, count) in CHANGES {
        let path = path(alloc, text)?;
        let is_done = if is_made {
            add(alloc, tree, &path, Owners::WHOLE)?
        } else {
            remove(tree, &path)
        };
        assert!(rt; is_done, "{text}");
        assert_eq!(rt; count_below(alloc, tree, "/c0")?, Some(count), "{text}");
    }
    Ok(())
}

#[test]
fn counts_are_kept(rt: HostRuntime) -> Result<(), Fail> {
    let mut tree = Indexed::from_rows(rt.alloc(), delegation(&rt, rt.alloc())?)?;
    check_counts(&rt, rt.alloc(), &mut tree)
}

#[test]
fn counts_are_made(rt: HostRuntime) -> Result<(), Fail> {
    let mut tree = delegation(&rt, rt.alloc())?;
    check_counts(&rt, rt.alloc(), &mut tree)
}
