//! The first plain try and the judge's are the same on random trees.
ghost use Rattle.std.specs.Prelude.{◌≡◌};
ghost use Rattle.cg_model.specs.WellFormed.{has_row};

use crate::judge;
use crate::random::Trees;
use cg_cgroup::path::Path;
use cg_cgroup::user::User;
use cg_guards::failed::is_over;
use cg_model::hierarchy::Hierarchy;
use cg_model::operation::Op;
use cg_rows::rows::Rows;
use cg_tries::plain::first_plain_try;
use std::alloc::Global;
use std::process::Abort;
use std::test::Fail;

/// Whether there is a cgroup of a path.
#[tactic(auto, using(cg_model::proofs::Prefixes::take_whole))]
fn is_there<H: Hierarchy>(tree: &H, path: &Path) -> bool
    ensures { result ≡ has_row (H.state tree.now) path.now }
{
    tree.get(path, path.depth()).is_some()
}

/// The kind of a try: 0 for none, and then sets, controls, removals, moves and probes; 6 for a control of a controller that
/// isn't tried in every tree.
fn kind(found: Option<&[Op]>) -> usize {
    match found {
        Some([Op::Set { .. }]) => 1,
        Some([Op::Control { changes, .. }]) => match changes.as_slice() {
            [change] if !change.controller.is_in_format_2() => 6,
            _ => 2,
        },
        Some([Op::Rmdir { .. }]) => 3,
        Some([Op::Move { .. }]) => 4,
        Some(_) => 5,
        None => 0,
    }
}

#[tactic(auto, using(crate::proofs::Within::unbroken_within, cg_model::proofs::Prefixes::no_root_of_length))]
/// Asks for a subtree, where it may be asked about, and gives the kind of what breaks it.
fn ask(
    rt: &impl Abort,
    alloc: Global,
    tree: &Rows,
    user: &User,
    subtree: &Path,
) -> Result<Option<usize>, Fail> {
    if subtree.depth() == 0 || !is_there(tree, subtree) || is_over(tree, subtree) {
        return Ok(None);
    }
    let found = first_plain_try(alloc, tree, user, subtree)?;
    let judged = judge::first_plain_try(alloc, tree, user, subtree)?;
    let found = found.as_ref().map(|operations| operations.as_slice());
    assert_eq!(rt; found, judged.as_ref().map(|ops| ops.as_slice()));
    Ok(Some(kind(found)))
}

/// The same for each subtree of a tree.
fn ask_all(
    rt: &impl Abort,
    alloc: Global,
    tree: &Rows,
    users: &[User],
    kinds: &mut [u64; 7],
) -> Result<(), Fail> {
    for subtree in &tree.paths(alloc)? {
        for user in users.iter().skip(1) {
            if let Some(kind) = ask(rt, alloc, tree, user, subtree)? {
                if let Some(count) = kinds.get_mut(kind) {
                    *count = count.saturating_add(1);
                }
            }
        }
    }
    Ok(())
}

#[test]
fn judge_agrees(rt: HostRuntime) -> Result<(), Fail> {
    let alloc = rt.alloc();
    let mut trees = Trees::new(20231123).ok_or("users")?;
    let mut kinds = [0_u64; 7];
    for _tree in 0..200 {
        let tree = trees.tree(alloc)?;
        ask_all(&rt, alloc, &tree, &trees.users, &mut kinds)?;
    }
    for count in kinds {
        assert!(rt; count > 4, "{kinds:?}");
    }
    Ok(())
}
