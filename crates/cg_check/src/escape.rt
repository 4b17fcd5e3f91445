//! The first of the tries that breaks a subtree, found in the opened tree: no try is carried out for itself.
ghost use Rattle.std.specs.Prelude.{◌≡◌, ◌++◌, false, IfOk, OnOk};
ghost use Rattle.cg_model.specs.WellFormed.{IsWellFormed};
ghost use Rattle.cg_model.specs.Guards.{IsSubtree};
ghost use Rattle.cg_model.specs.Steps.{after_all};
ghost use Rattle.cg_model.specs.Held.{by_user};
ghost use Rattle.cg_model.specs.Tries.{opening};
ghost use Rattle.cg_model.specs.Escapes.{first_escape};
ghost use Rattle.cg_tries.specs.Escapes.{IsUnbroken};
ghost use Rattle.cg_check.specs.Opened.{is_free};
ghost use Rattle.cg_cgroup.specs.Paths.{is_root, parent};
ghost use Rattle.cg_ops.specs.Moves.{passes_at};

use crate::opening::opening;
use cg_cgroup::memory::NoMemory;
use cg_cgroup::path::Path;
use cg_cgroup::user::User;
use cg_guards::failed::is_over;
use cg_model::hierarchy::Hierarchy;
use cg_model::operation::Op;
use cg_model::operations::Operations;
use cg_ops::{apply, refusal};
use cg_tries::plain::first_plain_try;
use std::alloc::Global;

/// The first of the tries that breaks the subtree, where there is one.
pub fn first_escape<H: Hierarchy + Drop>(
    alloc: Global,
    tree: &H,
    user: &User,
    subtree: &Path,
) -> Result<Option<Operations>, NoMemory>
    requires formed { IsWellFormed (H.state tree.now) }
    requires subtree { IsSubtree (H.state tree.now) subtree.now }
    ensures { IfOk result (λ found. found ≡ first_escape (H.state tree.now) user.now subtree.now) }
{
    if is_over(tree, subtree) {
        return Ok(Some(Operations::new(alloc)));
    }
    let chmods = opening(alloc, tree, user, subtree)?;
    first_unbroken_escape(alloc, tree, user, subtree, chmods)
}

/// The same of a subtree of which nothing is broken yet, from its opening on. The tree is copied at most once.
fn first_unbroken_escape<H: Hierarchy + Drop>(
    alloc: Global,
    tree: &H,
    user: &User,
    subtree: &Path,
    mut chmods: Operations,
) -> Result<Option<Operations>, NoMemory>
    requires formed { IsWellFormed (H.state tree.now) }
    requires subtree { IsSubtree (H.state tree.now) subtree.now }
    requires unbroken { IsUnbroken (H.state tree.now) subtree.now }
    requires opening { chmods ≡ opening (H.state tree.now) user.now subtree.now }
    ensures { IfOk result (λ found. found ≡ first_escape (H.state tree.now) user.now subtree.now) }
{
    if chmods.as_slice().is_empty() {
        return first_plain_try(alloc, tree, user, subtree);
    }
    let mut opened = tree.try_clone(alloc)?;
    carry_out(alloc, &mut opened, user, chmods.as_slice())?;
    let Some(found) = first_plain_try(alloc, &opened, user, subtree)? else {
        return Ok(None);
    };
    if is_free(tree, user, found.as_slice()) {
        return Ok(Some(found));
    }
    chmods.append(found)?;
    Ok(Some(chmods))
}

/// Carries operations of a user out, one after another.
fn carry_out<H: Hierarchy>(
    alloc: Global,
    tree: &mut H,
    user: &User,
    ops: &[Op],
) -> Result<(), NoMemory>
    ensures { OnOk result (H.state tree.new ≡ after_all (H.state tree.old) (by_user user.now ops.now)) }
{
    for op in ops {
        apply(alloc, tree, user, op)?;
    }
    Ok(())
}

/// Whether a try that breaks the opened tree breaks the tree as it is.
fn is_free<H: Hierarchy>(tree: &H, user: &User, ops: &[Op]) -> bool
    ensures { result ≡ is_free (H.state tree.now) user.now ops.now }
{
    let Some(op) = ops.first() else {
        return false;
    };
    if ops.len() == 1 {
        return refusal(tree, user, op).is_none();
    }
    match op {
        Op::Mkdir { path } => refusal(tree, user, op).is_none() && passes_above(tree, user, path),
        _ => false,
    }
}

/// Whether a user writes the `cgroup.procs` of a cgroup's parent.
fn passes_above<H: Hierarchy>(tree: &H, user: &User, path: &Path) -> bool
    requires { is_root path.now ≡ false }
    ensures { result ≡ passes_at (H.state tree.now) user.now (parent path.now) }
{
    match tree.get(path, path.parent_len()) {
        Some(cgroup) => user.may_write(&cgroup.procs),
        None => true,
    }
}
