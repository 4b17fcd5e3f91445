//! The first of the plain tries that breaks a subtree.
ghost use Rattle.std.specs.Prelude.{◌≡◌, find, IfOk};
ghost use Rattle.cg_model.specs.Guards.{IsSubtree};
ghost use Rattle.cg_model.specs.Tries.{plain_tries};
ghost use Rattle.cg_model.specs.Escapes.{breaks};
ghost use Rattle.cg_tries.specs.Escapes.{IsUnbroken};
ghost use Rattle.cg_tries.specs.Finding.{first_passage};

use crate::asker::Asker;
use crate::move_tries::{first_move, passes_above};
use crate::probe_tries::first_probe;
use crate::write_tries::first_write;
use cg_cgroup::memory::NoMemory;
use cg_cgroup::path::Path;
use cg_cgroup::user::User;
use cg_model::hierarchy::Hierarchy;
use cg_model::operations::Operations;
use std::alloc::Global;

/// The first move over the edge, or new cgroup above with a move there, that breaks the subtree.
fn first_passage<H: Hierarchy>(asker: &Asker<H>) -> Result<Option<Operations>, NoMemory>
    ensures { IfOk result (λ found. found ≡ first_passage (H.state asker.now.tree.now) asker.now.user.now asker.now.subtree.now) }
{
    let places = asker.tree.receivers(asker.alloc, asker.user)?;
    let pids = asker.tree.pids(asker.alloc)?;
    if let Some(found) = first_move(asker, &places, &pids)? {
        return Ok(Some(found));
    }
    first_probe(asker, &pids)
}

/// The first of the plain tries that breaks a subtree of which nothing is broken at the start. None is carried out: each
/// depends on few entries, which are read. It takes about as long as reading each cgroup and each process once.
pub fn first_plain_try<H: Hierarchy>(
    alloc: Global,
    tree: &H,
    user: &User,
    subtree: &Path,
) -> Result<Option<Operations>, NoMemory>
    requires subtree { IsSubtree (H.state tree.now) subtree.now }
    requires unbroken { IsUnbroken (H.state tree.now) subtree.now }
    ensures { IfOk result (λ found. found
        ≡ find (breaks (H.state tree.now) user.now subtree.now) (plain_tries (H.state tree.now) subtree.now)) }
{
    let Some(cgroup) = tree.get(subtree, subtree.depth()) else {
        unreachable!()
    };
    let asker = Asker {
        alloc,
        tree,
        user,
        subtree,
    };
    if let Some(found) = first_write(&asker, cgroup)? {
        return Ok(Some(found));
    }
    if !passes_above(&asker) {
        return Ok(None);
    }
    first_passage(&asker)
}
