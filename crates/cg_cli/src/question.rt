//! Questions about a user and a subtree: what they ask of a tree differs, and nothing else.
ghost use Rattle.std.specs.Prelude.{◌≡◌, ◌≢◌, ◌∷◌, [], true, Ok, IfOk, MatchResult};
ghost use Rattle.cg_cgroup.specs.Identity.{Identity};
ghost use Rattle.cg_cgroup.specs.Paths.{Names};
ghost use Rattle.cg_model.specs.States.{State};
ghost use Rattle.cg_model.specs.Held.{IsContained};
ghost use Rattle.cg_format.specs.Readings.{OnText};
ghost use Rattle.cg_cli.specs.Containment.{MeansContained};
ghost use Rattle.cg_faults.specs.Faults.{lifted_check};
ghost use Rattle.cg_cli.specs.Reports.{Report, fault_report, takes_memory};
ghost use Rattle.cg_cli.specs.Settling.{AskedReports};
ghost use Rattle.cg_cli.specs.Strangers.{IsFirstStranger};

use crate::arguments::{UserIds, read_path, read_user};
use crate::reading::read_tree;
use crate::report::write_said;
use crate::strangers::if_stranger;
use cg_cgroup::path::Path;
use cg_cgroup::user::User;
use cg_faults::fault::CliFault;
use cg_model::fault::CheckFault;
use cg_model::hierarchy::Hierarchy;
use std::alloc::Global;
use std::io::Write;

/// What is asked about a user and a subtree.
pub trait Question {
    /// The reports that may be made.
    ghost says: { Self → State → Identity → Names → Report → Type 0 };

    /// What is said of them in a tree, and the status, which is 0 only where the subtree is contained.
    fn answer<H: Hierarchy + Drop>(
        &self,
        alloc: Global,
        tree: &H,
        user: &User,
        subtree: &Path,
    ) -> Result<(Vec<u8>, u8), CheckFault>
        ensures said { MatchResult result
            (λ said. says self.now (H.state tree.now) user.now subtree.now (record { text = said.0.items; ending = Ok said.1 }))
            (λ fault. fault ≢ CheckFault.NoMemory
            → says self.now (H.state tree.now) user.now subtree.now (fault_report (lifted_check fault))) }
        ensures contained { IfOk result (λ said. said.1 ≡ 0 → IsContained (H.state tree.now) user.now subtree.now) };
}

/// Asks a question of the tree of a text, and writes what is said. Where the tree says nothing of the user, `stranger` is their uid.
pub fn ask<Q: Question, W: Write>(
    alloc: Global,
    question: &Q,
    tree: &[u8],
    user: UserIds<'_>,
    subtree: &str,
    stranger: &mut Option<u32>,
    out: &mut W,
) -> Result<u8, CliFault>
    requires { (st : State) (who : Identity) (path : Names)
        → (said : Report) × Q.says question.now st who path said × (takes_memory said.ending ≡ true) }
    ensures report { OnText tree.now (λ read. AskedReports (Q.says question.now)
        read user.entry.uid user.entry.gids.now subtree.now (W.contents out.old) (W.contents out.new) result) }
    ensures contained { MeansContained tree.now user.entry.uid user.entry.gids.now subtree.now result }
    ensures stranger { IsFirstStranger tree.now ((user.entry.uid, user.entry.gids.now) ∷ []) result stranger.new }
{
    let user = read_user(user)?;
    let subtree = read_path(alloc, subtree)?;
    let tree = read_tree(alloc, tree)?;
    *stranger = if_stranger(&tree, &user);
    let said = question.answer(alloc, &tree, &user, &subtree)?;
    write_said(out, said)
}
