//! Whether a subtree is contained against a user.
ghost use Rattle.std.specs.Prelude.{◌≡◌, ◌∷◌, []};
ghost use Rattle.cg_format.specs.Readings.{OnText};
ghost use Rattle.cg_cli.specs.Containment.{answer_status, check_report, subtree_report, MeansContained};
ghost use Rattle.cg_cli.specs.Reports.{Reports};
ghost use Rattle.cg_cli.specs.Strangers.{IsFirstStranger};

use crate::arguments::UserIds;
use crate::question::{Question, ask};
use cg_cgroup::memory::NoMemory;
use cg_cgroup::path::Path;
use cg_cgroup::user::User;
use cg_check::check;
use cg_faults::fault::CliFault;
use cg_model::answer::Answer;
use cg_model::fault::CheckFault;
use cg_model::hierarchy::Hierarchy;
use cg_report::answer::answer_text;
use std::alloc::Global;
use std::io::Write;

/// Writes whether the subtree is contained against the user: `contained` with status 0; `escapes` with status 1, and a
/// line for each operation of a list that breaks it; or `unsettled` with status 2, and the first guard that fails.
/// Where the tree says nothing of the user, `stranger` is their uid.
///
/// # Errors
/// The first that holds of `Uid`, `Gids`, `BadPath`, `Tree` and `Subtree`, and then nothing is written; `Write` where a
/// write failed or took nothing; `NoMemory` where an allocation was refused.
pub fn check_bytes<W: Write>(
    alloc: Global,
    tree: &[u8],
    user: UserIds<'_>,
    subtree: &str,
    stranger: &mut Option<u32>,
    out: &mut W,
) -> Result<u8, CliFault>
    ensures report { OnText tree.now (λ read. Reports (check_report read user.entry.uid user.entry.gids.now subtree.now)
        (W.contents out.old) (W.contents out.new) result) }
    ensures contained { MeansContained tree.now user.entry.uid user.entry.gids.now subtree.now result }
    ensures stranger { IsFirstStranger tree.now ((user.entry.uid, user.entry.gids.now) ∷ []) result stranger.new }
{
    ask(alloc, &Containment, tree, user, subtree, stranger, out)
}

/// Whether the subtree is contained.
#[derive(Drop)]
struct Containment;

impl Question for Containment {
    ghost says = { λ _ st user subtree said. said ≡ subtree_report st user subtree };

    fn answer<H: Hierarchy + Drop>(
        &self,
        alloc: Global,
        tree: &H,
        user: &User,
        subtree: &Path,
    ) -> Result<(Vec<u8>, u8), CheckFault> {
        let answer = check(alloc, tree, user, subtree)?;
        match answer_text(alloc, subtree, &answer) {
            Ok(text) => Ok((text, status(&answer))),
            Err(NoMemory) => Err(CheckFault::NoMemory),
        }
    }
}

/// The status of an answer.
pub(crate) fn status(answer: &Answer) -> u8
    ensures { result ≡ answer_status answer.now }
{
    match answer {
        Answer::Contained => 0,
        Answer::Escapes(_) => 1,
        Answer::Unsettled(_) => 2,
    }
}
