//! Whether a subtree is contained against a user, and what is known of that, as JSON.
ghost use Rattle.std.specs.Prelude.{◌≡◌, ◌∷◌, [], IfOk};
ghost use Rattle.cg_format.specs.Readings.{OnText};
ghost use Rattle.cg_json.specs.Answers.{answer_value};
ghost use Rattle.cg_json.specs.Lines.{json_line};
ghost use Rattle.cg_report.specs.AnswerLines.{IsShown};
ghost use Rattle.cg_cli.specs.AsJson.{subtree_json_report, check_json_report, FurtherSaysAsJson};
ghost use Rattle.cg_cli.specs.Containment.{MeansContained};
ghost use Rattle.cg_cli.specs.Reports.{Reports};
ghost use Rattle.cg_cli.specs.Settled.{IsSettledFrom};
ghost use Rattle.cg_cli.specs.Settling.{AskedReports};
ghost use Rattle.cg_cli.specs.Strangers.{IsFirstStranger};

use crate::answers::settle::settle;
use crate::arguments::UserIds;
use crate::check::status;
use crate::question::{Question, ask};
use cg_cgroup::memory::NoMemory;
use cg_cgroup::path::Path;
use cg_cgroup::user::User;
use cg_check::check;
use cg_faults::fault::CliFault;
use cg_json::answer::answer_json;
use cg_model::answer::Answer;
use cg_model::fault::CheckFault;
use cg_model::hierarchy::Hierarchy;
use std::alloc::Global;
use std::io::Write;

/// Writes what `check_bytes` does, with its status, as the JSON object of that answer, which reads as it.
/// Where the tree says nothing of the user, `stranger` is their uid.
///
/// # Errors
/// Those of `check_bytes`.
pub fn check_json_bytes<W: Write>(
    alloc: Global,
    tree: &[u8],
    user: UserIds<'_>,
    subtree: &str,
    stranger: &mut Option<u32>,
    out: &mut W,
) -> Result<u8, CliFault>
    ensures report { OnText tree.now (λ read. Reports (check_json_report read user.entry.uid user.entry.gids.now subtree.now)
        (W.contents out.old) (W.contents out.new) result) }
    ensures contained { MeansContained tree.now user.entry.uid user.entry.gids.now subtree.now result }
    ensures stranger { IsFirstStranger tree.now ((user.entry.uid, user.entry.gids.now) ∷ []) result stranger.new }
{
    ask(alloc, &Containment, tree, user, subtree, stranger, out)
}

/// Whether the subtree is contained.
#[derive(Drop)]
struct Containment;

impl Question for Containment {
    ghost says = { λ _ st user subtree said. said ≡ subtree_json_report st user subtree };

    fn answer<H: Hierarchy + Drop>(
        &self,
        alloc: Global,
        tree: &H,
        user: &User,
        subtree: &Path,
    ) -> Result<(Vec<u8>, u8), CheckFault> {
        let answer = check(alloc, tree, user, subtree)?;
        match answer_line(alloc, subtree, &answer) {
            Ok(text) => Ok((text, status(&answer))),
            Err(NoMemory) => Err(CheckFault::NoMemory),
        }
    }
}

/// Writes what `settle_bytes` does, with its status, as the JSON object of that answer, which reads as it.
/// Where the tree says nothing of the user, `stranger` is their uid.
///
/// # Errors
/// Those of `settle_bytes`.
pub fn settle_json_bytes<W: Write>(
    alloc: Global,
    tree: &[u8],
    user: UserIds<'_>,
    subtree: &str,
    stranger: &mut Option<u32>,
    out: &mut W,
) -> Result<u8, CliFault>
    ensures report { OnText tree.now (λ read. AskedReports (FurtherSaysAsJson IsSettledFrom)
        read user.entry.uid user.entry.gids.now subtree.now (W.contents out.old) (W.contents out.new) result) }
    ensures contained { MeansContained tree.now user.entry.uid user.entry.gids.now subtree.now result }
    ensures stranger { IsFirstStranger tree.now ((user.entry.uid, user.entry.gids.now) ∷ []) result stranger.new }
{
    ask(alloc, &Settling, tree, user, subtree, stranger, out)
}

/// What is known of the subtree.
#[derive(Drop)]
struct Settling;

impl Question for Settling {
    ghost says = { λ _. FurtherSaysAsJson IsSettledFrom };

    fn answer<H: Hierarchy + Drop>(
        &self,
        alloc: Global,
        tree: &H,
        user: &User,
        subtree: &Path,
    ) -> Result<(Vec<u8>, u8), CheckFault> {
        let answer = settle(alloc, tree, user, subtree)?;
        match answer_line(alloc, subtree, &answer) {
            Ok(text) => Ok((text, status(&answer))),
            Err(NoMemory) => Err(CheckFault::NoMemory),
        }
    }
}

/// The object of an answer on a line.
fn answer_line(alloc: Global, subtree: &Path, answer: &Answer) -> Result<Vec<u8>, NoMemory>
    requires { IsShown subtree.now answer.now }
    ensures { IfOk result (λ text. text.items ≡ json_line (answer_value subtree.now answer.now)) }
{
    answer_json(alloc, subtree, answer)
}
