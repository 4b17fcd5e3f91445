//! Whether several subtrees are contained against several users.
ghost use Rattle.std.specs.Prelude.{◌≡◌, ◌≢◌, List, [], map, Ok, Err, IfOk, MatchResult};
ghost use Rattle.cg_cgroup.specs.Identity.{Identity};
ghost use Rattle.cg_cgroup.specs.Paths.{Names};
ghost use Rattle.cg_model.specs.States.{State};
ghost use Rattle.cg_model.specs.Checks.{all_checked};
ghost use Rattle.cg_model.specs.Several.{AreContained};
ghost use Rattle.cg_format.specs.Readings.{OnText};
ghost use Rattle.cg_format.specs.TextOf.{IsTextOf};
ghost use Rattle.cg_cli.specs.Audits.{users_read, paths_read, audit_status, pairs_report, AuditsPairs, audit_report};
ghost use Rattle.cg_cli.specs.Reports.{Reports};
ghost use Rattle.cg_cli.specs.Strangers.{IsFirstStranger};

use crate::arguments::UserIds;
use crate::check::status;
use crate::named_question::{NamedQuestion, ask_named};
use crate::report::write_said;
use cg_cgroup::memory::NoMemory;
use cg_cgroup::path::Path;
use cg_cgroup::user::User;
use cg_check::check_all_by;
use cg_faults::fault::CliFault;
use cg_guards::identities::Identities;
use cg_model::answer::AllAnswer;
use cg_model::fault::CheckFault;
use cg_model::hierarchy::Hierarchy;
use cg_report::audit::audit_text;
use std::alloc::Global;
use std::io::Write;

/// Writes whether every subtree is contained against every user: `contained` with status 0, or the line of the first pair
/// that isn't, by user and then subtree, and what `check_bytes` writes of it, with its status. A user or a subtree that is
/// named again is asked once.
/// `stranger` is the uid of the first user of whom the tree says nothing.
///
/// # Errors
/// The first that holds of `Uid` and `Gids` for each user in turn, `BadPath`, `Tree` and `Subtree`, and then nothing is
/// written; `Write` where a write failed or took nothing; `NoMemory` where an allocation was refused.
pub fn audit_bytes<W: Write>(
    alloc: Global,
    tree: &[u8],
    users: &[UserIds<'_>],
    subtrees: &[&str],
    stranger: &mut Option<u32>,
    out: &mut W,
) -> Result<u8, CliFault>
    ensures report { OnText tree.now (λ read. Reports
        (audit_report read (map (λ user. (user.uid, user.gids.now)) users.now) (map (λ subtree. subtree.now) subtrees.now))
        (W.contents out.old) (W.contents out.new) result) }
    ensures contained { result ≡ Ok 0 → (st : State) (who : List Identity) (paths : List Names)
        → IsTextOf st tree.now → users_read (map (λ user. (user.uid, user.gids.now)) users.now) ≡ Ok who
        → paths_read (map (λ subtree. subtree.now) subtrees.now) ≡ Ok paths → who ≢ [] → AreContained st who paths }
    ensures stranger { IsFirstStranger tree.now (map (λ user. (user.uid, user.gids.now)) users.now) result stranger.new }
{
    ask_named(alloc, &FirstPair, tree, users, subtrees, stranger, out)
}

/// Which pair is the first that isn't contained.
#[derive(Drop)]
struct FirstPair;

impl NamedQuestion for FirstPair {
    ghost answers = { λ _. AuditsPairs };

    fn answer<H: Hierarchy + Drop, W: Write>(
        &self,
        alloc: Global,
        tree: &H,
        users: &[User],
        subtrees: &[Path],
        out: &mut W,
    ) -> Result<u8, CliFault> {
        let said = audited(alloc, tree, users, subtrees)?;
        write_said(out, said)
    }
}

/// What is said of users and subtrees, and the status.
fn audited<H: Hierarchy + Drop>(
    alloc: Global,
    tree: &H,
    users: &[User],
    subtrees: &[Path],
) -> Result<(Vec<u8>, u8), CheckFault>
    ensures said { MatchResult result
        (λ said. pairs_report (H.state tree.now) users.now subtrees.now ≡ record { text = said.0.items; ending = Ok said.1 })
        (λ fault. fault ≢ CheckFault.NoMemory → all_checked (H.state tree.now) users.now subtrees.now ≡ Err fault) }
    ensures contained { IfOk result (λ said. said.1 ≡ 0 → users.now ≢ []
        → AreContained (H.state tree.now) users.now subtrees.now) }
{
    let Ok(identities) = Identities::of(alloc, users) else {
        return Err(CheckFault::NoMemory);
    };
    let answer = check_all_by(alloc, tree, users, Some(&identities), subtrees)?;
    match audit_text(alloc, users, subtrees, &answer) {
        Ok(text) => Ok((text, audit_status(&answer))),
        Err(NoMemory) => Err(CheckFault::NoMemory),
    }
}

/// The status of an answer for several users and subtrees.
pub(crate) fn audit_status(answer: &AllAnswer) -> u8
    ensures { result ≡ audit_status answer.now }
{
    match answer {
        AllAnswer::Contained => 0,
        AllAnswer::Pair { answer, .. } => status(answer),
    }
}
