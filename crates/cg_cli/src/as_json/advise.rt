//! What to change so that every subtree is contained against every user, as JSON.
ghost use Rattle.std.specs.Prelude.{◌≡◌, ◌≢◌, List, [], map, Ok, Err, None, IfOk, MatchResult};
ghost use Rattle.std.specs.List.{flat_map};
ghost use Rattle.std.specs.Option.{option_map};
ghost use Rattle.cg_cgroup.specs.Identity.{Identity};
ghost use Rattle.cg_cgroup.specs.Paths.{Names};
ghost use Rattle.cg_model.specs.States.{State};
ghost use Rattle.cg_model.specs.Clauses.{first};
ghost use Rattle.cg_model.specs.Checks.{subtree_faults};
ghost use Rattle.cg_model.specs.Several.{AreContained};
ghost use Rattle.cg_advice.specs.Found.{found_parts, advice_parts};
ghost use Rattle.cg_format.specs.Readings.{OnText};
ghost use Rattle.cg_format.specs.TextOf.{IsTextOf};
ghost use Rattle.cg_cli.specs.Advising.{all_pairs};
ghost use Rattle.cg_cli.specs.AsJson.{parts_report, parts_asked, advice_json_report, AdvisesAsJson, advise_json_report};
ghost use Rattle.cg_cli.specs.Audits.{users_read, paths_read};
ghost use Rattle.cg_cli.specs.Reports.{Reports};
ghost use Rattle.cg_cli.specs.Strangers.{IsFirstStranger};

use crate::advise::all_pairs;
use crate::arguments::UserIds;
use crate::named_question::{NamedQuestion, ask_named};
use crate::report::write_said;
use cg_advice::found::{Found, advice};
use cg_cgroup::memory::NoMemory;
use cg_cgroup::path::Path;
use cg_cgroup::user::User;
use cg_check::{first_fault, from_first_unguarded};
use cg_faults::fault::CliFault;
use cg_guards::identities::Identities;
use cg_json::advice::failing_json;
use cg_json::audit::contained_json;
use cg_model::fault::CheckFault;
use cg_model::hierarchy::Hierarchy;
use std::alloc::Global;
use std::io::Write;

/// Writes what `advise_bytes` does, with its status, as the JSON object of that advice, which reads as it.
/// `stranger` is the uid of the first user of whom the tree says nothing.
///
/// # Errors
/// Those of `advise_bytes`.
pub fn advise_json_bytes<W: Write>(
    alloc: Global,
    tree: &[u8],
    users: &[UserIds<'_>],
    subtrees: &[&str],
    stranger: &mut Option<u32>,
    out: &mut W,
) -> Result<u8, CliFault>
    ensures report { OnText tree.now (λ read. Reports
        (advise_json_report read (map (λ user. (user.uid, user.gids.now)) users.now) (map (λ subtree. subtree.now) subtrees.now))
        (W.contents out.old) (W.contents out.new) result) }
    ensures contained { result ≡ Ok 0 → (st : State) (who : List Identity) (paths : List Names)
        → IsTextOf st tree.now → users_read (map (λ user. (user.uid, user.gids.now)) users.now) ≡ Ok who
        → paths_read (map (λ subtree. subtree.now) subtrees.now) ≡ Ok paths → who ≢ [] → AreContained st who paths }
    ensures stranger { IsFirstStranger tree.now (map (λ user. (user.uid, user.gids.now)) users.now) result stranger.new }
{
    ask_named(alloc, &Changes, tree, users, subtrees, stranger, out)
}

/// What to change.
#[derive(Drop)]
struct Changes;

impl NamedQuestion for Changes {
    ghost answers = { λ _. AdvisesAsJson };

    fn answer<H: Hierarchy + Drop, W: Write>(
        &self,
        alloc: Global,
        tree: &H,
        users: &[User],
        subtrees: &[Path],
        out: &mut W,
    ) -> Result<u8, CliFault> {
        let said = advised(alloc, tree, users, subtrees)?;
        write_said(out, said)
    }
}

/// What is said of users and subtrees, and the status.
fn advised<H: Hierarchy + Drop>(
    alloc: Global,
    tree: &H,
    users: &[User],
    subtrees: &[Path],
) -> Result<(Vec<u8>, u8), CheckFault>
    ensures said { MatchResult result
        (λ said. advice_json_report (H.state tree.now) subtrees.now (all_pairs users.now subtrees.now)
        ≡ record { text = said.0.items; ending = Ok said.1 })
        (λ fault. fault ≢ CheckFault.NoMemory
        → parts_asked (H.state tree.now) subtrees.now (all_pairs users.now subtrees.now) ≡ Err fault) }
    ensures contained { IfOk result (λ said. said.1 ≡ 0 → users.now ≢ []
        → AreContained (H.state tree.now) users.now subtrees.now) }
{
    if let Some(fault) = first_fault(tree, subtrees) {
        return Err(fault);
    }
    match advice_said(alloc, tree, users, subtrees) {
        Err(NoMemory) => Err(CheckFault::NoMemory),
        Ok(said) => Ok(said),
    }
}

/// The same of subtrees without a fault.
fn advice_said<H: Hierarchy>(
    alloc: Global,
    tree: &H,
    users: &[User],
    subtrees: &[Path],
) -> Result<(Vec<u8>, u8), NoMemory>
    requires { first (flat_map (subtree_faults (H.state tree.now)) subtrees.now) ≡ None }
    ensures { IfOk result (λ said. parts_report (advice_parts (H.state tree.now) (all_pairs users.now subtrees.now))
        ≡ record { text = said.0.items; ending = Ok said.1 }) }
{
    let parts = advice_of(alloc, tree, users, subtrees)?;
    parts_said(alloc, parts)
}

/// What is to be changed for every user with every subtree. Where no guard fails that is asked once of each subtree, for all users.
pub(crate) fn advice_of<'a, H: Hierarchy>(
    alloc: Global,
    tree: &H,
    users: &'a [User],
    subtrees: &'a [Path],
) -> Result<Option<Found<'a>>, NoMemory>
    requires { first (flat_map (subtree_faults (H.state tree.now)) subtrees.now) ≡ None }
    ensures { IfOk result (λ found. option_map found_parts found ≡ advice_parts (H.state tree.now) (all_pairs users.now subtrees.now)) }
{
    let identities = Identities::of(alloc, users)?;
    let left = from_first_unguarded(tree, users, Some(&identities), subtrees);
    if left.is_empty() {
        return Ok(None);
    }
    let pairs = all_pairs(alloc, users, subtrees)?;
    advice(alloc, tree, pairs.as_slice())
}

/// What is said of what was found, and the status.
pub(crate) fn parts_said(alloc: Global, parts: Option<Found<'_>>) -> Result<(Vec<u8>, u8), NoMemory>
    ensures { IfOk result (λ said. parts_report (option_map found_parts parts.entry) ≡ record { text = said.0.items; ending = Ok said.1 }) }
{
    match parts {
        None => {
            let text = contained_json(alloc)?;
            Ok((text, 0))
        }
        Some(found) => {
            let text = failing_json(alloc, found.stands.as_slice(), found.overs.as_slice())?;
            Ok((text, 1))
        }
    }
}
