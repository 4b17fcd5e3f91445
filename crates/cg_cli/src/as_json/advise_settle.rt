//! What to change so that every subtree is contained against every user, where more is asked than guards, as JSON.
ghost use Rattle.std.specs.Prelude.{◌≡◌, ◌≢◌, [], map, cond, Ok, Err, Some, None, IfOk, MatchResult};
ghost use Rattle.std.specs.List.{flat_map};
ghost use Rattle.std.specs.Option.{option_map};
ghost use Rattle.cg_model.specs.Clauses.{first};
ghost use Rattle.cg_model.specs.Checks.{subtree_faults};
ghost use Rattle.cg_model.specs.WellFormed.{IsWellFormed};
ghost use Rattle.cg_advice.specs.Found.{found_parts};
ghost use Rattle.cg_format.specs.Readings.{OnText};
ghost use Rattle.cg_cli.specs.AsJson.{parts_report, settled_parts, settled_asked, settled_json_report, advise_settled_json_report};
ghost use Rattle.cg_cli.specs.Reports.{Reports};
ghost use Rattle.cg_cli.specs.Strangers.{IsFirstStranger};

use crate::advise_settle::are_held;
use crate::arguments::UserIds;
use crate::as_json::advise::{advice_of, parts_said};
use crate::named_question::{NamedQuestion, ask_named};
use crate::report::write_said;
use cg_advice::found::Found;
use cg_cgroup::memory::NoMemory;
use cg_cgroup::path::Path;
use cg_cgroup::user::User;
use cg_check::first_fault;
use cg_faults::fault::CliFault;
use cg_model::fault::CheckFault;
use cg_model::hierarchy::Hierarchy;
use std::alloc::Global;
use std::io::Write;

/// Writes what `advise_settled_bytes` does, with its status, as the JSON object of that advice, which reads as it.
/// `stranger` is the uid of the first user of whom the tree says nothing.
///
/// # Errors
/// Those of `advise_bytes`.
pub fn advise_settled_json_bytes<W: Write>(
    alloc: Global,
    tree: &[u8],
    users: &[UserIds<'_>],
    subtrees: &[&str],
    stranger: &mut Option<u32>,
    out: &mut W,
) -> Result<u8, CliFault>
    ensures report { OnText tree.now (λ read. Reports
        (advise_settled_json_report read (map (λ user. (user.uid, user.gids.now)) users.now) (map (λ subtree. subtree.now) subtrees.now))
        (W.contents out.old) (W.contents out.new) result) }
    ensures stranger { IsFirstStranger tree.now (map (λ user. (user.uid, user.gids.now)) users.now) result stranger.new }
{
    ask_named(alloc, &SettledChanges, tree, users, subtrees, stranger, out)
}

/// What to change, where the second row of guards is asked.
#[derive(Drop)]
struct SettledChanges;

impl NamedQuestion for SettledChanges {
    ghost answers = { λ _. λ st users subtrees. Reports (settled_json_report st users subtrees) };

    fn answer<H: Hierarchy + Drop, W: Write>(
        &self,
        alloc: Global,
        tree: &H,
        users: &[User],
        subtrees: &[Path],
        out: &mut W,
    ) -> Result<u8, CliFault> {
        let said = advised(alloc, tree, users, subtrees)?;
        write_said(out, said)
    }
}

/// What is said of users and subtrees, and the status.
fn advised<H: Hierarchy + Drop>(
    alloc: Global,
    tree: &H,
    users: &[User],
    subtrees: &[Path],
) -> Result<(Vec<u8>, u8), CheckFault>
    ensures { MatchResult result
        (λ said. settled_json_report (H.state tree.now) users.now subtrees.now ≡ record { text = said.0.items; ending = Ok said.1 })
        (λ fault. fault ≢ CheckFault.NoMemory → settled_asked (H.state tree.now) users.now subtrees.now ≡ Err fault) }
{
    if let Some(fault) = first_fault(tree, subtrees) {
        return Err(fault);
    }
    match advice_said(alloc, tree, users, subtrees) {
        Err(NoMemory) => Err(CheckFault::NoMemory),
        Ok(said) => Ok(said),
    }
}

/// The same of subtrees without a fault.
fn advice_said<H: Hierarchy>(
    alloc: Global,
    tree: &H,
    users: &[User],
    subtrees: &[Path],
) -> Result<(Vec<u8>, u8), NoMemory>
    requires formed { subtrees.now ≢ [] → IsWellFormed (H.state tree.now) }
    requires there { first (flat_map (subtree_faults (H.state tree.now)) subtrees.now) ≡ None }
    ensures { IfOk result (λ said. parts_report (settled_parts (H.state tree.now) users.now subtrees.now)
        ≡ record { text = said.0.items; ending = Ok said.1 }) }
{
    let parts = settled_parts(alloc, tree, users, subtrees)?;
    parts_said(alloc, parts)
}

/// Nothing where no guard fails, or the second row of each subtree holds, and else what is to be changed. The second row is asked last,
/// since it takes longer.
fn settled_parts<'a, H: Hierarchy>(
    alloc: Global,
    tree: &H,
    users: &'a [User],
    subtrees: &'a [Path],
) -> Result<Option<Found<'a>>, NoMemory>
    requires formed { subtrees.now ≢ [] → IsWellFormed (H.state tree.now) }
    requires there { first (flat_map (subtree_faults (H.state tree.now)) subtrees.now) ≡ None }
    ensures { IfOk result (λ found. option_map found_parts found ≡ settled_parts (H.state tree.now) users.now subtrees.now) }
{
    match advice_of(alloc, tree, users, subtrees)? {
        None => Ok(None),
        Some(found) => found_unless(are_held(alloc, tree, users, subtrees)?, found),
    }
}

/// What was found, but where the second row of each subtree holds nothing.
fn found_unless(is_held: bool, found: Found<'_>) -> Result<Option<Found<'_>>, NoMemory>
    ensures { result ≡ Ok (cond is_held None (Some found.entry)) }
{
    if is_held {
        return Ok(None);
    }
    Ok(Some(found))
}
