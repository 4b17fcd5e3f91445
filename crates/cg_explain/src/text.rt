//! The lines of what is told of a pair.
ghost use Rattle.std.specs.Prelude.{◌≡◌, ◌<◌, IfOk, length, string_bytes};
ghost use Rattle.cg_advice.specs.AdviceLines.{IsShown};
ghost use Rattle.cg_explain.specs.ExplainLines.{verdict_word, holds_line, told_line, counted_line, staying_word, switch_word, taking_word, growing_word, files_word, asked_line};

use crate::counted::Counted;
use crate::first::Told;
use crate::second::{Asked, Growing, Staying, Switch, Taking};
use cg_advice::text::{fails_line, mode_word, owner_word};
use cg_cgroup::files::{Limit, LimitFile};
use cg_cgroup::path::Path;
use cg_model::guard::{Guard, GuardedEntry};
use std::alloc::{AllocError, Global};

/// The line of an entry of the first row: whether the guard on it holds, the entry with its owner, group and mode, and where it
/// fails by what class the user reaches it.
pub fn told_line(alloc: Global, subtree: &Path, told: &Told) -> Result<String, AllocError>
    requires { IsShown subtree.now told.now.at }
    ensures { IfOk result (λ line. string_bytes line ≡ told_line subtree.now told.now) }
{
    match told.by {
        None => holds_line(alloc, subtree, &told.at),
        Some(class) => fails_line(alloc, subtree, &told.at, class),
    }
}

/// The line of a guard that holds: its entry, with the owner, group and mode.
pub fn holds_line(alloc: Global, subtree: &Path, at: &GuardedEntry) -> Result<String, AllocError>
    requires { IsShown subtree.now at.now }
    ensures { IfOk result (λ line. string_bytes line ≡ holds_line subtree.now at.now) }
{
    let guard = at.guard.name();
    let place = subtree.prefix(at.len);
    let name = at.name.name();
    let owner = owner_word(alloc, at.entry.uid, at.entry.gid)?;
    let mode = mode_word(alloc, at.entry.mode)?;
    format!(in alloc; "holds {guard} {place} {name} {owner} {mode}\n")
}

/// The line of a limit of a subtree: whether the subtree is within it, how many there are, and the limit.
pub fn counted_line(
    alloc: Global,
    subtree: &Path,
    file: LimitFile,
    counted: Counted,
) -> Result<String, AllocError>
    ensures { IfOk result (λ line. string_bytes line ≡ counted_line subtree.now file counted) }
{
    let verdict = verdict_word(counted.is_within());
    let guard = Guard::AlreadyOver.name();
    let place = subtree.prefix(subtree.depth());
    let file = file.name();
    let count = counted.count;
    match counted.limit {
        Limit::Max => format!(in alloc; "{verdict} {guard} {place} {file} {count} max\n"),
        Limit::At(most) => format!(in alloc; "{verdict} {guard} {place} {file} {count} {most}\n"),
    }
}

/// The line of what the second row asks: whether it is so, and by what.
pub fn asked_line(alloc: Global, subtree: &Path, asked: &Asked) -> Result<String, AllocError>
    requires { 0 < length subtree.now }
    ensures { IfOk result (λ line. string_bytes line ≡ asked_line subtree.now asked.now) }
{
    let verdict = verdict_word(asked.is_met());
    let at = subtree.prefix(subtree.depth());
    match asked {
        Asked::Stays(why) => format!(in alloc; "{verdict} stays {at} {}\n", staying_word(*why)),
        Asked::Control(controller, how) => {
            let at = subtree.prefix(subtree.parent_len());
            let name = controller.name();
            format!(in alloc; "{verdict} control {at} {name} {}\n", switch_word(*how))
        }
        Asked::Files(spared) => format!(in alloc; "{verdict} files {at} {}\n", files_word(*spared)),
        Asked::Shut(place) => {
            let at = place.path.prefix(place.path.depth());
            let takes = taking_word(place.takes_none);
            let grows = growing_word(place.grows_none);
            format!(in alloc; "{verdict} shut {at} {takes} {grows}\n")
        }
    }
}

fn verdict_word(holds: bool) -> &'static str
    ensures { result.now ≡ verdict_word holds }
{
    if holds { "holds" } else { "fails" }
}

pub(crate) fn staying_word(why: Option<Staying>) -> &'static str
    ensures { result.now ≡ staying_word why }
{
    match why {
        None => "removed",
        Some(Staying::Spared) => "spared",
        Some(Staying::Upheld) => "upheld",
    }
}

pub(crate) fn switch_word(how: Option<Switch>) -> &'static str
    ensures { result.now ≡ switch_word how }
{
    match how {
        None => "turned",
        Some(Switch::On) => "on",
        Some(Switch::Off) => "off",
    }
}

pub(crate) fn taking_word(why: Option<Taking>) -> &'static str
    ensures { result.now ≡ taking_word why }
{
    match why {
        None => "takes",
        Some(Taking::Spared) => "spared",
        Some(Taking::Enabling) => "enabling",
    }
}

pub(crate) fn growing_word(why: Option<Growing>) -> &'static str
    ensures { result.now ≡ growing_word why }
{
    match why {
        None => "grows",
        Some(Growing::Spared) => "spared",
        Some(Growing::Full) => "full",
    }
}

pub(crate) fn files_word(spared: bool) -> &'static str
    ensures { result.now ≡ files_word spared }
{
    if spared { "spared" } else { "reached" }
}
