//! The lines of a pair that isn't contained.
ghost use Rattle.std.specs.Prelude.{◌≡◌, ◌++◌, IfOk, OnOk, string_bytes};
ghost use Rattle.std.specs.List.{flat_map};
ghost use Rattle.cg_report.specs.AnswerLines.{IsShown};
ghost use Rattle.cg_report.specs.PairLines.{next_gid, gids_text, user_text, user_line, pair_text};

use crate::answer::answer_text;
use cg_cgroup::memory::NoMemory;
use cg_cgroup::path::Path;
use cg_cgroup::user::User;
use cg_model::answer::Answer;
use std::alloc::{AllocError, Global};

/// The line of a user and a subtree, and then those of their answer, each with its newline. Fails where memory is wanted.
pub fn pair_text(
    alloc: Global,
    user: &User,
    subtree: &Path,
    answer: &Answer,
) -> Result<Vec<u8>, NoMemory>
    requires { IsShown subtree.now answer.now }
    ensures { IfOk result (λ text. text.items ≡ pair_text (record { user = user.now; subtree = subtree.now; found = answer.now })) }
{
    let mut text = user_line(alloc, user, subtree)?.into_bytes();
    let lines = answer_text(alloc, subtree, answer)?;
    text.extend_from_slice(lines.as_slice())?;
    Ok(text)
}

/// The line that names a pair by its user and its subtree.
pub fn user_line(alloc: Global, user: &User, subtree: &Path) -> Result<String, AllocError>
    ensures { IfOk result (λ line. string_bytes line ≡ user_line user.now subtree.now) }
{
    let who = user_text(alloc, user)?;
    let mut line = format!(in alloc; "pair {who} ")?;
    line.push_str(subtree.prefix(subtree.depth()))?;
    line.push_str("\n")?;
    Ok(line)
}

/// A user's uid, and where they are in groups a colon and the groups' gids.
fn user_text(alloc: Global, user: &User) -> Result<String, AllocError>
    ensures { IfOk result (λ text. string_bytes text ≡ user_text user.now) }
{
    let mut text = format!(in alloc; "{}", user.uid())?;
    push_gids(alloc, &mut text, user.gids())?;
    Ok(text)
}

/// A colon and gids behind a text, where there are any.
fn push_gids(alloc: Global, text: &mut String, gids: &[u32]) -> Result<(), AllocError>
    ensures { OnOk result (string_bytes text.new ≡ string_bytes text.old ++ gids_text gids.now) }
{
    let [gid, others @ ..] = gids else {
        return Ok(());
    };
    let primary = format!(in alloc; ":{gid}")?;
    text.push_str(primary.as_str())?;
    push_others(alloc, text, others)
}

/// Gids behind others, each after a comma.
pub fn push_others(alloc: Global, text: &mut String, gids: &[u32]) -> Result<(), AllocError>
    ensures { OnOk result (string_bytes text.new ≡ string_bytes text.old ++ flat_map next_gid gids.now) }
{
    for gid in gids {
        let other = format!(in alloc; ",{gid}")?;
        text.push_str(other.as_str())?;
    }
    Ok(())
}
