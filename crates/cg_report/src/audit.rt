//! The lines of the answer for several users and several subtrees.
ghost use Rattle.std.specs.Prelude.{◌≡◌, ◌++◌, ℕ, List, Ok, IfOk, string_bytes};
ghost use Rattle.cg_cgroup.specs.Identity.{Identity};
ghost use Rattle.cg_cgroup.specs.Paths.{Names};
ghost use Rattle.cg_model.specs.States.{State};
ghost use Rattle.cg_model.specs.Checks.{all_checked};
ghost use Rattle.cg_model.specs.declared.answer.AllAnswer.{AllAnswer};
ghost use Rattle.cg_report.specs.AnswerLines.{answer_text, IsShown};
ghost use Rattle.cg_report.specs.AuditLines.{audit_text, pair_line, IsPairShown};

use crate::answer::answer_text;
use cg_cgroup::memory::NoMemory;
use cg_cgroup::path::Path;
use cg_cgroup::user::User;
use cg_model::answer::{AllAnswer, Answer};
use std::alloc::{AllocError, Global};

/// The lines of the answer for users and subtrees, each with its newline: `contained`, or the line of the first pair that
/// isn't, and then its answer's. Fails where memory is wanted.
pub fn audit_text(
    alloc: Global,
    users: &[User],
    subtrees: &[Path],
    answer: &AllAnswer,
) -> Result<Vec<u8>, NoMemory>
    requires { IsPairShown users.now subtrees.now answer.now }
    ensures { IfOk result (λ text. text.items ≡ audit_text users.now subtrees.now answer.now) }
{
    match answer {
        AllAnswer::Contained => Ok(b"contained\n".to_vec(alloc)?),
        AllAnswer::Pair {
            user,
            subtree,
            answer,
        } => uid_pair_text(alloc, &users[*user], &subtrees[*subtree], answer),
    }
}

/// The line of a pair that names the uid alone, and then those of its answer, each with its newline. Fails where memory is wanted.
pub fn uid_pair_text(
    alloc: Global,
    user: &User,
    subtree: &Path,
    answer: &Answer,
) -> Result<Vec<u8>, NoMemory>
    requires { IsShown subtree.now answer.now }
    ensures { IfOk result (λ text. text.items ≡ pair_line user.now.uid subtree.now ++ answer_text subtree.now answer.now) }
{
    let mut text = pair_line(alloc, user.uid(), subtree)?.into_bytes();
    let lines = answer_text(alloc, subtree, answer)?;
    text.extend_from_slice(lines.as_slice())?;
    Ok(text)
}

/// The line that names a pair.
fn pair_line(alloc: Global, uid: u32, subtree: &Path) -> Result<String, AllocError>
    ensures { IfOk result (λ line. string_bytes line ≡ pair_line uid subtree.now) }
{
    let mut line = format!(in alloc; "pair {uid} ")?;
    line.push_str(subtree.prefix(subtree.depth()))?;
    line.push_str("\n")?;
    Ok(line)
}

/// The answer for several users and subtrees can be shown: it names a pair of the lists, and the pair's answer can be.
pub fn audits_are_shown()
    ensures { (st : State) (users : List Identity) (subtrees : List Names) (found : AllAnswer)
        → all_checked st users subtrees ≡ Ok found → IsPairShown users subtrees found }
{}
