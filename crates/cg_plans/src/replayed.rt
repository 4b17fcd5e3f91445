//! A list, replayed before it is given.
ghost use Rattle.std.specs.Prelude.{◌≡◌, ◌<◌, true, length, Ok, IfOk, IfSome};
ghost use Rattle.cg_cgroup.specs.Files.{vocabulary_of};
ghost use Rattle.cg_cgroup.specs.Paths.{Names};
ghost use Rattle.cg_model.specs.States.{State};
ghost use Rattle.cg_model.specs.declared.verdict.Clause.{Clause};
ghost use Rattle.cg_plans.specs.Breaking.{Breaks};
ghost use Rattle.cg_plans.specs.Following.{Follows};

use cg_cgroup::files::Vocabulary;
use cg_cgroup::memory::NoMemory;
use cg_cgroup::path::Path;
use cg_cgroup::user::User;
use cg_lines::lines::has_short_line;
use cg_model::fault::CheckFault;
use cg_model::hierarchy::Hierarchy;
use cg_model::operation::Op;
use cg_model::operations::Operations;
use cg_model::outcome::Outcome;
use cg_model::verdict::Verdict;
use cg_runs::fault::StepFault;
use cg_runs::replay::{MAX_STEPS, Replay};
use std::alloc::Global;

/// The list up to the operation that breaks the subtree of the tree as it is; none where nothing breaks it, or one is refused.
pub fn replayed<H: Hierarchy + Drop>(
    alloc: Global,
    tree: &H,
    user: &User,
    subtree: &Path,
    operations: Vec<Op>,
) -> Result<Option<Operations>, NoMemory>
    ensures { IfOk result (λ found. IfSome found (Breaks (H.state tree.now) user.now subtree.now)) }
{
    let mut replay = match Replay::start(alloc, tree.try_clone(alloc)?, subtree.try_clone(alloc)?) {
        Ok(replay) => replay,
        Err(CheckFault::NoMemory) => return Err(NoMemory),
        Err(_) => return Ok(None),
    };
    let vocabulary = Vocabulary::of(tree.controllers());
    let mut kept = Operations::new(alloc);
    for op in operations {
        if !follow(alloc, vocabulary, user, &mut replay, &mut kept, op)? {
            return Ok(None);
        }
        if is_broken_by_last(replay.verdict(), kept.as_slice().len()) {
            return Ok(Some(kept));
        }
    }
    Ok(None)
}

/// Makes a step by an operation, and keeps it, unless its line can't be read with the tree at the start or it is refused. Whether it
/// was kept.
fn follow<H: Hierarchy>(
    alloc: Global,
    vocabulary: Vocabulary,
    user: &User,
    replay: &mut Replay<H>,
    kept: &mut Operations,
    op: Op,
) -> Result<bool, NoMemory>
    ensures { (start : State) (subtree : Names) → vocabulary ≡ vocabulary_of start.controllers
        → Follows start user.now subtree replay.old kept.old → result ≡ Ok true
        → Follows start user.now subtree replay.new kept.new }
{
    if !has_short_line(vocabulary, &op) {
        return Ok(false);
    }
    match replay.step(alloc, user, &op) {
        Ok(Outcome::Done) => {}
        Ok(Outcome::Refused(_)) | Err(StepFault::TooManySteps) => return Ok(false),
        Err(StepFault::NoMemory) => return Err(NoMemory),
    }
    kept.push(op)?;
    Ok(true)
}

/// Whether the last of so many steps broke the subtree, and they are fewer than a replay may have.
fn is_broken_by_last(verdict: Verdict, steps: usize) -> bool
    ensures { result ≡ true → (steps < 65536) × (clause : Clause) × (verdict ≡ Verdict.Broken steps clause) }
{
    match verdict {
        Verdict::Broken { after, .. } => after == steps && steps < MAX_STEPS,
        Verdict::Kept => false,
    }
}
