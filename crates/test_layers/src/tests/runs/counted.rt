//! What a replay refuses to begin with, what it counts and where it ends.
use crate::tests::runs::trees::{replay_of, verdict_after};
use cg_cgroup::path::Path;
use cg_cgroup::user::User;
use cg_lines::lines::read_op;
use cg_model::fault::CheckFault;
use cg_model::operation::Op;
use cg_model::outcome::{Outcome, Refusal};
use cg_model::verdict::{Clause, Verdict};
use cg_rows::rows::Rows;
use cg_runs::fault::StepFault;
use cg_runs::replay::{MAX_STEPS, Replay};
use cg_text::tree::read_tree;
use std::alloc::Global;
use std::test::Fail;

const ROOT: &str = "
format = 2
controllers = []

[[cgroup]]
path = \"/\"
";

#[test]
fn what_does_not_start(rt: HostRuntime) -> Result<(), Fail> {
    let alloc = rt.alloc();
    for (path, fault) in [
        ("/", CheckFault::RootSubtree),
        ("/s", CheckFault::NoSuchSubtree),
    ] {
        let tree = read_tree(alloc, ROOT.as_bytes())?;
        let Err(found) = Replay::start(alloc, tree, Path::parse(alloc, path)?) else {
            return Err("it starts".into());
        };
        assert_eq!(rt; found, fault);
    }
    Ok(())
}

#[test]
fn refused_steps_count(rt: HostRuntime) -> Result<(), Fail> {
    let alloc = rt.alloc();
    let lines = ["rmdir /s", "mkdir /x/y", "set /s memory.max 5"];
    let (after, clause) = (3, Clause::Limits);
    assert_eq!(rt;
        verdict_after(alloc, replay_of(alloc)?, &lines)?,
        Verdict::Broken { after, clause }
    );
    Ok(())
}

/// A replay that has made all steps but one, each refused, and kept its subtree.
fn nearly_full(alloc: Global) -> Result<Replay<Rows>, Fail> {
    let user = User::new(1000).ok_or("user")?;
    let refused = read_op(alloc, b"rmdir /")?;
    let mut replay = replay_of(alloc)?;
    for _ in 1..MAX_STEPS {
        refuse(alloc, &mut replay, &user, &refused)?;
    }
    Ok(replay)
}

/// One step that is refused.
fn refuse(alloc: Global, replay: &mut Replay<Rows>, user: &User, op: &Op) -> Result<(), Fail> {
    match replay.step(alloc, user, op)? {
        Outcome::Refused(Refusal::RootCgroup) => Ok(()),
        _ => Err("another outcome".into()),
    }
}

/// One step that is carried out.
fn carry_out(
    alloc: Global,
    replay: &mut Replay<Rows>,
    user: &User,
    op: &Op,
) -> Result<(), StepFault> {
    match replay.step(alloc, user, op)? {
        Outcome::Refused(Refusal::RootCgroup) => Err(StepFault::NoMemory),
        _ => Ok(()),
    }
}

/// A step that breaks the limits: the fault of it, if there is one.
fn break_limits(alloc: Global, replay: &mut Replay<Rows>) -> Result<Option<StepFault>, Fail> {
    let user = User::new(1000).ok_or("user")?;
    let last = read_op(alloc, b"set /s memory.max 5")?;
    Ok(carry_out(alloc, replay, &user, &last).err())
}

#[test]
fn the_last_step(rt: HostRuntime) -> Result<(), Fail> {
    let mut replay = nearly_full(rt.alloc())?;
    assert_eq!(rt; replay.verdict(), Verdict::Kept);
    assert_eq!(rt; break_limits(rt.alloc(), &mut replay)?, None);
    let broken = replay.verdict();
    let (after, clause) = (MAX_STEPS, Clause::Limits);
    assert_eq!(rt; broken, Verdict::Broken { after, clause });
    let fault = break_limits(rt.alloc(), &mut replay)?;
    assert_eq!(rt; fault, Some(StepFault::TooManySteps));
    assert_eq!(rt; replay.verdict(), broken);
    Ok(())
}
