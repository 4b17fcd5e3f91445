//! Each clause, at the start where it can be broken there, and at a later step where it can be broken there.
use crate::tests::ops::control;
use crate::tests::runs::trees::{SAME, replay_with, verdict_after};
use crate::tests::trees::fixtures::{Owners, add, path, root_alone};
use cg_cgroup::files::{Controller, ControllerSet};
use cg_cgroup::process::Pid;
use cg_cgroup::user::User;
use cg_model::verdict::{Clause, Verdict};
use cg_rows::rows::Rows;
use cg_runs::replay::Replay;
use std::alloc::Global;
use std::test::Fail;

/// What a run is, a change of the tree, the lines of the run, and the step after which a clause is broken, if one is.
type Run = (
    &'static str,
    (&'static str, &'static str),
    &'static [&'static str],
    Option<(usize, Clause)>,
);

const INSIDE: [&str; 6] = [
    "mkdir /s/b",
    "move 10 /s/b",
    "set /s/a cgroup.max.depth 0",
    "rmdir /s/a",
    "fork 11 12",
    "exit 12",
];

const AND_BACK: [&str; 3] = [
    "set /s memory.max max",
    "set /s memory.max 5",
    "set /s memory.max max",
];

const NO_DESCENDANTS: (&str, &str) = ("value = 2", "value = 0");

const NO_DEPTH: (&str, &str) = ("value = 1", "value = 0");

const GOING: [&str; 4] = ["exit 10", "rmdir /s/a", "rmdir /s", "mkdir /s"];

const FULL: [&str; 3] = ["mkdir /s/b", "mkdir /s/c", "mkdir /s/b/d"];

const LOW: [&str; 1] = ["set /s cgroup.max.descendants 0"];

const RUNS: [Run; 9] = [
    ("nothing is done", SAME, &[], None),
    ("all is done inside", SAME, &INSIDE, None),
    (
        "too many at the start",
        NO_DESCENDANTS,
        &[],
        Some((0, Clause::Descendants)),
    ),
    (
        "too deep at the start",
        NO_DEPTH,
        &["exit 11"],
        Some((0, Clause::Depth)),
    ),
    ("counts at no later step", SAME, &FULL, None),
    ("but limits", SAME, &LOW, Some((1, Clause::Limits))),
    ("it goes", SAME, &GOING, Some((3, Clause::Gone))),
    (
        "a limit changes and back",
        SAME,
        &AND_BACK,
        Some((2, Clause::Limits)),
    ),
    (
        "limit files go",
        SAME,
        &["control / -memory"],
        Some((1, Clause::Limits)),
    ),
];

#[test]
fn a_clause_is_broken_or_none(rt: HostRuntime) -> Result<(), Fail> {
    for (name, change, lines, broken) in RUNS {
        let replay = replay_with(rt.alloc(), change)?;
        let wanted = match broken {
            Some((after, clause)) => Verdict::Broken { after, clause },
            None => Verdict::Kept,
        };
        let verdict = verdict_after(rt.alloc(), replay, lines)?;
        assert_eq!(rt; verdict, wanted, "{name}");
    }
    Ok(())
}

#[test]
fn a_process_leaves_or_enters(rt: HostRuntime) -> Result<(), Fail> {
    let leaving = ["fork 10 20", "move 20 /", "move 20 /s/a"];
    for (number, lines, after) in [(20, leaving.as_slice(), 2), (11, &["move 11 /s/a"], 1)] {
        let clause = Clause::Crossed(Pid::new(number).ok_or("pid")?);
        let replay = replay_with(rt.alloc(), SAME)?;
        let verdict = verdict_after(rt.alloc(), replay, lines)?;
        assert_eq!(rt; verdict, Verdict::Broken { after, clause }, "{number}");
    }
    Ok(())
}

/// A replay of `/s` below a root that is user 1000's and may enable io.
fn below_io(alloc: Global) -> Result<Replay<Rows>, Fail> {
    let io = ControllerSet::none().with(Controller::Io, true);
    let mut tree = root_alone(alloc, io, Owners::WHOLE)?;
    let subtree = path(alloc, "/s")?;
    if !add(alloc, &mut tree, &subtree, Owners::KEPT)? {
        return Err("/s isn't added".into());
    }
    Ok(Replay::start(alloc, tree, subtree)?)
}

#[test]
fn files_of_io_come(rt: HostRuntime) -> Result<(), Fail> {
    let alloc = rt.alloc();
    let user = User::new(1000).ok_or("user")?;
    let mut replay = below_io(alloc)?;
    let op = control(alloc, "/", &[(true, Controller::Io)]).ok_or("operation")?;
    replay.step(alloc, &user, &op)?;
    let wanted = Verdict::Broken {
        after: 1,
        clause: Clause::Limits,
    };
    assert_eq!(rt; replay.verdict(), wanted);
    Ok(())
}
