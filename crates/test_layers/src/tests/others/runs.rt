//! The verdict on runs that begin where something is told of such files, and on those that change what is told.
use crate::tests::others::trees::{done, tree_of};
use crate::tests::runs::trees::verdict_after;
use crate::tests::trees::fixtures::{Owners, copy_of, path};
use cg_indexed::indexed::Indexed;
use cg_model::hierarchy::Hierarchy;
use cg_model::verdict::{Clause, Verdict};
use cg_runs::replay::Replay;
use std::alloc::Global;
use std::test::Fail;

/// What user 1000 does before the run of `/s` begins, what in it, and after which step the limits are broken, if they are.
type Run = (
    &'static [&'static str],
    &'static [&'static str],
    Option<usize>,
);

const IO: &str = "control / +io";

const NO_IO: &str = "control / -io";

const MAX: &str = "set /s io.max max";

const LESS: &str = "set /s io.max 8:0 rbps=1";

const RUNS: [Run; 11] = [
    (&[IO], &[IO, MAX], Some(2)),
    (&[], &["set /s cgroup.freeze 0"], Some(1)),
    (&[IO], &["chmod /s io.max 646", IO], None),
    (&[IO], &["set /s/a cgroup.freeze 1", IO], None),
    (&[IO, MAX], &[MAX, IO], None),
    (&[IO, MAX], &[MAX, LESS, MAX], Some(2)),
    (&[IO, MAX], &["set /s io.weight 100"], Some(1)),
    (&[IO, MAX], &["control / -io +io"], None),
    (&[IO, MAX], &[NO_IO, IO, MAX], Some(1)),
    (
        &[IO, MAX, NO_IO, IO],
        &[IO, "chmod /s io.max 600", IO],
        None,
    ),
    (&[IO, MAX, NO_IO, IO], &[IO, MAX], Some(2)),
];

/// The verdict on a run of `/s`.
fn verdict_of<H: Hierarchy + Drop>(
    alloc: Global,
    tree: H,
    lines: &[&str],
) -> Result<Verdict, Fail> {
    let replay = Replay::start(alloc, tree, path(alloc, "/s")?)?;
    verdict_after(alloc, replay, lines)
}

#[test]
fn limits_are_what_is_told(rt: HostRuntime) -> Result<(), Fail> {
    let alloc = rt.alloc();
    let clause = Clause::Limits;
    for (before, lines, broken) in RUNS {
        let mut tree = tree_of(alloc, Owners::WHOLE)?;
        done(alloc, &mut tree, before)?;
        let indexed = Indexed::from_rows(alloc, copy_of(alloc, &tree)?)?;
        let wanted = match broken {
            Some(after) => Verdict::Broken { after, clause },
            None => Verdict::Kept,
        };
        assert_eq!(rt;
            verdict_of(alloc, tree, lines)?,
            wanted,
            "{before:?} {lines:?}"
        );
        assert_eq!(rt;
            verdict_of(alloc, indexed, lines)?,
            wanted,
            "{before:?} {lines:?}"
        );
    }
    Ok(())
}
