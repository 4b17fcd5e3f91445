//! A subtree that is contained against one user, and broken by another who wasn't asked about.
use cg_cgroup::path::Path;
use cg_cgroup::user::User;
use cg_check::check_all;
use cg_lines::lines::read_op;
use cg_model::answer::AllAnswer;
use cg_model::outcome::{Outcome, Refusal};
use cg_model::verdict::{Clause, Verdict};
use cg_rows::rows::Rows;
use cg_runs::replay::Replay;
use cg_text::tree::read_tree;
use std::alloc::Global;
use std::test::Fail;

/// User 1000 owns the root's directory.
const PARENT_DIRECTORY: &[u8] = b"
format = 1
controllers = []
[[cgroup]]
path = \"/\"
dir = { uid = 1000 }
[[cgroup]]
path = \"/c0\"
";

/// Whether `/c0` is contained against user 1001.
fn is_contained(alloc: Global) -> Result<bool, Fail> {
    let tree = read_tree(alloc, PARENT_DIRECTORY)?;
    let user = User::new(1001).ok_or("user")?;
    let subtree = Path::parse(alloc, "/c0")?;
    let answer = check_all(alloc, &tree, &[user], &[subtree])?;
    Ok(matches!(answer, AllAnswer::Contained))
}

fn watched(alloc: Global) -> Result<Replay<Rows>, Fail> {
    let tree = read_tree(alloc, PARENT_DIRECTORY)?;
    Ok(Replay::start(alloc, tree, Path::parse(alloc, "/c0")?)?)
}

/// Whether a user removes `/c0`.
fn removes(alloc: Global, replay: &mut Replay<Rows>, uid: u32) -> Result<bool, Fail> {
    let user = User::new(uid).ok_or("user")?;
    let op = read_op(alloc, b"rmdir /c0")?;
    match replay.step(alloc, &user, &op)? {
        Outcome::Done => Ok(true),
        Outcome::Refused(Refusal::NoAccess { .. }) => Ok(false),
        Outcome::Refused(_) => Err("another refusal".into()),
    }
}

#[test]
fn a_stranger_breaks_what_is_contained(rt: HostRuntime) -> Result<(), Fail> {
    assert!(rt; is_contained(rt.alloc())?);
    let mut replay = watched(rt.alloc())?;
    assert!(rt; !removes(rt.alloc(), &mut replay, 1001)?);
    assert_eq!(rt; replay.verdict(), Verdict::Kept);
    assert!(rt; removes(rt.alloc(), &mut replay, 1000)?);
    let (after, clause) = (2, Clause::Gone);
    assert_eq!(rt; replay.verdict(), Verdict::Broken { after, clause });
    Ok(())
}
