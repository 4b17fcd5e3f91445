//! A tree of a text, and the verdict on a list of operation lines.
use cg_cgroup::files::Vocabulary;
use cg_cgroup::path::Path;
use cg_cgroup::user::User;
use cg_lines::lines::read_op_in;
use cg_model::hierarchy::Hierarchy;
use cg_model::outcome::{Outcome, Refusal};
use cg_model::verdict::Verdict;
use cg_rows::rows::Rows;
use cg_runs::replay::Replay;
use cg_text::tree::read_tree;
use std::alloc::Global;
use std::test::Fail;
use test_trees::changes::changed;
use test_trees::texts::OPEN;

/// A replay of `/s` in the open tree with a change.
pub fn replay_with(alloc: Global, change: (&str, &str)) -> Result<Replay<Rows>, Fail> {
    let text = changed(alloc, OPEN, &[change])?;
    let tree = read_tree(alloc, text.as_bytes())?;
    Ok(Replay::start(alloc, tree, Path::parse(alloc, "/s")?)?)
}

/// A replay of `/s` in the tree as it is.
pub fn replay_of(alloc: Global) -> Result<Replay<Rows>, Fail> {
    replay_with(alloc, SAME)
}

/// No change.
pub const SAME: (&str, &str) = ("", "");

/// The verdict after the operations of these lines, which user 1000 makes.
pub fn verdict_after<H: Hierarchy + Drop>(
    alloc: Global,
    mut replay: Replay<H>,
    lines: &[&str],
) -> Result<Verdict, Fail> {
    let user = User::new(1000).ok_or("user")?;
    for line in lines {
        let op = read_op_in(alloc, Vocabulary::Format4, line.as_bytes())?;
        if let Outcome::Refused(Refusal::NoSuchProcess { .. }) = replay.step(alloc, &user, &op)? {
            return Err("a line names a process that isn't there".into());
        }
    }
    Ok(replay.verdict())
}
