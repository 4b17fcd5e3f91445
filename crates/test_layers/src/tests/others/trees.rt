//! A tree with such files, what is done to it, and what it says of them.
use crate::tests::trees::fixtures::{Owners, add, path, root_alone};
use cg_cgroup::files::{Controller, ControllerSet, EntryName, Vocabulary};
use cg_cgroup::other_file::OtherFile;
use cg_cgroup::told::ToldFile;
use cg_cgroup::user::{Entry, User};
use cg_lines::lines::read_op_in;
use cg_lines::outcome::outcome_text;
use cg_model::files::{entry_at, told_at};
use cg_model::hierarchy::Hierarchy;
use cg_ops::apply;
use cg_rows::rows::Rows;
use std::alloc::{AllocError, Global};
use std::test::Fail;

/// `/s` of these owners, and `/s/a`, which is user 1000's, below a root where that user may enable io and memory.
pub fn tree_of(alloc: Global, owners: Owners) -> Result<Rows, Fail> {
    let io = ControllerSet::none().with(Controller::Io, true);
    let both = io.with(Controller::Memory, true);
    let at_root = Owners {
        subtree_control: 1000,
        ..Owners::KEPT
    };
    let mut tree = root_alone(alloc, both, at_root)?;
    for (text, owners) in [("/s", owners), ("/s/a", Owners::WHOLE)] {
        if !add(alloc, &mut tree, &path(alloc, text)?, owners)? {
            return Err("a cgroup isn't added".into());
        }
    }
    Ok(tree)
}

/// Carries out the operation of a line of a user without groups. The line of its outcome, with its newline.
pub fn outcome_of<H: Hierarchy>(
    alloc: Global,
    tree: &mut H,
    uid: u32,
    line: &str,
) -> Result<Vec<u8>, Fail> {
    let user = User::new(uid).ok_or("uid")?;
    let op = read_op_in(alloc, Vocabulary::Format4, line.as_bytes())?;
    let outcome = apply(alloc, tree, &user, &op)?;
    Ok(outcome_text(alloc, &op, &outcome)?)
}

/// Carries out the operations of lines of user 1000, none of which is refused.
pub fn done<H: Hierarchy>(alloc: Global, tree: &mut H, lines: &[&str]) -> Result<(), Fail> {
    for line in lines {
        if outcome_of(alloc, tree, 1000, line)?.as_slice() != b"ok\n".as_slice() {
            return Err("a line is refused".into());
        }
    }
    Ok(())
}

/// What a tree says of a file of a cgroup: its owner, group and mode, and the value that is told.
pub fn said_of<H: Hierarchy>(
    alloc: Global,
    tree: &H,
    at: &str,
    name: &str,
) -> Result<String, Fail> {
    let at = path(alloc, at)?;
    let file = OtherFile::from_name(name).ok_or("no file's name")?;
    let Some(entry) = entry_at(tree, &at, at.depth(), EntryName::Other(file)) else {
        return Ok(String::from_str(alloc, "not there")?);
    };
    let value = value_of(told_at(tree, &at, at.depth(), file));
    Ok(shown(alloc, &entry, value)?)
}

fn shown(alloc: Global, entry: &Entry, value: &str) -> Result<String, AllocError> {
    let (uid, gid, mode) = (entry.uid, entry.gid, entry.mode);
    format!(in alloc; "{uid}:{gid} {mode:o} {value}")
}

/// The value that is told of a file, or that it stays as it is.
fn value_of(told: Option<&ToldFile>) -> &str {
    let Some(told) = told else {
        return "as it is";
    };
    match &told.value {
        Some(value) => &value.text,
        None => "as it is",
    }
}
