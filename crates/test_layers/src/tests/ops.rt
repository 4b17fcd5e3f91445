//! Operations, of texts and numbers; none where one of these isn't a path, a PID or a mode.
use cg_cgroup::files::{Controller, EntryName, Limit, LimitFile};
use cg_cgroup::path::Path;
use cg_cgroup::process::Pid;
use cg_cgroup::user::Mode;
use cg_model::changes::{Change, Changes};
use cg_model::operation::Op;
use std::alloc::Global;

pub fn moved(alloc: Global, number: u32, to: &str) -> Option<Op> {
    Some(Op::Move {
        pid: Pid::new(number)?,
        to: Path::parse(alloc, to).ok()?,
    })
}

/// A control of these changes, `true` for `+`.
pub fn control(alloc: Global, at: &str, words: &[(bool, Controller)]) -> Option<Op> {
    let mut changes = Changes::new(alloc);
    for (on, controller) in words {
        let change = Change {
            on: *on,
            controller: *controller,
        };
        changes.push(change).ok()?;
    }
    Some(Op::Control {
        at: Path::parse(alloc, at).ok()?,
        changes,
    })
}

pub fn mkdir(alloc: Global, path: &str) -> Option<Op> {
    Some(Op::Mkdir {
        path: Path::parse(alloc, path).ok()?,
    })
}

pub fn rmdir(alloc: Global, path: &str) -> Option<Op> {
    Some(Op::Rmdir {
        path: Path::parse(alloc, path).ok()?,
    })
}

pub fn set(alloc: Global, at: &str, file: LimitFile, value: Limit) -> Option<Op> {
    Some(Op::Set {
        at: Path::parse(alloc, at).ok()?,
        file,
        value,
    })
}

pub fn fork(parent: u32, child: u32) -> Option<Op> {
    Some(Op::Fork {
        parent: Pid::new(parent)?,
        child: Pid::new(child)?,
    })
}

pub fn exit(number: u32) -> Option<Op> {
    Some(Op::Exit {
        pid: Pid::new(number)?,
    })
}

pub fn chmod(alloc: Global, at: &str, entry: EntryName, mode: u16) -> Option<Op> {
    Some(Op::Chmod {
        at: Path::parse(alloc, at).ok()?,
        entry,
        mode: Mode::new(mode)?,
    })
}
