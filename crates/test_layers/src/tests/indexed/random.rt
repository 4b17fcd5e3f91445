//! Random operations on few paths and PIDs, the same ones each time.
use cg_cgroup::files::{Controller, EntryName, Limit, LimitFile};
use cg_cgroup::memory::NoMemory;
use cg_cgroup::other_file::OtherFile;
use cg_cgroup::path::{Path, PathFault};
use cg_cgroup::process::Pid;
use cg_cgroup::told::FileText;
use cg_cgroup::user::Mode;
use cg_model::changes::{Change, Changes};
use cg_model::operation::Op;
use std::alloc::Global;
use std::test::Fail;
use test_trees::random::Random;

/// The paths that operations are on. Some texts stand between a path's and its children's, and two never are in a tree.
const PATHS: [&str; 18] = [
    "/",
    "/a",
    "/a/b",
    "/a/b/c",
    "/a/b/d",
    "/a/b/c/e",
    "/a/c",
    "/a/b-c",
    "/a-b",
    "/a-b/c",
    "/a0",
    "/ab",
    "/ab/b",
    "/b",
    "/b/a",
    "/b/a/b",
    "/none",
    "/a/none/c",
];

/// How many of these paths operations are on; no operation makes the others.
const USED_PATHS: usize = 16;

/// PIDs of operations are below this.
pub const PIDS: u32 = 24;

/// All these paths.
pub fn paths(alloc: Global) -> Result<Vec<Path>, PathFault> {
    let mut paths = Vec::new(alloc);
    for text in PATHS {
        paths.push(Path::parse(alloc, text)?)?;
    }
    Ok(paths)
}

/// A random one of the paths that operations are on.
fn path(alloc: Global, random: &mut Random) -> Result<Path, PathFault> {
    Path::parse(alloc, random.one_of(&PATHS[..USED_PATHS], "/"))
}

/// A random PID.
fn pid(random: &mut Random) -> Result<Pid, Fail> {
    Ok(Pid::new(random.below(PIDS as u64 - 1) as u32 + 1).ok_or("a PID of 0")?)
}

/// A random limit file.
fn file(random: &mut Random) -> LimitFile {
    random.one_of(&LimitFile::ALL, LimitFile::MaxDepth)
}

/// One of the limit files beyond `LimitFile`: of the core, and of the controllers that are enabled.
fn other_file(random: &mut Random) -> OtherFile {
    let files = [
        OtherFile::Freeze,
        OtherFile::CpuMax,
        OtherFile::CpuWeightNice,
        OtherFile::MemorySwapMax,
    ];
    random.one_of(&files, OtherFile::Freeze)
}

/// A value for such a file, which takes any.
fn set_other(alloc: Global, at: Path, random: &mut Random) -> Result<Op, NoMemory> {
    let file = other_file(random);
    let text = String::from_str(alloc, random.one_of(&["0", "1", "max"], "0"))?;
    let value = FileText { text };
    Ok(Op::SetOther { at, file, value })
}

/// Another mode for a random entry: each class of users loses and gains the right to write.
fn chmod(at: Path, random: &mut Random) -> Op {
    let of_file = EntryName::File(file(random));
    let entries = [
        EntryName::Dir,
        EntryName::Procs,
        EntryName::SubtreeControl,
        of_file,
        EntryName::Other(other_file(random)),
    ];
    let entry = random.one_of(&entries, of_file);
    let mode = random.one_of(&[0o644, 0o664, 0o646, 0o666, 0o755], 0o644);
    let mode = Mode::new(mode).unwrap_or(Mode::FILE);
    Op::Chmod { at, entry, mode }
}

/// A value for a random limit file: mostly small ones, which further cgroups soon reach.
fn set(at: Path, random: &mut Random) -> Op {
    let file = file(random);
    let value = match random.below(10) {
        6.. => Limit::Max,
        most => Limit::At(most + 1),
    };
    Op::Set { at, file, value }
}

/// One to three random changes of what a cgroup enables.
fn control(alloc: Global, at: Path, random: &mut Random) -> Result<Op, PathFault> {
    let mut changes = Changes::new(alloc);
    for _change in 0..=random.below(3) {
        changes.push(Change {
            on: random.below(3) > 0,
            controller: random.one_of(&Controller::IN_FORMAT_2, Controller::Cpu),
        })?;
    }
    Ok(Op::Control { at, changes })
}

/// A random operation.
pub fn operation(alloc: Global, random: &mut Random) -> Result<Op, Fail> {
    let path = path(alloc, random)?;
    Ok(match random.below(18) {
        0..=3 => Op::Mkdir { path },
        4..=5 => Op::Rmdir { path },
        6..=7 => Op::Move {
            pid: pid(random)?,
            to: path,
        },
        8..=10 => control(alloc, path, random)?,
        11 => set(path, random),
        12..=13 => Op::Fork {
            parent: pid(random)?,
            child: pid(random)?,
        },
        14 => Op::Exit { pid: pid(random)? },
        15..=16 => set_other(alloc, path, random)?,
        _ => chmod(path, random),
    })
}
