//! Tree texts, each with an answer that was worked out by hand, through `read_tree` and `may_bytes` both.
mod cut;
mod files;
mod formats;
mod migrations;
mod order;
mod processes;
mod rows;
mod top;
mod whole;

use crate::tests::users::user;
use cg_cgroup::cgroup::Cgroup;
use cg_cgroup::memory::NoMemory;
use cg_cgroup::path::Path;
use cg_cli::may::may_bytes;
use cg_faults::fault::{CliFault, fault_text};
use cg_model::hierarchy::Hierarchy;
use cg_text::tree::read_tree;
use std::alloc::{AllocError, Global};
use std::process::Abort;
use std::str::from_utf8;
use std::test::Fail;

/// A move by user 1000.
#[derive(Clone, Copy, Debug)]
pub struct Asked<'a> {
    pub gids: &'a [u32],
    pub pid: u32,
    pub to: &'a str,
}

/// A move of process 7 to `/a`.
pub const TO_A: Asked<'static> = Asked {
    gids: &[],
    pid: 7,
    to: "/a",
};

/// What is said of `TO_A` where a text without a fault has `/a` and leaves its `cgroup.procs` to uid 0.
pub const READ: &str = "refused no-access /a cgroup.procs";

/// What the calls say of a text: the report where both read it, the line of the fault where both refuse it and nothing
/// is written, and nothing where they differ.
fn said(alloc: Global, text: &[u8], asked: Asked<'_>) -> Result<Option<Vec<u8>>, NoMemory> {
    let user = user(1000, asked.gids);
    let mut out = Vec::new(alloc);
    let status = may_bytes(alloc, text, user, asked.pid, asked.to, &mut None, &mut out);
    match (read_tree(alloc, text), status) {
        (Ok(_), Ok(status)) => {
            let is_refused = out.as_slice() != b"granted\n".as_slice();
            Ok((status == u8::from(is_refused)).then_some(out))
        }
        (Err(fault), Err(said)) if CliFault::from(fault) == said && out.is_empty() => {
            Ok(Some(fault_text(alloc, &said)?))
        }
        _ => Ok(None),
    }
}

/// Fails where the calls say another line of a text.
pub fn expect_line(
    rt: &impl Abort,
    alloc: Global,
    text: &[u8],
    asked: Asked<'_>,
    line: &str,
) -> Result<(), Fail> {
    let said = said(alloc, text, asked)?.ok_or("the calls differ")?;
    let wanted = format!(in alloc; "{line}\n")?;
    assert_eq!(rt; from_utf8(said.as_slice())?, wanted.as_str());
    Ok(())
}

/// Fails where the calls say another line of one of these texts.
pub fn expect_lines(rt: &impl Abort, alloc: Global, texts: &[(&str, &str)]) -> Result<(), Fail> {
    for (text, line) in texts {
        expect_line(rt, alloc, text.as_bytes(), TO_A, line)?;
    }
    Ok(())
}

/// What a vector writes into the base text, which has a root that enables `cpu` and the cgroup `/a`.
#[derive(Clone, Copy, Debug)]
pub struct Parts<'a> {
    /// Keys of the top table.
    pub top: &'a str,
    /// Further keys of the root.
    pub root: &'a str,
    /// The path of the other cgroup.
    pub path: &'a str,
    /// Further keys of the other cgroup.
    pub keys: &'a str,
    /// What follows.
    pub rest: &'a str,
}

pub const BASE: Parts<'static> = Parts {
    top: "format = 1\ncontrollers = [\"cpu\"]",
    root: "",
    path: "/a",
    keys: "",
    rest: "",
};

/// The base text with what a vector writes into it.
pub fn text_of(alloc: Global, parts: Parts<'_>) -> Result<String, AllocError> {
    let Parts {
        top,
        root,
        path,
        keys,
        rest,
    } = parts;
    format!(in alloc;
        "{top}
[[cgroup]]
path = \"/\"
enabled = [\"cpu\"]
{root}
[[cgroup]]
path = \"{path}\"
{keys}
{rest}"
    )
}

/// Fails where the calls say another line of the base text with these parts.
pub fn expect(rt: &impl Abort, alloc: Global, parts: Parts<'_>, line: &str) -> Result<(), Fail> {
    let text = text_of(alloc, parts)?;
    expect_line(rt, alloc, text.as_bytes(), TO_A, line)
}

/// The same where further keys of `/a` are all that the vector writes.
pub fn expect_keys(rt: &impl Abort, alloc: Global, keys: &str, line: &str) -> Result<(), Fail> {
    expect(rt, alloc, Parts { keys, ..BASE }, line)
}

/// The same where all that it writes follows the base text.
pub fn expect_rest(rt: &impl Abort, alloc: Global, rest: &str, line: &str) -> Result<(), Fail> {
    expect(rt, alloc, Parts { rest, ..BASE }, line)
}

/// The same where all that it writes is the path of the other cgroup.
pub fn expect_path(rt: &impl Abort, alloc: Global, path: &str, line: &str) -> Result<(), Fail> {
    expect(rt, alloc, Parts { path, ..BASE }, line)
}

/// What a row says of one file, whose name is written as a key.
pub fn file_keys(alloc: Global, name: &str, keys: &str) -> Result<String, AllocError> {
    format!(in alloc; "files = {{ {name} = {{ {keys} }} }}")
}

/// The same of the directory, by the name `dir`, or of a file.
pub fn entry_keys(alloc: Global, name: &str, keys: &str) -> Result<String, AllocError> {
    if name == "dir" {
        return format!(in alloc; "dir = {{ {keys} }}");
    }
    file_keys(alloc, name, keys)
}

/// A text `count` times.
pub fn repeated(alloc: Global, text: &str, count: usize) -> Result<String, AllocError> {
    let mut all = String::new(alloc);
    for _ in 0..count {
        all.push_str(text)?;
    }
    Ok(all)
}

/// The cgroup `/a` of the base text with these parts.
pub fn cgroup_of(alloc: Global, parts: Parts<'_>) -> Result<Cgroup, Fail> {
    let text = text_of(alloc, parts)?;
    let tree = read_tree(alloc, text.as_bytes())?;
    let path = Path::parse(alloc, "/a")?;
    Ok(*tree.get(&path, path.depth()).ok_or("no /a")?)
}
