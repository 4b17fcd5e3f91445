//! What a terminal is waited for.
ghost use Rattle.std.specs.Prelude.{◌≡◌, IfOk};
ghost use Rattle.std.specs.Option.{option_map, option_copied};
ghost use Rattle.cg_help.specs.Waiting.{tree_words, tree_awaited, awaited_of, awaited, waiting_line};

use arguments::request::{Request, Sources};
use cg_cgroup::memory::NoMemory;
use std::alloc::Global;
use text_places::shown::indented;

const TREE: &str =
    "the tree is read from this terminal: end it with Ctrl-D, or name a file with --tree";

const PAIRS: &str =
    "the pairs are read from this terminal: end them with Ctrl-D, or name a file with --pairs";

const SUBTREES: &str =
    "the subtrees are read from this terminal: end them with Ctrl-D, or name a file with --subtrees";

const OPERATIONS: &str =
    "the operations are read from this terminal: end them with Ctrl-D, or name a file with --ops";

/// The line that says what a request reads from standard input, where that is a terminal; no bytes where it reads files alone.
pub fn waiting_line(alloc: Global, request: &Request<'_>) -> Result<Vec<u8>, NoMemory>
    ensures { IfOk result (λ line. line.items ≡ waiting_line request.now) }
{
    match awaited(request) {
        Some(said) => Ok(indented(alloc, said)?),
        None => Ok(Vec::new(alloc)),
    }
}

/// What a request reads from standard input, in words.
fn awaited(request: &Request<'_>) -> Option<&'static str>
    ensures { option_copied result ≡ awaited request.now }
{
    match request {
        Request::Help(_) => None,
        Request::May(asked) => tree_awaited(asked.tree),
        Request::Check(asked) | Request::Settle(asked) => tree_awaited(asked.tree),
        Request::Audit(asked) => tree_awaited(asked.tree),
        Request::Everybody(asked) => tree_awaited(asked.tree),
        Request::Explain(asked) => tree_awaited(asked.tree),
        Request::Advise(asked) => tree_awaited(asked.tree),
        Request::AdvisePairs(asked) | Request::AuditPairs(asked) | Request::ExplainPairs(asked) =>
            awaited_of(asked.sources, PAIRS),
        Request::Subtrees(asked) => awaited_of(asked.sources, SUBTREES),
        Request::Replay(asked) => awaited_of(asked.sources, OPERATIONS),
        Request::Upgrade(asked) => tree_awaited(asked.tree),
    }
}

/// That the tree is read, where no file is named.
fn tree_awaited(file: Option<&str>) -> Option<&'static str>
    ensures { option_copied result ≡ tree_awaited file.entry }
{
    match file {
        Some(_) => None,
        None => Some(TREE),
    }
}

/// What is read of a tree and another text, of which this is said.
fn awaited_of(sources: Sources<'_>, said: &'static str) -> Option<&'static str>
    ensures { option_copied result ≡ awaited_of sources.entry said.now }
{
    match sources {
        Sources::Files(..) => None,
        Sources::TreeGiven(_) => Some(TREE),
        Sources::OtherGiven(_) => Some(said),
    }
}
