//! The calls over bytes.
use crate::begin::Stopped;
use crate::reader::Bytewise;
use crate::said::{Said, is_out_of_memory};
use crate::trial::{Ended, Trial};
use crate::words::Words;
use cg_cli::advise::advise_bytes;
use cg_cli::advise_pairs::advise_pairs_bytes;
use cg_cli::advise_settle::advise_settled_bytes;
use cg_cli::arguments::UserIds;
use cg_cli::audit::audit_bytes;
use cg_cli::audit_all::audit_all_bytes;
use cg_cli::audit_pairs::audit_pairs_bytes;
use cg_cli::audit_settle::{audit_all_settled_bytes, audit_settled_bytes};
use cg_cli::check::check_bytes;
use cg_cli::everybody::{Wanted, everybody_bytes};
use cg_cli::explain::explain_bytes;
use cg_cli::explain_pairs::explain_pairs_bytes;
use cg_cli::may::may_bytes;
use cg_cli::pairs::PairIds;
use cg_cli::replay::{replay_bytes, replay_from};
use cg_cli::settle::settle_bytes;
use cg_cli::upgrade::upgrade_bytes;
use cg_everybody::asked::{Asked as Everybody, Members};
use cg_faults::fault::{CliFault, fault_text};
use std::alloc::Global;

/// Room for every report, made before the call: a writer that wants memory is another trial.
const ROOM: usize = 65536;

/// A call that asks of users and subtrees.
#[derive(Clone, Copy)]
enum Asked {
    Check,
    Settle,
    Advise,
    AdviseSettled,
    Explain,
    Audit,
    AuditAll,
    AuditSettled,
    AuditAllSettled,
}

impl Asked {
    /// The call of a name.
    fn named(name: &str) -> Option<Asked> {
        match name {
            "check" => Some(Asked::Check),
            "settle" => Some(Asked::Settle),
            "advise" => Some(Asked::Advise),
            "advise_settled" => Some(Asked::AdviseSettled),
            "explain" => Some(Asked::Explain),
            "audit" => Some(Asked::Audit),
            "audit_all" => Some(Asked::AuditAll),
            "audit_settled" => Some(Asked::AuditSettled),
            "audit_all_settled" => Some(Asked::AuditAllSettled),
            _ => None,
        }
    }
}

/// Users and subtrees, of which `check` and `settle` are asked the first of each.
#[derive(Drop)]
struct Named<'a> {
    users: Vec<UserIds<'a>>,
    subtrees: Vec<&'a str>,
}

impl Named<'_> {
    fn ask(
        &self,
        alloc: Global,
        asked: Asked,
        tree: &[u8],
        out: &mut Vec<u8>,
    ) -> Result<u8, CliFault> {
        let of = &mut None;
        let (users, subtrees) = (self.users.as_slice(), self.subtrees.as_slice());
        match asked {
            Asked::Check => check_bytes(alloc, tree, users[0], subtrees[0], of, out),
            Asked::Settle => settle_bytes(alloc, tree, users[0], subtrees[0], of, out),
            Asked::Advise => advise_bytes(alloc, tree, users, subtrees, of, out),
            Asked::AdviseSettled => advise_settled_bytes(alloc, tree, users, subtrees, of, out),
            Asked::Explain => explain_bytes(alloc, tree, users, subtrees, of, out),
            Asked::Audit => audit_bytes(alloc, tree, users, subtrees, of, out),
            Asked::AuditAll => audit_all_bytes(alloc, tree, users, subtrees, of, out),
            Asked::AuditSettled => audit_settled_bytes(alloc, tree, users, subtrees, of, out),
            Asked::AuditAllSettled => {
                audit_all_settled_bytes(alloc, tree, users, subtrees, of, out)
            }
        }
    }
}

/// A call over bytes, but for its tree.
#[derive(Drop)]
enum Call<'a> {
    May(UserIds<'a>, u32, &'a str),
    Named(Asked, Named<'a>),
    Everybody(Wanted, Vec<&'a str>),
    AdvisePairs(Vec<PairIds<'a>>),
    AuditPairs(Vec<PairIds<'a>>),
    ExplainPairs(Vec<PairIds<'a>>),
    Upgrade,
    ReplayBytes(UserIds<'a>, Option<&'a str>, Vec<u8>),
    ReplayFrom(UserIds<'a>, Option<&'a str>, Vec<u8>),
}

impl Call<'_> {
    fn make(&self, alloc: Global, tree: &[u8], out: &mut Vec<u8>) -> Result<u8, CliFault> {
        match self {
            Call::May(user, pid, to) => may_bytes(alloc, tree, *user, *pid, to, &mut None, out),
            Call::Named(asked, named) => named.ask(alloc, *asked, tree, out),
            Call::Everybody(wanted, subtrees) => {
                let left_out = Everybody {
                    but: &[4000],
                    groups: &[Members {
                        gid: 50,
                        uids: &[4001],
                    }],
                };
                everybody_bytes(alloc, tree, *wanted, &left_out, subtrees.as_slice(), out)
            }
            Call::AdvisePairs(pairs) => advise_pairs_bytes(alloc, tree, pairs.as_slice(), out),
            Call::AuditPairs(pairs) => audit_pairs_bytes(alloc, tree, pairs.as_slice(), out),
            Call::ExplainPairs(pairs) => explain_pairs_bytes(alloc, tree, pairs.as_slice(), out),
            Call::Upgrade => upgrade_bytes(alloc, tree, out),
            Call::ReplayBytes(user, subtree, ops) => {
                replay_bytes(alloc, tree, *user, *subtree, ops.as_slice(), out)
            }
            Call::ReplayFrom(user, subtree, ops) => {
                let mut reader = Bytewise {
                    rest: ops.as_slice(),
                };
                replay_from(alloc, tree, *user, *subtree, &mut reader, out)
            }
        }
    }
}

/// A user without groups.
fn user(uid: u32) -> UserIds<'static> {
    UserIds { uid, gids: &[] }
}

/// Words that are lines, each with its newline; a last one that is `-` takes the newline before it away.
fn lines(alloc: Global, words: &[String]) -> Result<Vec<u8>, Stopped> {
    let mut text = Vec::new(alloc);
    for word in words {
        if word.as_str() == "-" {
            let _ = text.pop();
        } else {
            text.extend_from_slice(word.as_bytes())?;
            text.push(b'\n')?;
        }
    }
    Ok(text)
}

/// The subtree that a word names; `-` names none.
fn watched(word: &str) -> Option<&str> {
    if word == "-" { None } else { Some(word) }
}

/// The users and the subtrees of words: numbers and paths. One of each is there.
fn all_named<'a>(alloc: Global, words: &'a [String]) -> Result<Named<'a>, Stopped> {
    let mut named = Named {
        users: Vec::new(alloc),
        subtrees: Vec::new(alloc),
    };
    for word in words {
        match word.as_str().parse() {
            Ok(uid) => named.users.push(user(uid))?,
            Err(_) => named.subtrees.push(word.as_str())?,
        }
    }
    if named.users.is_empty() || named.subtrees.is_empty() {
        return Err(Stopped::BadWords);
    }
    Ok(named)
}

/// The subtrees of words.
fn all_paths<'a>(alloc: Global, words: &'a [String]) -> Result<Vec<&'a str>, Stopped> {
    let mut paths = Vec::new(alloc);
    for word in words {
        paths.push(word.as_str())?;
    }
    Ok(paths)
}

/// The pairs of words, a uid and a path by turns.
fn paired<'a>(alloc: Global, words: &mut Words<'a>) -> Result<Vec<PairIds<'a>>, Stopped> {
    let mut pairs = Vec::new(alloc);
    while let Ok(uid) = words.id() {
        pairs.push(PairIds {
            user: user(uid),
            subtree: words.next()?,
        })?;
    }
    Ok(pairs)
}

/// What is wanted of everybody, where a call's name says so.
fn wanted_named(name: &str) -> Option<Wanted> {
    match name {
        "everybody" => Some(Wanted::Audit),
        "advise_everybody" => Some(Wanted::Advise),
        "explain_everybody" => Some(Wanted::Explain),
        _ => None,
    }
}

fn call_told<'a>(alloc: Global, words: &mut Words<'a>) -> Result<Call<'a>, Stopped> {
    let name = words.next()?;
    if let Some(asked) = Asked::named(name) {
        return Ok(Call::Named(asked, all_named(alloc, words.rest())?));
    }
    if let Some(wanted) = wanted_named(name) {
        return Ok(Call::Everybody(wanted, all_paths(alloc, words.rest())?));
    }
    match name {
        "may" => Ok(Call::May(user(words.id()?), words.id()?, words.next()?)),
        "advise_pairs" => Ok(Call::AdvisePairs(paired(alloc, words)?)),
        "audit_pairs" => Ok(Call::AuditPairs(paired(alloc, words)?)),
        "explain_pairs" => Ok(Call::ExplainPairs(paired(alloc, words)?)),
        "upgrade" => Ok(Call::Upgrade),
        "replay" => {
            let user = user(words.id()?);
            let subtree = watched(words.next()?);
            Ok(Call::ReplayBytes(user, subtree, lines(alloc, words.rest())?))
        }
        "replay_from" => {
            let user = user(words.id()?);
            let subtree = watched(words.next()?);
            Ok(Call::ReplayFrom(user, subtree, lines(alloc, words.rest())?))
        }
        _ => Err(Stopped::BadWords),
    }
}

/// `bytes CALL WORD ..`. Nothing but bytes is lent, so where memory was wanted what was said is what was written by then.
pub fn reported(tree: &[u8], trial: &mut Trial<'_>) -> Ended {
    let alloc = trial.alloc;
    let call = call_told(alloc, &mut trial.words)?;
    let mut text = Vec::with_capacity(alloc, ROOM)?;
    trial.begin()?;
    let ended = call.make(alloc, tree, &mut text);
    let wanted = is_out_of_memory(&ended);
    match ended {
        Ok(status) => {
            text.extend_from_slice(format!(in alloc; "status {status}\n")?.as_bytes())?;
        }
        Err(CliFault::NoMemory) => {}
        Err(fault) => text.extend_from_slice(fault_text(alloc, &fault)?.as_slice())?,
    }
    Ok(Said {
        wanted,
        kept: true,
        text,
    })
}
