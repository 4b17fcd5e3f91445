//! The checks of subtrees.
use crate::begin::Stopped;
use crate::lent::asked;
use crate::said::answer_said;
use crate::trial::{Ended, Trial};
use cg_cgroup::path::Path;
use cg_cgroup::user::User;
use cg_check::{check, check_all};
use cg_guards::failed::failed_guard;
use cg_model::fault::CheckFault;
use cg_model::hierarchy::Hierarchy;
use std::alloc::Global;

/// `failed_guard UID SUBTREE`
pub fn guarded<H: Hierarchy + Drop>(tree: H, trial: &mut Trial<'_>) -> Ended {
    let alloc = trial.alloc;
    let user = trial.words.user()?;
    let subtree = trial.words.path(alloc)?;
    if subtree.depth() == 0 || tree.get(&subtree, subtree.depth()).is_none() {
        return Err(Stopped::BadWords);
    }
    trial.begin()?;
    let failed = failed_guard(&tree, &user, &subtree);
    answer_said(alloc, false, true, &failed)
}

/// `check UID SUBTREE`
pub fn checked<H: Hierarchy + Drop>(tree: H, trial: &mut Trial<'_>) -> Ended {
    let alloc = trial.alloc;
    let user = trial.words.user()?;
    let subtree = trial.words.path(alloc)?;
    asked(
        trial,
        &tree,
        CheckFault::NoMemory,
        || check(alloc, &tree, &user, &subtree),
    )
}

/// The users and the subtrees of an audit.
fn audited(alloc: Global, words: &[String]) -> Result<(Vec<User>, Vec<Path>), Stopped> {
    let mut users = Vec::new(alloc);
    let mut subtrees = Vec::new(alloc);
    for word in words {
        match word.as_str().parse() {
            Ok(uid) => users.push(User::new(uid).ok_or(Stopped::BadWords)?)?,
            Err(_) => subtrees.push(Path::parse(alloc, word.as_str())?)?,
        }
    }
    Ok((users, subtrees))
}

/// `check_all UID .. SUBTREE ..`
pub fn all_checked<H: Hierarchy + Drop>(tree: H, trial: &mut Trial<'_>) -> Ended {
    let alloc = trial.alloc;
    let (users, subtrees) = audited(alloc, trial.words.rest())?;
    let (users, subtrees) = (users.as_slice(), subtrees.as_slice());
    asked(
        trial,
        &tree,
        CheckFault::NoMemory,
        || check_all(alloc, &tree, users, subtrees),
    )
}
