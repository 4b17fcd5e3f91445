//! Users and subtrees as they are named, each of them once.
ghost use Rattle.std.specs.Prelude.{◌≡◌, ◌≢◌, map, Err, IfOk, IfErr, MatchResult};
ghost use Rattle.cg_cgroup.specs.Paths.{same_path};
ghost use Rattle.cg_format.specs.Readings.{Reading, IsReading};
ghost use Rattle.cg_cli.specs.Asking.{named_read, IsMet, IsKeptOnce};
ghost use Rattle.cg_cli.specs.Audits.{users_read, paths_read};
ghost use Rattle.cg_cli.specs.Once.{same_user, IsReadOnce};
ghost use Rattle.cg_cli.specs.Strangers.{first_stranger};
ghost use Rattle.cg_faults.specs.declared.fault.CliFault.{CliFault};

use crate::arguments::{UserIds, read_path, read_user};
use crate::reading::read_tree;
use crate::strangers::first_stranger;
use cg_cgroup::path::Path;
use cg_cgroup::user::User;
use cg_faults::fault::CliFault;
use cg_rows::rows::Rows;
use std::alloc::Global;
use std::collections::BTreeSet;

/// What an audit is asked about: users and subtrees, each where it is named first, and a tree.
#[derive(Drop)]
pub struct Named {
    pub users: Vec<User>,
    pub subtrees: Vec<Path>,
    pub tree: Rows,
    /// The uid of the first user of whom the tree says nothing.
    pub stranger: Option<u32>,
}

/// Reads all users, then all subtrees, and then the tree.
pub fn read_named(
    alloc: Global,
    tree: &[u8],
    users: &[UserIds<'_>],
    subtrees: &[&str],
) -> Result<Named, CliFault>
    ensures named { (read : Reading) → IsReading tree.now read → MatchResult result
        (λ named. IsKeptOnce (named_read (map (λ user. (user.uid, user.gids.now)) users.now) (map (λ text. text.now) subtrees.now) read)
        named.users.items named.subtrees.items named.tree)
        (λ fault. IsMet (named_read (map (λ user. (user.uid, user.gids.now)) users.now) (map (λ text. text.now) subtrees.now) read) fault) }
    ensures stranger { IfOk result (λ named. named.stranger ≡ first_stranger named.tree named.users.items) }
{
    let users = users_once(alloc, users)?;
    let subtrees = paths_once(alloc, subtrees)?;
    let tree = read_tree(alloc, tree)?;
    let stranger = first_stranger(alloc, &tree, users.as_slice())?;
    Ok(Named {
        users,
        subtrees,
        tree,
        stranger,
    })
}

/// The users, each where they are named first, or the first fault of one, which takes no memory to find.
pub(crate) fn users_once(alloc: Global, users: &[UserIds<'_>]) -> Result<Vec<User>, CliFault>
    ensures read { MatchResult result
        (λ read. IsReadOnce same_user (users_read (map (λ user. (user.uid, user.gids.now)) users.now)) read.items)
        (λ fault. fault ≢ CliFault.NoMemory → users_read (map (λ user. (user.uid, user.gids.now)) users.now) ≡ Err fault) }
    ensures faults { (fault : CliFault)
        → users_read (map (λ user. (user.uid, user.gids.now)) users.now) ≡ Err fault → result ≡ Err fault }
{
    test_users(users)?;
    let mut seen = BTreeSet::new(alloc);
    let mut read = Vec::new(alloc);
    for user in users {
        let one = read_user(*user)?;
        let is_new = seen.insert((user.uid, user.gids))?;
        if is_new {
            read.push(one)?;
        }
    }
    Ok(read)
}

/// Whether every user can be one.
fn test_users(users: &[UserIds<'_>]) -> Result<(), CliFault>
    ensures faults { (fault : CliFault)
        → users_read (map (λ user. (user.uid, user.gids.now)) users.now) ≡ Err fault → result ≡ Err fault }
    ensures fault { IfErr result (λ fault. users_read (map (λ user. (user.uid, user.gids.now)) users.now) ≡ Err fault) }
{
    for user in users {
        read_user(*user)?;
    }
    Ok(())
}

/// The paths, each where it is named first.
pub(crate) fn paths_once(alloc: Global, texts: &[&str]) -> Result<Vec<Path>, CliFault>
    ensures { MatchResult result
        (λ read. IsReadOnce same_path (paths_read (map (λ text. text.now) texts.now)) read.items)
        (λ fault. fault ≢ CliFault.NoMemory → paths_read (map (λ text. text.now) texts.now) ≡ Err fault) }
{
    let mut seen = BTreeSet::new(alloc);
    let mut read = Vec::new(alloc);
    for text in texts {
        let path = read_path(alloc, text)?;
        let is_new = seen.insert(path.try_clone(alloc)?)?;
        if is_new {
            read.push(path)?;
        }
    }
    Ok(read)
}
