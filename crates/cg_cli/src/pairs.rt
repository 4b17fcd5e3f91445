//! Questions about pairs of a user and a subtree, each as it is named: what they ask of a tree differs, and nothing else.
ghost use Rattle.std.specs.Prelude.{◌≡◌, ◌≢◌, map, Ok, Err, IfOk, IfErr, MatchResult};
ghost use Rattle.cg_advice.specs.Ways.{pair_of};
ghost use Rattle.cg_format.specs.Readings.{Reading, IsReading, OnText};
ghost use Rattle.cg_cli.specs.Advising.{paired};
ghost use Rattle.cg_cli.specs.Asking.{named_read, IsMet, PairsReport};
ghost use Rattle.cg_cli.specs.Audits.{users_read, paths_read};
ghost use Rattle.cg_cli.specs.Pairs.{pair_given};
ghost use Rattle.cg_faults.specs.declared.fault.CliFault.{CliFault};

use crate::arguments::{UserIds, read_path, read_user};
use crate::named_question::NamedQuestion;
use crate::reading::read_tree;
use cg_advice::pair::Pair;
use cg_cgroup::memory::NoMemory;
use cg_cgroup::path::Path;
use cg_cgroup::user::User;
use cg_faults::fault::CliFault;
use cg_rows::rows::Rows;
use std::alloc::Global;
use std::io::Write;

/// A user, and the path of a subtree that is asked about them, as a call is given them.
#[derive(Clone, Copy, Debug, PartialEq, Eq)]
pub struct PairIds<'a> {
    pub user: UserIds<'a>,
    pub subtree: &'a str,
}

/// Asks a question of pairs and the tree of a text: of a user and a subtree at each place, of whom some may be named again.
pub(crate) fn ask_pairs<Q: NamedQuestion, W: Write>(
    alloc: Global,
    question: &Q,
    tree: &[u8],
    pairs: &[PairIds<'_>],
    out: &mut W,
) -> Result<u8, CliFault>
    ensures { OnText tree.now (λ read. PairsReport (Q.answers question.now) read
        (map (λ pair. (pair_given pair).0) pairs.now) (map (λ pair. (pair_given pair).1) pairs.now)
        (W.contents out.old) (W.contents out.new) result) }
{
    let named = read_named(alloc, tree, pairs)?;
    let (users, subtrees) = (named.users.as_slice(), named.subtrees.as_slice());
    question.answer(alloc, &named.tree, users, subtrees, out)
}

/// What pairs name, a user and a subtree at each place, and a tree.
#[derive(Drop)]
struct Named {
    users: Vec<User>,
    subtrees: Vec<Path>,
    tree: Rows,
}

/// Reads all users, then all subtrees, and then the tree.
fn read_named(alloc: Global, tree: &[u8], pairs: &[PairIds<'_>]) -> Result<Named, CliFault>
    ensures { (read : Reading) → IsReading tree.now read → MatchResult result
        (λ named. named_read (map (λ pair. (pair_given pair).0) pairs.now) (map (λ pair. (pair_given pair).1) pairs.now) read
        ≡ Ok (named.users.items, named.subtrees.items, named.tree))
        (λ fault. IsMet (named_read (map (λ pair. (pair_given pair).0) pairs.now) (map (λ pair. (pair_given pair).1) pairs.now) read) fault) }
{
    let users = users_of(alloc, pairs)?;
    let subtrees = subtrees_of(alloc, pairs)?;
    let tree = read_tree(alloc, tree)?;
    Ok(Named {
        users,
        subtrees,
        tree,
    })
}

/// The users, or the first fault of one, which takes no memory to find.
fn users_of(alloc: Global, pairs: &[PairIds<'_>]) -> Result<Vec<User>, CliFault>
    ensures read { MatchResult result
        (λ users. users_read (map (λ pair. (pair_given pair).0) pairs.now) ≡ Ok users.items)
        (λ fault. fault ≢ CliFault.NoMemory → users_read (map (λ pair. (pair_given pair).0) pairs.now) ≡ Err fault) }
    ensures faults { (fault : CliFault)
        → users_read (map (λ pair. (pair_given pair).0) pairs.now) ≡ Err fault → result ≡ Err fault }
{
    test_users(pairs)?;
    let mut users = Vec::new(alloc);
    for pair in pairs {
        users.push(read_user(pair.user)?)?;
    }
    Ok(users)
}

/// Whether every user can be one.
fn test_users(pairs: &[PairIds<'_>]) -> Result<(), CliFault>
    ensures faults { (fault : CliFault)
        → users_read (map (λ pair. (pair_given pair).0) pairs.now) ≡ Err fault → result ≡ Err fault }
    ensures fault { IfErr result (λ fault. users_read (map (λ pair. (pair_given pair).0) pairs.now) ≡ Err fault) }
{
    for pair in pairs {
        read_user(pair.user)?;
    }
    Ok(())
}

fn subtrees_of(alloc: Global, pairs: &[PairIds<'_>]) -> Result<Vec<Path>, CliFault>
    ensures { MatchResult result
        (λ subtrees. paths_read (map (λ pair. (pair_given pair).1) pairs.now) ≡ Ok subtrees.items)
        (λ fault. fault ≢ CliFault.NoMemory → paths_read (map (λ pair. (pair_given pair).1) pairs.now) ≡ Err fault) }
{
    let mut subtrees = Vec::new(alloc);
    for pair in pairs {
        subtrees.push(read_path(alloc, pair.subtree)?)?;
    }
    Ok(subtrees)
}

/// The users and the subtrees that stand at the same place.
pub(crate) fn paired<'a>(
    alloc: Global,
    users: &'a [User],
    subtrees: &'a [Path],
) -> Result<Vec<Pair<'a>>, NoMemory>
    ensures { IfOk result (λ pairs. map pair_of pairs.items ≡ paired users.now subtrees.now) }
{
    let mut pairs = Vec::new(alloc);
    for (place, user) in users.iter().enumerate() {
        if place >= subtrees.len() {
            return Ok(pairs);
        }
        let subtree = &subtrees[place];
        pairs.push(Pair { user, subtree })?;
    }
    Ok(pairs)
}
