//! Questions about users and subtrees, each of whom counts once: what they ask of a tree differs, and nothing else.
ghost use Rattle.std.specs.Prelude.{ℕ, List, Option, Result, map};
ghost use Rattle.cg_cgroup.specs.Identity.{Identity};
ghost use Rattle.cg_cgroup.specs.Paths.{Names};
ghost use Rattle.cg_model.specs.States.{State};
ghost use Rattle.cg_format.specs.Readings.{OnText};
ghost use Rattle.cg_cli.specs.Asking.{NamedReports};
ghost use Rattle.cg_cli.specs.Strangers.{IsFirstStranger};
ghost use Rattle.cg_faults.specs.declared.fault.CliFault.{CliFault};

use crate::arguments::UserIds;
use crate::named::read_named;
use cg_cgroup::path::Path;
use cg_cgroup::user::User;
use cg_faults::fault::CliFault;
use cg_model::hierarchy::Hierarchy;
use std::alloc::Global;
use std::io::Write;

/// What is asked about users and subtrees.
pub(crate) trait NamedQuestion {
    /// What may be answered, and written by then.
    ghost answers: { Self → State → List Identity → List Names → Option (List ℕ) → Option (List ℕ) → Result ℕ CliFault → Type 0 };

    /// Writes what is said of them in a tree, and gives the status.
    fn answer<H: Hierarchy + Drop, W: Write>(
        &self,
        alloc: Global,
        tree: &H,
        users: &[User],
        subtrees: &[Path],
        out: &mut W,
    ) -> Result<u8, CliFault>
        ensures { answers self.now (H.state tree.now) users.now subtrees.now (W.contents out.old) (W.contents out.new) result };
}

/// Asks a question of the tree of a text. `stranger` is the uid of the first user of whom the tree says nothing.
pub(crate) fn ask_named<Q: NamedQuestion, W: Write>(
    alloc: Global,
    question: &Q,
    tree: &[u8],
    users: &[UserIds<'_>],
    subtrees: &[&str],
    stranger: &mut Option<u32>,
    out: &mut W,
) -> Result<u8, CliFault>
    ensures report { OnText tree.now (λ read. NamedReports (Q.answers question.now) read
        (map (λ user. (user.uid, user.gids.now)) users.now) (map (λ subtree. subtree.now) subtrees.now)
        (W.contents out.old) (W.contents out.new) result) }
    ensures stranger { IsFirstStranger tree.now (map (λ user. (user.uid, user.gids.now)) users.now) result stranger.new }
{
    let named = read_named(alloc, tree, users, subtrees)?;
    *stranger = named.stranger;
    let (users, subtrees) = (named.users.as_slice(), named.subtrees.as_slice());
    question.answer(alloc, &named.tree, users, subtrees, out)
}
