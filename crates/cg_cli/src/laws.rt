//! Laws over the definitions alone, whose functions do nothing, and what is read of a tree that is written.
ghost use Rattle.std.specs.Prelude.{◌≡◌, ◌≢◌, ℕ, List, [], Ok, MatchResult};
ghost use Rattle.std.specs.List.{All};
ghost use Rattle.cg_cgroup.specs.Paths.{Names};
ghost use Rattle.cg_cgroup.specs.Identity.{Identity};
ghost use Rattle.cg_model.specs.States.{State};
ghost use Rattle.cg_model.specs.WellFormed.{IsWellFormed};
ghost use Rattle.cg_model.specs.Several.{AreContained};
ghost use Rattle.cg_model.specs.Mends.{Pair, advised};
ghost use Rattle.cg_format.specs.Readings.{Reading};
ghost use Rattle.cg_cli.specs.Containment.{check_report};
ghost use Rattle.cg_cli.specs.Reports.{Report};
ghost use Rattle.cg_cli.specs.Settling.{AskedSays, FurtherSays, IsFurther};
ghost use Rattle.cg_cli.specs.Advising.{AreContainedAsNamed, IsAdvisable, AreNamed};
ghost use Rattle.cg_format.specs.declared.fault.TreeFault.TheVariants.{NoMemory as MemoryFault, TooLong};
ghost use Rattle.cg_print.specs.Carried.{IsCarried, IsTooLong};

use cg_cgroup::files::Vocabulary;
use cg_cgroup::memory::NoMemory;
use cg_model::hierarchy::Hierarchy;
use cg_print::tree::tree_text;
use cg_rows::rows::Rows;
use cg_text::tree::laws::texts_are_of_states;
use cg_text::tree::{TreeFault, read_tree};
use std::alloc::Global;

/// With the changes of the advice for pairs made subtrees are contained against users, all of them together, where each of
/// the users is named with each of the subtrees, and none of those named has more cgroups and levels than a limit can say. So each
/// subtree is contained against all users named with it.
pub fn advised_are_contained()
    ensures as_named { (st : State) (pairs : List Pair)
        → IsWellFormed st → All (IsAdvisable st) pairs → AreContainedAsNamed (advised st pairs) pairs }
    ensures all { (st : State) (pairs : List Pair) (users : List Identity) (subtrees : List Names)
        → IsWellFormed st → All (IsAdvisable st) pairs → AreNamed pairs users subtrees → users ≢ []
        → AreContained (advised st pairs) users subtrees }
{}

/// What `settle` reports is what `check` reports, a fault too, but where `check` ends with the status 2.
pub fn settle_keeps_what_check_says()
    ensures { (tree : Reading) (uid : ℕ) (gids subtree : List ℕ) (said : Report)
        → AskedSays (FurtherSays IsFurther) tree uid gids subtree said
        → (check_report tree uid gids subtree).ending ≢ Ok 2 → said ≡ check_report tree uid gids subtree }
{}

/// The tree that `read_tree` reads of what `tree_text` writes of a tree in the format of a vocabulary. Where a text can carry the tree it is an equal one,
/// unless that text is too long or memory is wanted.
pub fn written_is_read<H: Hierarchy>(
    alloc: Global,
    vocabulary: Vocabulary,
    tree: &H,
) -> Result<Rows, TreeFault>
    ensures again { IsCarried vocabulary (H.state tree.now) → MatchResult result
        (λ rows. rows ≡ H.state tree.now)
        (λ fault. fault ≢ MemoryFault → (fault ≡ TooLong) × IsTooLong vocabulary (H.state tree.now)) }
{
    texts_are_of_states();
    match tree_text(alloc, vocabulary, tree) {
        Ok(text) => read_tree(alloc, text.as_slice()),
        Err(NoMemory) => Err(TreeFault::NoMemory),
    }
}
