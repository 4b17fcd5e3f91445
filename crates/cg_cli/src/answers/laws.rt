//! Laws of what is known of several users, over the definitions alone: the contract of each function is the law, and none does
//! anything.
ghost use Rattle.std.specs.Prelude.{◌≢◌, ℕ, List, [], ◌∷◌};
ghost use Rattle.cg_cgroup.specs.Paths.{Names};
ghost use Rattle.cg_cgroup.specs.Identity.{Identity};
ghost use Rattle.cg_model.specs.States.{State};
ghost use Rattle.cg_model.specs.WellFormed.{IsWellFormed};
ghost use Rattle.cg_model.specs.Guards.{IsSubtree};
ghost use Rattle.cg_model.specs.declared.answer.Answer.{Answer};
ghost use Rattle.cg_second.specs.SecondRow.{AreSettled};
ghost use Rattle.cg_cli.specs.Audited.{AreKnown};
ghost use Rattle.cg_cli.specs.FurtherPairs.{not_listed};

/// Whatever is known of some users with a subtree: against those with whom it isn't listed it is held over every run of theirs,
/// in whatever order they act, and in every state on the way their second row holds again.
pub fn unlisted_are_settled()
    ensures { (st : State) (users : List Identity) (subtree : Names) (found : ℕ → Answer)
        → IsWellFormed st → IsSubtree st subtree → AreKnown st users subtree found → not_listed found users ≢ []
        → AreSettled st (not_listed found users) (subtree ∷ []) }
{}
