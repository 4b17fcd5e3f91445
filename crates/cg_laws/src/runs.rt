//! Laws of runs, over the definitions alone. The contract of each function is the law; none does anything.
ghost use Rattle.std.specs.Prelude.{◌≡◌, ◌≢◌, ◌↔◌, ◌⊎◌, ℕ, true, List, []};
ghost use Rattle.cg_cgroup.specs.Paths.{Names};
ghost use Rattle.cg_cgroup.specs.Identity.{Identity};
ghost use Rattle.cg_model.specs.States.{State};
ghost use Rattle.cg_model.specs.WellFormed.{IsWellFormed, has_row};
ghost use Rattle.cg_model.specs.Steps.{Deed, after_all};
ghost use Rattle.cg_model.specs.declared.operation.Op.{Op};
ghost use Rattle.cg_model.specs.Guards.{GuardsHold, IsSubtree};
ghost use Rattle.cg_model.specs.Verdicts.{verdict};
ghost use Rattle.cg_model.specs.Held.{IsHeld, by_user, IsContained, AreBy};
ghost use Rattle.cg_model.specs.Throughout.{IsHeldThroughout};
ghost use Rattle.cg_model.specs.Strangers.{GuardsHoldForAll, OnlyTheseOpen, IsOfStranger};
ghost use Rattle.cg_model.specs.declared.verdict.Clause.{Clause};
ghost use Rattle.cg_model.specs.declared.verdict.Clause.TheVariants.{Descendants, Depth};
ghost use Rattle.cg_model.specs.declared.verdict.Verdict.TheVariants.{Broken};

/// The verdict on a run is kept exactly where at the start and after each step the subtree is there, its limits are those
/// of the start and both its counts are within them, and no step takes a process over its edge. `IsHeldThroughout` says it
/// of the run's states one by one, with no loop over steps and no order of clauses. So a subtree is contained against a
/// user exactly where this is so over every list of their operations.
pub fn held_is_every_state_and_step()
    ensures held { (st : State) (deeds : List Deed) (subtree : Names)
        → IsHeld st deeds subtree ↔ IsHeldThroughout st deeds subtree }
    ensures contained { (st : State) (user : Identity) (subtree : Names)
        → IsContained st user subtree ↔ ((ops : List Op) → IsHeldThroughout st (by_user user ops) subtree) }
{}

/// Where the guards of a subtree hold for a user, it is contained against them: whatever they do, in whatever order, no
/// step of theirs breaks it.
pub fn guarded_is_contained()
    ensures { (st : State) (user : Identity) (subtree : Names)
        → IsWellFormed st → IsSubtree st subtree → GuardsHold st user subtree → IsContained st user subtree }
{}

/// Where the guards of a subtree hold for each of some users, it is held over every run of theirs, in whatever order
/// they act, and in every state of such a run it is there and the guards hold for each of them again.
pub fn guarded_for_several()
    ensures held { (st : State) (users : List Identity) (subtree : Names) (deeds : List Deed)
        → IsWellFormed st → IsSubtree st subtree → users ≢ [] → GuardsHoldForAll st users subtree → AreBy users deeds
        → IsHeld st deeds subtree }
    ensures again { (st : State) (users : List Identity) (subtree : Names) (deeds : List Deed)
        → IsWellFormed st → IsSubtree st subtree → GuardsHoldForAll st users subtree → AreBy users deeds
        → IsSubtree (after_all st deeds) subtree × GuardsHoldForAll (after_all st deeds) users subtree }
{}

/// Where the guards of a subtree hold for each of some users, the first to break it is another user, in every run of
/// whatever users in which these alone carry out a chmod of an entry on which a guard stands.
pub fn first_break_is_of_stranger()
    ensures { (st : State) (users : List Identity) (subtree : Names) (deeds : List Deed) (steps : ℕ) (clause : Clause)
        → IsWellFormed st → IsSubtree st subtree → users ≢ [] → GuardsHoldForAll st users subtree
        → OnlyTheseOpen users st deeds subtree → verdict st deeds subtree ≡ Broken steps clause
        → IsOfStranger users deeds steps }
{}

/// More descendants, or levels of them, than a subtree's own limits allow break it at the start alone: a mkdir meets
/// those limits, and another value of one breaks the limits first. At the start nothing else breaks one that is there.
pub fn counts_break_at_start()
    ensures descendants { (st : State) (subtree : Names) (deeds : List Deed) (steps : ℕ)
        → verdict st deeds subtree ≡ Broken steps Descendants → steps ≡ 0 }
    ensures depth { (st : State) (subtree : Names) (deeds : List Deed) (steps : ℕ)
        → verdict st deeds subtree ≡ Broken steps Depth → steps ≡ 0 }
    ensures alone { (st : State) (subtree : Names) (deeds : List Deed) (clause : Clause)
        → has_row st subtree ≡ true → verdict st deeds subtree ≡ Broken 0 clause
        → (clause ≡ Descendants) ⊎ (clause ≡ Depth) }
{}
