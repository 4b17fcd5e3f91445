//! Laws of the advice, over the definitions alone. The contract of each function is the law; none does anything.
ghost use Rattle.std.specs.Prelude.{◌≡◌, List, Some};
ghost use Rattle.std.specs.List.{All};
ghost use Rattle.cg_cgroup.specs.Paths.{Names};
ghost use Rattle.cg_cgroup.specs.Identity.{Identity};
ghost use Rattle.cg_cgroup.specs.Users.{IsUser};
ghost use Rattle.cg_model.specs.States.{State};
ghost use Rattle.cg_model.specs.WellFormed.{IsWellFormed};
ghost use Rattle.cg_model.specs.Guards.{Guarded, GuardsHold, entry_failures, over_failures, standing};
ghost use Rattle.cg_model.specs.Mends.{Pair, Entrant, advised};
ghost use Rattle.cg_model.specs.Advised.{IsAdvised, AreCountable};
ghost use Rattle.cg_advice.specs.Advised.{all_but, all_but_limits};

/// With the changes made no guard fails for a pair.
pub fn advice_mends_all()
    ensures { (st : State) (pairs : List Pair)
        → All (λ pair. IsUser pair.user → GuardsHold (advised st pairs) pair.user pair.subtree) pairs }
{}

/// No reason's changes can be left out: with all others made the guard fails as before, for whomever it did.
pub fn each_reason_is_needed()
    ensures entries { (st : State) (pairs : List Pair) (user : Identity) (left : Entrant) (guarded : Guarded)
        → standing st left.subtree guarded ≡ Some left.at
        → entry_failures (all_but st pairs left) user left.subtree guarded ≡ entry_failures st user left.subtree guarded }
    ensures limits { (st : State) (pairs : List Pair) (subtree : Names)
        → over_failures (all_but_limits st pairs) subtree ≡ over_failures st subtree }
{}

/// For whichever user and subtree the guards held, they hold with the changes made: the advice lets nobody in.
pub fn advice_opens_nothing()
    ensures { (st : State) (pairs : List Pair) (other : Identity) (path : Names)
        → IsUser other → GuardsHold st other path → GuardsHold (advised st pairs) other path }
{}

/// Nothing differs but the entries that let a user of a pair in, each as it is mended, and the limits that a subtree was
/// over, each raised to what is there.
pub fn advice_changes_no_more()
    ensures { (st : State) (pairs : List Pair) → IsAdvised st (advised st pairs) pairs }
{}

/// The tree with the changes made is well-formed, where no subtree has more cgroups and levels than a limit can say.
pub fn advice_keeps_form()
    ensures { (st : State) (pairs : List Pair)
        → IsWellFormed st → All (λ pair. AreCountable st pair.subtree) pairs → IsWellFormed (advised st pairs) }
{}
