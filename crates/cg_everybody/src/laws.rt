//! Laws of a report on everybody, over the definitions alone. The contract of each function is the law; none does anything.
ghost use Rattle.std.specs.Prelude.{◌≡◌, ◌↔◌, [], true, ◌&&◌, List, Some};
ghost use Rattle.std.specs.List.{All};
ghost use Rattle.cg_cgroup.specs.Identity.{Identity};
ghost use Rattle.cg_cgroup.specs.Paths.{Names};
ghost use Rattle.cg_cgroup.specs.Users.{IsUser};
ghost use Rattle.cg_model.specs.Advised.{AreCountable};
ghost use Rattle.cg_model.specs.Guards.{Guarded, GuardsHold, standing};
ghost use Rattle.cg_model.specs.Limits.{fits_descendants, fits_depth};
ghost use Rattle.cg_model.specs.States.{State};
ghost use Rattle.cg_model.specs.WellFormed.{IsWellFormed};
ghost use Rattle.cg_advice.specs.WayLines.{Spot};
ghost use Rattle.machine_everybody.specs.Everybody.{Everybody, IsAsked};
ghost use Rattle.cg_everybody.specs.Advice.{everybody_advice, everybody_advised, advised_but, advised_but_limits, IsAdvisedToEverybody};
ghost use Rattle.cg_everybody.specs.Everybody.{entrance_lines, excess_lines, everybody_lines, GuardsHoldForEverybody, IsInNoClassIn};

/// There is no line exactly where the guards of each subtree hold for everybody who is asked about.
pub fn no_line_where_all_guards_hold()
    ensures { (st : State) (asked : Everybody) (subtrees : List Names)
        → (everybody_lines st asked subtrees ≡ []) ↔ All (GuardsHoldForEverybody st asked) subtrees }
{}

/// There is no advice exactly where the guards of each subtree hold for everybody who is asked about.
pub fn no_advice_where_all_guards_hold()
    ensures { (st : State) (asked : Everybody) (subtrees : List Names)
        → (everybody_advice st asked subtrees ≡ []) ↔ All (GuardsHoldForEverybody st asked) subtrees }
{}

/// With the changes made the guards of each subtree hold for everybody who is asked about.
pub fn everybody_advice_mends_all()
    ensures { (st : State) (asked : Everybody) (subtrees : List Names)
        → All (GuardsHoldForEverybody (everybody_advised st asked subtrees) asked) subtrees }
{}

/// No entry's changes can be left out, nor those of the limits: with all others made it lets in whomever it did, and each subtree is over its
/// limits that was.
pub fn each_entry_is_needed()
    ensures entries { (st : State) (asked : Everybody) (subtrees : List Names) (left : Spot) (guarded : Guarded)
        → standing st left.0 guarded ≡ Some left.1
        → entrance_lines (advised_but st asked subtrees left) asked left.0 guarded ≡ entrance_lines st asked left.0 guarded }
    ensures limits { (st : State) (asked : Everybody) (subtrees : List Names) (subtree : Names)
        → excess_lines (advised_but_limits st asked subtrees) subtree ≡ excess_lines st subtree }
{}

/// For whichever user and subtree the guards held, they hold with the changes made: the advice lets nobody in.
pub fn everybody_advice_opens_nothing()
    ensures { (st : State) (asked : Everybody) (subtrees : List Names) (other : Identity) (path : Names)
        → IsUser other → GuardsHold st other path → GuardsHold (everybody_advised st asked subtrees) other path }
{}

/// Nothing differs but the entries that let somebody in, each taken back, and the limits that a subtree was over, each raised to what is
/// there.
pub fn everybody_advice_changes_no_more()
    ensures { (st : State) (asked : Everybody) (subtrees : List Names)
        → IsAdvisedToEverybody st (everybody_advised st asked subtrees) asked subtrees }
{}

/// The tree with the changes made is well-formed, where no subtree has more cgroups and levels than a limit can say.
pub fn everybody_advice_keeps_form()
    ensures { (st : State) (asked : Everybody) (subtrees : List Names)
        → IsWellFormed st → All (AreCountable st) subtrees → IsWellFormed (everybody_advised st asked subtrees) }
{}

/// Of a subtree within its limits the guards hold for a user exactly where no class that the user is in is listed.
pub fn guards_hold_for_who_is_in_no_class()
    ensures { (st : State) (asked : Everybody) (user : Identity) (subtree : Names) → IsAsked asked user
        → GuardsHold st user subtree ↔ (IsInNoClassIn st asked subtree user × ((fits_descendants st subtree && fits_depth st subtree) ≡ true)) }
{}
