//! A yes of the program is one over the machine that refuses as little as it takes: where no guard of the exact machine fails, the subtree
//! is contained there too. The contract of each function is the law; none does anything.
#![tactic(auto)]

ghost use Rattle.std.specs.Prelude.{◌≡◌, ◌⊎◌, ◌↔◌, true, List};
ghost use Rattle.cg_cgroup.specs.Paths.{Names};
ghost use Rattle.cg_cgroup.specs.Identity.{Identity};
ghost use Rattle.cg_model.specs.States.{State};
ghost use Rattle.cg_model.specs.WellFormed.{IsWellFormed, has_row};
ghost use Rattle.cg_model.specs.Limits.{limits};
ghost use Rattle.cg_model.specs.Guards.{GuardsHold, IsSubtree};
ghost use Rattle.cg_model.specs.Strangers.{GuardsHoldForAll, OpensGuarded};
ghost use Rattle.cg_model.specs.Steps.{after};
ghost use Rattle.cg_model.specs.declared.operation.Op.{Op};
ghost use Rattle.machine.specs.Machines.{Act, IsContainedAgainst, IsPresent, IsClosed, IsGuarded};
ghost use Rattle.machine.specs.Several.{IsContainedAgainstAll, IsGuardedAgainstAll};
ghost use Rattle.machine_view.specs.Steps.{IsStep};
ghost use Rattle.machine_view.specs.Views.{view};

/// Where the guards of a subtree hold for a user, what its state is on that machine is contained against them.
pub fn one_user()
    ensures { (st : State) (user : Identity) (subtree : Names)
        → IsWellFormed st → IsSubtree st subtree → GuardsHold st user subtree → IsContainedAgainst (view st) user subtree }
{}

/// Where they hold for each of some users, so do the guards of that machine, and it is contained against all of them together.
pub fn several_users()
    ensures guarded { (st : State) (users : List Identity) (subtree : Names)
        → IsWellFormed st → IsSubtree st subtree → GuardsHoldForAll st users subtree
        → IsPresent (view st) subtree × IsGuardedAgainstAll (view st) users subtree }
    ensures held { (st : State) (users : List Identity) (subtree : Names)
        → IsWellFormed st → IsSubtree st subtree → GuardsHoldForAll st users subtree → IsContainedAgainstAll (view st) users subtree }
{}

/// Each step of the exact machine is one of that machine, whose act is let through there, or none.
pub fn steps()
    ensures { (st : State) (user : Identity) (op : Op) → IsWellFormed st
        → (view (after st user op) ≡ view st) ⊎ ((act : Act) × IsStep (view st) user act (view (after st user op))) }
{}

/// The guards of the exact machine hold for a user exactly where those of that machine do.
pub fn guards()
    ensures { (st : State) (user : Identity) (subtree : Names)
        → IsSubtree st subtree → GuardsHold st user subtree ↔ IsGuarded (view st) user subtree }
{}

/// Where the guards of a subtree hold for a user, a step of anybody's that leaves the subtree there, with its limits, and isn't a chmod
/// of something guarded leaves what is guarded out of that user's reach there.
pub fn strangers()
    ensures { (st : State) (user other : Identity) (subtree : Names) (op : Op)
        → IsWellFormed st → IsSubtree st subtree → GuardsHold st user subtree
        → has_row (after st other op) subtree ≡ true → limits (after st other op) subtree ≡ limits st subtree
        → ¬ (OpensGuarded st other op subtree) → IsClosed (view (after st other op)) user subtree }
{}
