//! Laws of a step, over the definitions alone. The contract of each function is the law; none does anything.
pub mod operations;

ghost use Rattle.std.specs.Prelude.{◌≡◌, true};
ghost use Rattle.cg_cgroup.specs.Paths.{Names};
ghost use Rattle.cg_cgroup.specs.Identity.{Identity};
ghost use Rattle.cg_model.specs.States.{State};
ghost use Rattle.cg_model.specs.WellFormed.{IsWellFormed, has_row};
ghost use Rattle.cg_model.specs.Steps.{after};
ghost use Rattle.cg_model.specs.declared.operation.Op.{Op};
ghost use Rattle.cg_model.specs.Limits.{limits};
ghost use Rattle.cg_model.specs.Guards.{GuardsHold, IsSubtree};
ghost use Rattle.cg_laws.specs.Guarding.{AreUntouched, IsKept};
ghost use Rattle.cg_model.specs.Strangers.{OpensGuarded};

/// A step that leaves a subtree there, with its limits, leaves each entry on which a guard of it stands as it was, unless
/// it is a chmod of one that is carried out. Whoever makes it, and whether the guards hold against them or not.
pub fn anyones_step()
    ensures { (st : State) (user : Identity) (subtree : Names) (op : Op)
        → IsWellFormed st → IsSubtree st subtree
        → has_row (after st user op) subtree ≡ true → limits (after st user op) subtree ≡ limits st subtree
        → ¬ (OpensGuarded st user op subtree)
        → AreUntouched st (after st user op) subtree }
{}

/// Where the guards of a subtree hold for a user, and a step of anyone leaves it there with its limits and is no chmod of
/// an entry on which a guard stands that is carried out, they hold for the user afterwards. Such a step takes the subtree
/// over neither of its counts; whether a process crosses its edge by it doesn't matter.
pub fn guards_outlast_others_steps()
    ensures { (st : State) (user other : Identity) (subtree : Names) (op : Op)
        → IsWellFormed st → IsSubtree st subtree → GuardsHold st user subtree
        → has_row (after st other op) subtree ≡ true → limits (after st other op) subtree ≡ limits st subtree
        → ¬ (OpensGuarded st other op subtree)
        → GuardsHold (after st other op) user subtree }
{}

/// A step of a user against whom the guards of a subtree hold, accepted or refused, leaves the subtree there with its
/// limits, moves no process over its edge, leaves it within its own limits of descendants and depth, and leaves the
/// guards holding.
pub fn guarded_users_step()
    ensures { (st : State) (user : Identity) (subtree : Names) (op : Op)
        → IsWellFormed st → IsSubtree st subtree → GuardsHold st user subtree
        → IsKept st (after st user op) user subtree }
{}
