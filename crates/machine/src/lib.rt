//! What a yes says, over a machine that refuses as little as it takes: the definitions are in `specs/Machines.antt`. The contract of
//! each function is a theorem; none does anything.
#![tactic(auto)]

ghost use Rattle.std.specs.Prelude.{List};
ghost use Rattle.std.specs.List.{Contains};
ghost use Rattle.cg_cgroup.specs.Paths.{Names};
ghost use Rattle.cg_cgroup.specs.Identity.{Identity};
ghost use Rattle.machine.specs.Machines.{Machine, Act, step, Stands, EdgeHolds, IsContainedAgainst, IsPresent, IsGuarded};
ghost use Rattle.machine.specs.Several.{Turn, run_of_all, AreTurnsOf, IsContainedAgainstAll, IsGuardedAgainstAll, StandsThroughout, OthersLeaveClosed};

/// Where the guards of a subtree hold for a user it is contained against them: whatever they do, in whatever order, it stands as it
/// was, and no process crosses its edge.
pub fn one_user()
    ensures { (machine : Machine) (user : Identity) (subtree : Names)
        → IsPresent machine subtree → IsGuarded machine user subtree → IsContainedAgainst machine user subtree }
{}

/// Where the guards of a subtree hold for each of some users it is contained against all of them together, in every order of their
/// acts, and in every state on the way they hold for each again. Where others act too, none of these users is the first to break it,
/// as long as no act of the others leaves something guarded within the reach of one of them.
pub fn several_users()
    ensures held { (machine : Machine) (users : List Identity) (subtree : Names)
        → IsPresent machine subtree → IsGuardedAgainstAll machine users subtree → IsContainedAgainstAll machine users subtree }
    ensures again { (machine : Machine) (users : List Identity) (subtree : Names) (turns : List Turn)
        → IsPresent machine subtree → IsGuardedAgainstAll machine users subtree → AreTurnsOf users turns
        → IsPresent (run_of_all machine turns) subtree × IsGuardedAgainstAll (run_of_all machine turns) users subtree }
    ensures strangers { (machine : Machine) (users : List Identity) (subtree : Names) (turns : List Turn) (user : Identity) (act : Act)
        → IsPresent machine subtree → IsGuardedAgainstAll machine users subtree
        → StandsThroughout machine machine turns subtree → OthersLeaveClosed users machine turns subtree → Contains users user
        → Stands machine (step (run_of_all machine turns) user act) subtree
        × EdgeHolds (run_of_all machine turns) (step (run_of_all machine turns) user act) subtree }
{}
