//! A yes against everybody, of whom nothing is known: where each guarded entry is root's, and neither its group nor others write it, no
//! user but root breaks the subtree. The contract of each function is a theorem; none does anything.
#![tactic(auto)]

ghost use Rattle.std.specs.Prelude.{◌≡◌, ◌↔◌, List};
ghost use Rattle.std.specs.List.{AllByRecursion};
ghost use Rattle.cg_cgroup.specs.Paths.{Names};
ghost use Rattle.cg_cgroup.specs.Identity.{Identity};
ghost use Rattle.cg_cgroup.specs.Users.{reaches};
ghost use Rattle.cg_cgroup.specs.declared.user.Entry.{Entry};
ghost use Rattle.machine.specs.Machines.{Machine, Fits, IsPresent, IsGuarded};
ghost use Rattle.machine.specs.Several.{Turn, run_of_all, AreTurnsOf, IsContainedAgainstAll};
ghost use Rattle.machine_everybody.specs.Everybody.{Everybody, IsAsked, entry_class, lets_class_in, IsGuardedAgainstEverybody, IsInNoClass, AreInNoClass};

/// Where what is guarded lets nobody in who is asked about, the subtree is contained against all users of every list of these, of whatever
/// uids but root's and those that are left out, and of whatever groups but listed ones of which they are no members; in every order of their
/// acts, and in every state on the way nobody is let in. That is so exactly where the guards hold for everybody who is asked about.
pub fn everybody()
    ensures held { (machine : Machine) (asked : Everybody) (users : List Identity) (subtree : Names)
        → IsPresent machine subtree → IsGuardedAgainstEverybody machine asked subtree → AllByRecursion (IsAsked asked) users
        → IsContainedAgainstAll machine users subtree }
    ensures again { (machine : Machine) (asked : Everybody) (users : List Identity) (subtree : Names) (turns : List Turn)
        → IsPresent machine subtree → IsGuardedAgainstEverybody machine asked subtree → AllByRecursion (IsAsked asked) users
        → AreTurnsOf users turns
        → IsPresent (run_of_all machine turns) subtree × IsGuardedAgainstEverybody (run_of_all machine turns) asked subtree }
    ensures exactly { (machine : Machine) (asked : Everybody) (subtree : Names)
        → IsGuardedAgainstEverybody machine asked subtree ↔ ((user : Identity) → IsAsked asked user → IsGuarded machine user subtree) }
{}

/// A user reaches an entry exactly where it lets their class in. So a subtree that is within its limits is contained against all users of
/// every list none of whom is in a class that something guarded lets in.
pub fn classes()
    ensures reached { (asked : Everybody) (user : Identity) (entry : Entry) → IsAsked asked user
        → reaches user entry ≡ lets_class_in asked entry (entry_class user entry) }
    ensures unlisted { (machine : Machine) (asked : Everybody) (users : List Identity) (subtree : Names)
        → IsPresent machine subtree → Fits machine subtree → AreInNoClass machine asked subtree users
        → IsContainedAgainstAll machine users subtree }
    ensures listed { (machine : Machine) (asked : Everybody) (user : Identity) (subtree : Names) → IsAsked asked user → Fits machine subtree
        → IsInNoClass machine asked subtree user ↔ IsGuarded machine user subtree }
{}
