//! Which machine a tree text tells of, and that the state of a text is one that it tells of. The definitions are in
//! `specs/Telling.antt`. The contract of each function is a law; none does anything.
#![tactic(auto)]

ghost use Rattle.std.specs.Prelude.{◌≡◌, ℕ, List, count_by};
ghost use Rattle.cg_cgroup.specs.Paths.{Names, same_path};
ghost use Rattle.cg_model.specs.States.{State};
ghost use Rattle.cg_format.specs.TextOf.{IsTextOf};
ghost use Rattle.machine.specs.Machines.{Machine, File};
ghost use Rattle.machine_view.specs.Views.{view};
ghost use Rattle.machine_text.specs.Telling.{TextTells};

/// A text of a state tells of what that state is on the machine.
pub fn states_are_told()
    ensures { (text : List ℕ) (st : State) → IsTextOf st text → TextTells text (view st) }
{}

/// A text tells of one machine at most: of the same cgroups, files and processes.
pub fn one_machine()
    ensures paths { (text : List ℕ) (one other : Machine) (path : Names) → TextTells text one → TextTells text other
        → count_by (same_path path) one.paths ≡ count_by (same_path path) other.paths }
    ensures files { (text : List ℕ) (one other : Machine) (path : Names) (file : File) → TextTells text one → TextTells text other
        → one.inode path file ≡ other.inode path file }
    ensures places { (text : List ℕ) (one other : Machine) (pid : ℕ) → TextTells text one → TextTells text other
        → one.cgroup pid ≡ other.cgroup pid }
{}
