//! Laws of runs, over the definitions alone. The contract of each function is the law; none does anything.
ghost use Rattle.std.specs.Prelude.{List, [], ◌∷◌, ◌++◌};
ghost use Rattle.cg_cgroup.specs.Identity.{Identity};
ghost use Rattle.cg_model.specs.States.{State};
ghost use Rattle.cg_model.specs.Steps.{Deed};
ghost use Rattle.cg_model.specs.declared.operation.Op.{Op};
ghost use Rattle.cg_model.specs.Replays.{Progress, stepped};
ghost use Rattle.cg_runs.specs.Replays.{IsRunOf};

/// A step of a replay comes to where the run with that deed more comes to, and to the verdict on it.
pub fn replay_follows_its_run()
    ensures { (run : Progress) (start : State) (deeds : List Deed) (user : Identity) (op : Op)
        → IsRunOf run start deeds → IsRunOf (stepped run user op) start (deeds ++ (user, op) ∷ []) }
{}
