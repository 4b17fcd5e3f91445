//! Laws of what is told, over the definitions alone: the contract of each function is the law, and none does anything.
ghost use Rattle.std.specs.Prelude.{◌≡◌, ◌↔◌, true, ◌&&◌, None, Some, List};
ghost use Rattle.std.specs.List.{All, list_all};
ghost use Rattle.cg_cgroup.specs.Paths.{Names};
ghost use Rattle.cg_cgroup.specs.Identity.{Identity};
ghost use Rattle.cg_cgroup.specs.declared.cgroup.Cgroup.{Cgroup};
ghost use Rattle.cg_model.specs.States.{State, row_at};
ghost use Rattle.cg_model.specs.WellFormed.{IsWellFormed};
ghost use Rattle.cg_model.specs.Guards.{GuardsHold, IsSubtree};
ghost use Rattle.cg_second.specs.Judged.{second_row};
ghost use Rattle.cg_explain.specs.FirstRow.{first_row};
ghost use Rattle.cg_explain.specs.Counted.{counts_of, are_within};
ghost use Rattle.cg_explain.specs.SecondRow.{second_row_asked, is_met};
ghost use Rattle.cg_explain.specs.declared.first.Told.{Told};

/// The guards of a subtree hold exactly where the user reaches no entry that is told, and what its own limits count is within
/// them.
pub fn guards_hold_where_no_entry_is_reached()
    ensures { (st : State) (user : Identity) (subtree : Names) (row : Cgroup) → row_at st subtree ≡ Some row
        → GuardsHold st user subtree ↔ (All (λ (told : Told). told.by ≡ None) (first_row st user subtree)
        × (are_within (counts_of st subtree row) ≡ true)) }
{}

/// The second row holds exactly where all is met that is asked, and what the subtree's own limits count is within them.
pub fn second_row_holds_where_all_is_met()
    ensures { (st : State) (users : List Identity) (subtree : Names) (row : Cgroup) → IsWellFormed st → IsSubtree st subtree
        → row_at st subtree ≡ Some row
        → (list_all is_met (second_row_asked st users subtree) && are_within (counts_of st subtree row)) ≡ second_row st users subtree }
{}
