//! Laws of the tries, over the definitions alone. The contract of each function is the law; none does anything.
ghost use Rattle.std.specs.Prelude.{◌≡◌, ◌<◌, ◌^◌, ℕ, true, false, length, Some};
ghost use Rattle.cg_cgroup.specs.Paths.{Names};
ghost use Rattle.cg_cgroup.specs.Files.{format_2_controllers, is_of};
ghost use Rattle.cg_cgroup.specs.declared.files.Vocabulary.TheVariants.{Format2};
ghost use Rattle.cg_model.specs.States.{State, paths_of};
ghost use Rattle.cg_model.specs.WellFormed.{has_row};
ghost use Rattle.cg_model.specs.Tries.{told_controllers, probe, free_probe};

/// A probe that is free isn't there, and every probe of a lesser number is. In a tree of fewer than 2^64 cgroups one is
/// always found: one number more is asked than there are cgroups.
pub fn free_probe_is_least()
    ensures found { (st : State) (ancestor : Names)
        → length (paths_of st) < 2 ^ 64 → (number : ℕ) × (free_probe st ancestor ≡ Some number) }
    ensures free { (st : State) (ancestor : Names) (number : ℕ)
        → free_probe st ancestor ≡ Some number → has_row st (probe ancestor number) ≡ false }
    ensures least { (st : State) (ancestor : Names) (number lesser : ℕ)
        → free_probe st ancestor ≡ Some number → lesser < number → has_row st (probe ancestor lesser) ≡ true }
{}

/// Where the root has no other controllers than those that bring a `LimitFile`, these are told of, in the same order.
pub fn told_as_in_format_2()
    ensures { (st : State) → is_of Format2 st.controllers ≡ true → told_controllers st ≡ format_2_controllers }
{}
