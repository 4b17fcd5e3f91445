//! What holds of every tree text by the format's words alone. The contract of each function is the law; none does anything.
ghost use Rattle.std.specs.Prelude.{◌≡◌, ℕ, true, List, [], is_some};
ghost use Rattle.cg_cgroup.specs.Paths.{Names, IsPath};
ghost use Rattle.cg_cgroup.specs.Numbers.{is_pid};
ghost use Rattle.cg_cgroup.specs.Files.{is_of};
ghost use Rattle.cg_model.specs.States.{State, process_at};
ghost use Rattle.cg_model.specs.WellFormed.{has_row};
ghost use Rattle.cg_format.specs.TextOf.{IsTextOf};
ghost use Rattle.cg_format.specs.TextFaults.{text_faults};
ghost use Rattle.cg_format.specs.Readings.{Reading, IsReading, vocabulary_in};

/// A text is of a state exactly where none of the clauses finds a fault in it, and of one at most.
pub fn texts_are_of_states()
    ensures fault { (bytes : List ℕ) (st : State) → IsTextOf st bytes → text_faults bytes ≡ [] }
    ensures state { (bytes : List ℕ) → text_faults bytes ≡ [] → (st : State) × IsTextOf st bytes }
    ensures one { (bytes : List ℕ) (st other : State) → IsTextOf st bytes → IsTextOf other bytes → st ≡ other }
{}

/// A text is read as one thing: the state that it is of, or the first of its faults.
pub fn texts_are_read()
    ensures some { (bytes : List ℕ) → (tree : Reading) × IsReading bytes tree }
    ensures one { (bytes : List ℕ) (tree other : Reading) → IsReading bytes tree → IsReading bytes other → tree ≡ other }
{}

/// In the state of a text each cgroup stands at a path, each live process has a PID, and the root has controllers alone that the text's format names.
pub fn states_are_named()
    ensures paths { (bytes : List ℕ) (st : State) (path : Names) → IsTextOf st bytes → has_row st path ≡ true → IsPath path }
    ensures pids { (bytes : List ℕ) (st : State) (pid : ℕ) → IsTextOf st bytes → is_some (process_at st pid) ≡ true → is_pid pid ≡ true }
    ensures controllers { (bytes : List ℕ) (st : State) → IsTextOf st bytes → is_of (vocabulary_in bytes) st.controllers ≡ true }
{}
