//! What holds of every tree that is written. The contract of each function is the law; none does anything.
ghost use Rattle.std.specs.Prelude.{◌≡◌, ◌≤◌, ℕ, List, length, Some};
ghost use Rattle.cg_cgroup.specs.declared.files.Vocabulary.{Vocabulary};
ghost use Rattle.cg_model.specs.States.{State};
ghost use Rattle.cg_format.specs.Readings.{vocabulary_in};
ghost use Rattle.cg_format.specs.TreeTexts.{longest_text, document_of};
ghost use Rattle.cg_format.specs.TextOf.{IsTextOf};
ghost use Rattle.cg_print.specs.Carried.{IsKept, IsCarried};
ghost use Rattle.cg_print.specs.Documents.{tree_document, IsSpelled};

/// A tree has one text in each of the two formats, so what is written of it there is always the same bytes.
pub fn texts_are_one()
    ensures { (vocabulary : Vocabulary) (st : State) (text other : List ℕ) → IsSpelled vocabulary st text → IsSpelled vocabulary st other
        → text ≡ other }
{}

/// A text of the document of a tree that is kept has that tree's state, where a text can carry it and isn't too long.
pub fn texts_are_of_their_trees()
    ensures { (text : List ℕ) (vocabulary : Vocabulary) (st : State) → document_of text ≡ Some (tree_document vocabulary st)
        → IsKept vocabulary st → IsCarried vocabulary st → length text ≤ longest_text text → IsTextOf st text }
{}

/// What a text says can be carried by a text that is written in its vocabulary: no more cgroups and processes than that may have,
/// no controller of the root that it doesn't name, nothing told of further limit files that it can't say, root's with mode 0o644 where
/// nothing is told of them, and no PID used but those of its processes.
pub fn read_trees_are_carried()
    ensures { (text : List ℕ) (st : State) → IsTextOf st text → IsCarried (vocabulary_in text) st }
{}
