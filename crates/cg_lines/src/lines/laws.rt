//! What holds of operations and their lines, at each vocabulary.
ghost use Rattle.std.specs.Prelude.{◌≡◌, ◌↔◌, ◌≤◌, ℕ, List, length, true, Some};
ghost use Rattle.cg_cgroup.specs.Files.{is_known};
ghost use Rattle.cg_cgroup.specs.declared.files.Controller.{Controller};
ghost use Rattle.cg_cgroup.specs.declared.files.Vocabulary.{Vocabulary};
ghost use Rattle.cg_model.specs.declared.operation.Op.{Op};
ghost use Rattle.cg_lines.specs.OperationLines.{spelling, IsInRange, HasLine, HaveLines};
ghost use Rattle.cg_lines.specs.LineLengths.{HasFewChanges};
ghost use Rattle.cg_lines.specs.LineReading.{operation_at};

/// An operation has one line, and no two operations have the same.
pub fn one_operation()
    ensures { (vocabulary : Vocabulary) (one other : Op) → IsInRange vocabulary one → IsInRange vocabulary other
        → spelling one ≡ spelling other → one ≡ other }
{}

/// A line is read as an operation exactly where the operation can be held and the line is its line.
pub fn lines_are_exact()
    ensures { (vocabulary : Vocabulary) (line : List ℕ) (op : Op)
        → (operation_at vocabulary line ≡ Some op) ↔ (IsInRange vocabulary op × (line ≡ spelling op)) }
{}

/// The line of an operation with few changes isn't too long to be read.
pub fn held_lines_are_short()
    ensures { (vocabulary : Vocabulary) (op : Op) → IsInRange vocabulary op → HasFewChanges vocabulary op
        → length (spelling op) ≤ 8192 }
{}

/// What has a line at a vocabulary has it at each that names the same controllers and more.
pub fn wider_vocabularies_have_lines()
    ensures range { (one other : Vocabulary)
        → ((controller : Controller) → is_known one controller ≡ true → is_known other controller ≡ true)
        → (op : Op) → IsInRange one op → IsInRange other op }
    ensures line { (one other : Vocabulary)
        → ((controller : Controller) → is_known one controller ≡ true → is_known other controller ≡ true)
        → (op : Op) → HasLine one op → HasLine other op }
    ensures lines { (one other : Vocabulary)
        → ((controller : Controller) → is_known one controller ≡ true → is_known other controller ≡ true)
        → (ops : List Op) → HaveLines one ops → HaveLines other ops }
{}
