//! A law of the definitions. It does nothing when it runs: what it ensures is the law.
ghost use Rattle.std.specs.Prelude.{◌≡◌, List, [], All};
ghost use Rattle.ac_tree.specs.declared.program.Program.{Program};
ghost use Rattle.ac_flow.specs.Listed.{IsListed};
ghost use Rattle.ac_logic.specs.declared.condition.Annotation.{Annotation};
ghost use Rattle.ac_logic.specs.Labels.{labels_of};
ghost use Rattle.ac_conditions.specs.Part.{places_of};
ghost use Rattle.ac_conditions.specs.Statements.{AreBehindStatements};
ghost use Rattle.ac_kernel.specs.WellFormed.{IsWellFormed};

/// The law that well-formed annotations are what the laws of conditions and labels ask for: each that stands behind a node stands
/// behind a statement, and none has a label.
pub fn annotations_have_form()
    ensures behind { (program : Program) (annotations : List Annotation) → All (IsWellFormed program) annotations → AreBehindStatements program (places_of annotations) }
    ensures unlabelled { (program : Program) (annotations : List Annotation) → All (IsWellFormed program) annotations → (a : Annotation) → IsListed annotations a → labels_of a.formula ≡ [] }
{}
