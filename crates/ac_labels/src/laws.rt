//! The laws of labels. They do nothing when they run: what they ensure is the law. They speak of the defined list of conditions,
//! which is the list that `conditions` of `ac_vcg` gives.
ghost use Rattle.std.specs.Prelude.{List, Option};
ghost use Rattle.ac_tree.specs.declared.policy.PolicyName.{PolicyName};
ghost use Rattle.ac_tree.specs.declared.program.Program.{Program};
ghost use Rattle.ac_run.specs.Declarations.{NameBytes};
ghost use Rattle.ac_flow.specs.Listed.{IsListed};
ghost use Rattle.ac_logic.specs.Aim.{AimsAt};
ghost use Rattle.ac_logic.specs.declared.condition.Annotation.{Annotation};
ghost use Rattle.ac_logic.specs.declared.condition.Condition.{Condition};
ghost use Rattle.ac_logic.specs.declared.formula.Change.{Change};
ghost use Rattle.ac_logic.specs.declared.formula.Formula.{Formula};
ghost use Rattle.ac_policy.specs.declared.site.Site.{Site};
ghost use Rattle.ac_conditions.specs.AllConditions.{all_conditions};
ghost use Rattle.ac_labels.specs.LabelledWalks.{IsLabelledPlainly, IsLabelledOnItsWalk};
ghost use Rattle.ac_labels.specs.TargetLabels.{target_label};

/// The law that each label of each condition of a program stands at a node of the walk of the condition's pair: in a program whose
/// nodes are numbered in preorder, where the formulas of the policy have the form that its laws ask, and the annotations have no
/// label and those behind a node stand behind a statement.
pub fn labels_stand_on_walks()
    ensures { (program : Program) (policy : PolicyName) (need : Site → Option Formula) (effect : Site → List Change) (known : NameBytes → Option Formula) (annotations : List Annotation) → IsLabelledPlainly program need effect known annotations → (c : Condition) → IsListed (all_conditions program policy need effect known annotations) c → IsLabelledOnItsWalk program annotations c }
{}

/// The law that each condition of a program aims at the label of its target.
pub fn conditions_aim_at_targets()
    ensures { (program : Program) (policy : PolicyName) (need : Site → Option Formula) (effect : Site → List Change) (known : NameBytes → Option Formula) (annotations : List Annotation) → (c : Condition) → IsListed (all_conditions program policy need effect known annotations) c → AimsAt (target_label c.pair.target) c.formula }
{}
