//! Laws of the definitions. They do nothing when they run: what they ensure is the law.
ghost use Rattle.std.specs.Prelude.{◌≡◌, ◌↔◌, ℕ, ◌+◌, ◌≤◌, max, Contains, List, [], Option, is_some, map, true};
ghost use Rattle.ac_tree.specs.declared.node.NodeId.{NodeId};
ghost use Rattle.ac_tree.specs.declared.path.Cut.{Cut};
ghost use Rattle.ac_tree.specs.declared.path.Place.{Place};
ghost use Rattle.ac_tree.specs.declared.path.Target.{Target};
ghost use Rattle.ac_tree.specs.declared.path.Target.TheVariants as target;
ghost use Rattle.ac_tree.specs.declared.policy.PolicyName.{PolicyName};
ghost use Rattle.ac_tree.specs.declared.program.Program.{Program};
ghost use Rattle.ac_tree.specs.Preorder.{IsNumbered};
ghost use Rattle.ac_run.specs.Declarations.{NameBytes};
ghost use Rattle.ac_flow.specs.Cuts.{cuts_of, has_barrier, has_place};
ghost use Rattle.ac_flow.specs.Listed.{IsListed};
ghost use Rattle.ac_flow.specs.Pairs.{is_subject, pairs_of};
ghost use Rattle.ac_logic.specs.declared.condition.Annotation.{Annotation};
ghost use Rattle.ac_logic.specs.declared.condition.Condition.{Condition};
ghost use Rattle.ac_logic.specs.declared.label.Label.{Label};
ghost use Rattle.ac_logic.specs.Labels.{labels_of};
ghost use Rattle.ac_policy.specs.Laws.{LawForm};
ghost use Rattle.ac_conditions.specs.KindsFit.{KindFits};
ghost use Rattle.ac_logic.specs.declared.formula.Change.{Change as AnyChange};
ghost use Rattle.ac_logic.specs.declared.formula.Formula.{Formula as AnyFormula};
ghost use Rattle.ac_logic.specs.declared.formula.Sym.{Sym};
ghost use Rattle.ac_logic.specs.Size.{depth_of, size_of};
ghost use Rattle.ac_logic.specs.Substitution.{formula_after};
ghost use Rattle.ac_policy.specs.declared.site.Site.{Site};
ghost use Rattle.ac_policy.specs.Sites.{sites_of};
ghost use Rattle.ac_conditions.specs.AllConditions.{all_conditions, part_conditions};
ghost use Rattle.ac_conditions.specs.Marked.{AreMarked, needed_nodes};
ghost use Rattle.ac_conditions.specs.Part.{Part, facts_at, is_after, is_any, places_of};
ghost use Rattle.ac_conditions.specs.Statements.{AreBehindStatements};
ghost use Rattle.ac_conditions.specs.Weights.{Weights, ones, weight, after};

/// The law of weights: the size and the depth of a formula after changes are the weight of the formula before them, where each
/// symbol counts for the size or the depth of what stands for it.
pub fn weights_law()
    ensures size { (cs : List AnyChange) (f : AnyFormula) → size_of (formula_after cs f) ≡ weight ◌+◌ (after ◌+◌ ones cs) f }
    ensures depth { (cs : List AnyChange) (f : AnyFormula) → depth_of (formula_after cs f) ≡ weight max (after max ones cs) f }
{}

/// The law that weights grow with those of the symbols: where each symbol counts no more, the size and the depth are no larger.
pub fn weights_grow()
    ensures size { (u v : Weights) → ((s : Sym) → u.scalar s ≤ v.scalar s) → ((s : Sym) → u.array s ≤ v.array s) → (f : AnyFormula) → weight ◌+◌ u f ≤ weight ◌+◌ v f }
    ensures depth { (u v : Weights) → ((s : Sym) → u.scalar s ≤ v.scalar s) → ((s : Sym) → u.array s ≤ v.array s) → (f : AnyFormula) → weight max u f ≤ weight max v f }
{}

/// The law that a pair has a condition exactly where it is one of the pairs of control flow, where the cuts have the barriers
/// of the annotations and the subject nodes are those of the accesses at which the policy needs something.
pub fn conditions_follow_pairs()
    ensures { (program : Program) (policy : PolicyName) (part : Part) (cuts : List Cut) (subject : List NodeId) → ((n : NodeId) → has_barrier cuts n.0 ≡ is_any (part.behind n)) → AreMarked program part.need (is_subject subject) → (c : Cut) (t : Target) → IsListed (map (λ x. x.pair) (part_conditions program policy part)) (record { cut = c; target = t }) ↔ IsListed (pairs_of program cuts subject) (record { cut = c; target = t }) }
{}

/// The law that the conditions stand in the order of the pairs of control flow, by target and then by cut, with one condition for
/// each pair: where the nodes of the program are numbered in preorder, the pairs of the conditions are that very list.
pub fn conditions_stand_in_order()
    ensures { (program : Program) (policy : PolicyName) (part : Part) (cuts : List Cut) (subject : List NodeId) → IsNumbered program → ((n : NodeId) → has_barrier cuts n.0 ≡ is_any (part.behind n)) → AreMarked program part.need (is_subject subject) → map (λ x. x.pair) (part_conditions program policy part) ≡ pairs_of program cuts subject }
{}

/// The law that each subject site is the target of a condition.
pub fn subject_sites_are_targets()
    ensures { (program : Program) (policy : PolicyName) (part : Part) (site : Site) → Contains (sites_of program) site → is_some (part.need site) ≡ true → (c : Cut) × IsListed (map (λ x. x.pair) (part_conditions program policy part)) (record { cut = c; target = target.Site site.node }) }
{}

/// The law that a barrier stands exactly where an annotation has its place behind a statement.
pub fn annotations_give_barriers()
    ensures { (annotations : List Annotation) (n : NodeId) → has_place (places_of annotations) n.0 ≡ is_any (facts_at (is_after n) annotations) }
{}

/// The law that the cuts made of some places have exactly their barriers, where each place behind a node is behind a statement.
pub fn places_give_barriers_of_cuts()
    ensures { (program : Program) (places : List Place) → AreBehindStatements program places → (n : ℕ) → has_barrier (cuts_of (has_place places) program) n ≡ has_place places n }
{}

/// The law that the nodes of the sites at which a policy needs something mark the accesses of a program whose nodes are numbered
/// in preorder.
pub fn needs_give_subjects()
    ensures { (program : Program) (need : Site → Option AnyFormula) → IsNumbered program → AreMarked program need (is_subject (needed_nodes need (sites_of program))) }
{}

/// The law that the conditions by annotations stand in the order of the pairs of control flow, one for each, where the cuts are
/// those made of the places of the annotations, and the subject nodes those of the sites at which the policy needs something.
pub fn annotated_conditions_stand_in_order()
    ensures { (program : Program) (policy : PolicyName) (need : Site → Option AnyFormula) (effect : Site → List AnyChange) (known : NameBytes → Option AnyFormula) (annotations : List Annotation) → IsNumbered program → AreBehindStatements program (places_of annotations) → map (λ x. x.pair) (all_conditions program policy need effect known annotations) ≡ pairs_of program (cuts_of (has_place (places_of annotations)) program) (needed_nodes need (sites_of program)) }
{}

/// The law that each label of a condition stands at a node that fits its kind, where the formulas of the policy have the form that
/// its laws ask and the annotations have no label.
pub fn labels_fit_their_kinds()
    ensures { (program : Program) (policy : PolicyName) (need : Site → Option AnyFormula) (effect : Site → List AnyChange) (known : NameBytes → Option AnyFormula) (annotations : List Annotation) → LawForm need effect known → ((a : Annotation) → IsListed annotations a → labels_of a.formula ≡ []) → (c : Condition) → IsListed (all_conditions program policy need effect known annotations) c → (l : Label) → IsListed (labels_of c.formula) l → KindFits program l }
{}
