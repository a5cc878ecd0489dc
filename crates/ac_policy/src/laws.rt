//! Laws of the sites of a program and of the changes of a write. They do nothing when they run: what they ensure is the law.
ghost use Rattle.std.specs.Prelude.{◌≡◌, ℕ, List, Contains};
ghost use Rattle.ac_tree.specs.declared.node.NodeId.{NodeId as AnyNode};
ghost use Rattle.ac_tree.specs.declared.program.Program.{Program as AnyProgram};
ghost use Rattle.ac_tree.specs.Preorder.{nodes_of, IsNumbered};
ghost use Rattle.ac_tree.specs.StaticRules.{KeepsStaticRules};
ghost use Rattle.ac_run.specs.declared.start.Start as started;
ghost use Rattle.ac_run.specs.Declarations.{NameBytes};
ghost use Rattle.ac_logic.specs.declared.formula.Change.{Change as AnyChange};
ghost use Rattle.ac_logic.specs.declared.formula.Sym.TheVariants.{Value, Fresh};
ghost use Rattle.ac_logic.specs.Patterns.{Scalar, Array};
ghost use Rattle.ac_logic.specs.Substitution.{AreClosedChanges, scalar_after, array_symbol_after};
ghost use Rattle.ac_policy.specs.declared.site.Site.{Site as AnySite};
ghost use Rattle.ac_policy.specs.Laws.{AreShadowChanges, IsPlainSite, IsIndexed};
ghost use Rattle.ac_policy.specs.Sites.{sites_of, scalar_write, AreRising};

/// Each site of a program meets what the laws of a policy ask of a site: its terms are plain and, where the program keeps the
/// static rules, it has as many indexes as its name has extents, whatever the start. The site of the variable of a `for`, which
/// is none of these, meets it in any program.
pub fn sites_meet_the_laws()
    ensures plain { (p : AnyProgram) (s : AnySite) → Contains (sites_of p) s → IsPlainSite s }
    ensures indexed { (p : AnyProgram) (start : started.Start) (s : AnySite) → KeepsStaticRules p → Contains (sites_of p) s → IsIndexed p start s }
    ensures variable_plain { (n : AnyNode) (x : NameBytes) → IsPlainSite (scalar_write n x) }
    ensures variable_indexed { (p : AnyProgram) (start : started.Start) (n : AnyNode) (x : NameBytes) → IsIndexed p start (scalar_write n x) }
{}

/// The sites stand in the order of the nodes of a program, each at a node, and no two at one.
pub fn sites_stand_in_order()
    ensures nodes { (p : AnyProgram) (s : AnySite) → Contains (sites_of p) s → Contains (nodes_of p) s.node }
    ensures rising { (p : AnyProgram) → IsNumbered p → AreRising (sites_of p) }
{}

/// Changes of shadow variables may be made in a formula, and leave the values of the program and the new names of a proof.
pub fn shadow_changes_leave_values()
    ensures closed { (cs : List AnyChange) → AreShadowChanges cs → AreClosedChanges cs }
    ensures scalars { (cs : List AnyChange) (x : NameBytes) → AreShadowChanges cs → scalar_after cs (Value x) ≡ Scalar (Value x) }
    ensures arrays { (cs : List AnyChange) (x : NameBytes) → AreShadowChanges cs → array_symbol_after cs (Value x) ≡ Array (Value x) }
    ensures new_scalars { (cs : List AnyChange) (k : ℕ) → AreShadowChanges cs → scalar_after cs (Fresh k) ≡ Scalar (Fresh k) }
    ensures new_arrays { (cs : List AnyChange) (k : ℕ) → AreShadowChanges cs → array_symbol_after cs (Fresh k) ≡ Array (Fresh k) }
{}
