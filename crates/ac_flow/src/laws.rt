//! Laws of the definitions.
ghost use Rattle.std.specs.Prelude.{◌≡◌, ◌↔◌, ℕ, Bool, true, Some, List};
ghost use Rattle.ac_tree.specs.declared.node.NodeId.{NodeId};
ghost use Rattle.ac_tree.specs.declared.path.Cut.{Cut};
ghost use Rattle.ac_tree.specs.declared.program.Program.{Program};
ghost use Rattle.ac_flow.specs.Cuts.{has_barrier};
ghost use Rattle.ac_flow.specs.Listed.{IsSubjectTarget, IsListed};
ghost use Rattle.ac_flow.specs.Pairs.{is_subject, pairs_of};
ghost use Rattle.ac_tree.specs.declared.path.Target.{Target};
ghost use Rattle.ac_flow.specs.Points.{Point, target_at};
ghost use Rattle.ac_flow.specs.Paths.{LeadsTo, Reaches};
ghost use Rattle.ac_flow.specs.Leads.{leads_on};

/// The law that the recursion over the tree finds exactly the targets to which a path leads without passing a cut, from every
/// control point.
pub fn recursion_follows_paths()
    ensures { (barrier : ℕ → Bool) (t : Target) (from : Point) → (leads_on barrier t from ≡ true) ↔ ((to : Point) × LeadsTo barrier from to × (target_at barrier to ≡ Some t)) }
{}

/// The law that the list of pairs has exactly the cuts and the targets that a path joins without passing another cut, where the
/// targets at accesses are those of subject nodes.
pub fn pairs_follow_paths()
    ensures { (program : Program) (cuts : List Cut) (subject : List NodeId) (c : Cut) (t : Target) → IsListed (pairs_of program cuts subject) (record { cut = c; target = t }) ↔ (Reaches program (has_barrier cuts) c t × IsSubjectTarget (is_subject subject) t) }
{}
