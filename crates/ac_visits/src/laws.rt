//! Laws of the definition.
ghost use Rattle.std.specs.Prelude.{◌↔◌, List, ◌++◌};
ghost use Rattle.ac_tree.specs.declared.node.NodeId.{NodeId};
ghost use Rattle.ac_tree.specs.declared.path.Cut.{Cut};
ghost use Rattle.ac_tree.specs.declared.path.Pair.{Pair};
ghost use Rattle.ac_tree.specs.declared.path.Target.{Target};
ghost use Rattle.ac_tree.specs.declared.program.Program.{Program};
ghost use Rattle.ac_tree.specs.Preorder.{IsNumbered};
ghost use Rattle.ac_flow.specs.Cuts.{has_barrier};
ghost use Rattle.ac_flow.specs.Listed.{IsListed};
ghost use Rattle.ac_flow.specs.Paths.{Reaches};
ghost use Rattle.ac_visits.specs.Rising.{Rises, IsOnce};
ghost use Rattle.ac_visits.specs.Visits.{IsVisited};
ghost use Rattle.ac_walk.specs.Walks.{inputs, path_nodes, walk_of};

/// The law that the walk of a pair names exactly what the paths from its cut to its target visit, in a program whose nodes are
/// numbered and for a target that control can reach from the cut without passing another.
pub fn walks_follow_paths()
    ensures { (program : Program) (cuts : List Cut) (c : Cut) (t : Target) (n : NodeId) → IsNumbered program → Reaches program (has_barrier cuts) c t → IsListed (walk_of program cuts (record { cut = c; target = t })) n ↔ IsVisited program (has_barrier cuts) c t n }
{}

/// The law that a walk names each node once, in a program whose nodes are numbered, and that its numbers rise strictly, but for
/// the target's where it was added at the end.
pub fn walks_rise()
    ensures once { (program : Program) (cuts : List Cut) (pair : Pair) → IsNumbered program → IsOnce (walk_of program cuts pair) }
    ensures rising { (program : Program) (cuts : List Cut) (pair : Pair) → IsNumbered program → Rises 0 (inputs program.items ++ path_nodes (has_barrier cuts) pair.target pair.cut program.body) }
{}
