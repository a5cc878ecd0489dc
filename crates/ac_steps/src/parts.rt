//! Lists of one, two or three proofs taken apart.
ghost use Rattle.std.specs.Prelude.{◌≡◌, [], ◌∷◌, length};

use ac_proof::ProofTree;
use sqlite_items::Items;

pub fn only(trees: Items<ProofTree>) -> ProofTree
    requires { length trees ≡ 1 }
    ensures { trees ≡ result ∷ [] }
{
    let mut trees = trees;
    trees.remove(0)
}

pub fn both(trees: Items<ProofTree>) -> (ProofTree, ProofTree)
    requires { length trees ≡ 2 }
    ensures { trees ≡ result.0 ∷ result.1 ∷ [] }
{
    let mut trees = trees;
    let first = trees.remove(0);
    (first, only(trees))
}

pub fn all_three(trees: Items<ProofTree>) -> (ProofTree, ProofTree, ProofTree)
    requires { length trees ≡ 3 }
    ensures { trees ≡ result.0 ∷ result.1 ∷ result.2 ∷ [] }
{
    let mut trees = trees;
    let first = trees.remove(0);
    let (second, third) = both(trees);
    (first, second, third)
}
