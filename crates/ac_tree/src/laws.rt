//! The laws of the definitions: what an auditor checks them by. They do nothing when they run: what they ensure is the law.
ghost use Rattle.std.specs.Prelude.{◌≡◌, ℕ, List, ◌++◌, ◌∷◌, ◌⊎◌, Some, length, IsTrue};
ghost use Rattle.ac_tree.specs.declared.program.Expr.{Expr as AnyExpr};
ghost use Rattle.ac_tree.specs.declared.program.Item.{Item as AnyItem};
ghost use Rattle.ac_tree.specs.declared.program.ItemKind.TheVariants.{VarScalar};
ghost use Rattle.ac_tree.specs.declared.program.Program.{Program as AnyProgram};
ghost use Rattle.ac_tree.specs.declared.program.Stmt.{Stmt as AnyStmt};
ghost use Rattle.ac_tree.specs.declared.program.StmtKind.TheVariants as statement;
ghost use Rattle.ac_tree.specs.Numbering.{program_nodes};
ghost use Rattle.ac_tree.specs.Positions.{positions_of};
ghost use Rattle.ac_tree.specs.Preorder.{nodes_of, numbers_from, IsNumbered};
ghost use Rattle.ac_tree.specs.Spelling.{Spells};
ghost use Rattle.ac_tree.specs.StaticFacts.{Within, StmtNames, Reads, Writes, DeclareOnce, IsDeclaredWith, IsWritable, KeepsLoop, IsGoodItem};
ghost use Rattle.ac_tree.specs.StaticRules.{KeepsStaticRules, kind_in, is_declared};

/// The nodes of a numbered program, in preorder, have the numbers 0, 1, 2 and so on, and each has a position. A program has
/// as many nodes as the tree that its text spells.
pub fn nodes_are_numbered_in_preorder()
    ensures numbers { (p : AnyProgram) → IsNumbered p → nodes_of p ≡ numbers_from 0 (program_nodes p) }
    ensures nodes { (p : AnyProgram) → length (nodes_of p) ≡ program_nodes p }
    ensures positions { (p : AnyProgram) → length (positions_of p) ≡ program_nodes p }
    ensures spelled { (bytes : List ℕ) (p : AnyProgram) (s : Spells bytes p) → program_nodes p ≡ program_nodes s.tree }
{}

/// In an accepted program no two declarations have one name, no range is empty, and each extent is a number of cells.
pub fn accepted_declarations_are_good()
    ensures once { (p : AnyProgram) → KeepsStaticRules p → DeclareOnce p.items }
    ensures good { (p : AnyProgram) (before after : List AnyItem) (d : AnyItem) → KeepsStaticRules p → p.items ≡ before ++ d ∷ after → IsGoodItem before d }
{}

/// In an accepted program each name that a statement has is declared, with as many extents as it has indexes.
pub fn accepted_names_are_declared()
    ensures named { (p : AnyProgram) (s : AnyStmt) (x : List ℕ) (n : ℕ) → KeepsStaticRules p → Within s p.body → StmtNames x n s.kind → IsDeclaredWith p.items x n }
    ensures handed { (p : AnyProgram) (s : AnyStmt) (x role : List ℕ) → KeepsStaticRules p → Within s p.body → s.kind ≡ statement.Hand x role → IsTrue (is_declared p.items x) }
{}

/// In an accepted program what a statement writes is declared as a variable, and what a `for` runs over as a scalar one.
pub fn accepted_writes_are_to_variables()
    ensures written { (p : AnyProgram) (s : AnyStmt) (x : List ℕ) → KeepsStaticRules p → Within s p.body → Writes x s.kind → IsWritable p.items x }
    ensures scalar { (p : AnyProgram) (l : AnyStmt) (y : List ℕ) (a b : AnyExpr) (xs : List AnyStmt) → KeepsStaticRules p → Within l p.body → l.kind ≡ statement.For y a b xs → kind_in p.items y ≡ Some VarScalar }
{}

/// In an accepted program no statement within a `for` writes its variable or what its ends read, nor do its ends read its
/// variable.
pub fn accepted_loops_are_kept()
    ensures kept { (p : AnyProgram) (l s : AnyStmt) (y : List ℕ) (a b : AnyExpr) (xs : List AnyStmt) → KeepsStaticRules p → Within l p.body → l.kind ≡ statement.For y a b xs → Within s xs → KeepsLoop y a.kind b.kind s.kind }
    ensures ends { (p : AnyProgram) (l : AnyStmt) (y : List ℕ) (a b : AnyExpr) (xs : List AnyStmt) → KeepsStaticRules p → Within l p.body → l.kind ≡ statement.For y a b xs → Reads y a.kind ⊎ Reads y b.kind → ⊥ }
{}
