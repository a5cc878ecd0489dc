//! Laws of blocks of codes. They do nothing when they run: what they ensure is the law.
ghost use Rattle.std.specs.Prelude.{◌≡◌, List};
ghost use Rattle.ac_tree.specs.Grammar.{Tokens};
ghost use Rattle.ac_tree.specs.declared.program.Stmt.{Stmt as AnyStmt};
ghost use Rattle.ac_pattern_blocks.specs.Spread.{SpellsCodeBlock};

/// The tokens of a code spell at most one block.
pub fn tokens_spell_at_most_one_block()
    ensures { (ts : Tokens) (xs ys : List AnyStmt) → SpellsCodeBlock xs ts → SpellsCodeBlock ys ts → xs ≡ ys }
{}
