//! Laws of matches. They do nothing when they run: what they ensure is the law.
ghost use Rattle.std.specs.Prelude.{◌≡◌, List};
ghost use Rattle.ac_tree.specs.declared.program.Stmt.{Stmt as AnyStmt};
ghost use Rattle.ac_codes.specs.declared.pattern.Match.{Match as AnyMatch};
ghost use Rattle.ac_codes.specs.declared.pattern.Pattern.{Pattern as AnyPattern};
ghost use Rattle.ac_codes.specs.Matching.{IsMatch};

/// A pattern has at most one match with a run of statements.
pub fn a_run_has_at_most_one_match()
    ensures { (p : AnyPattern) (run : List AnyStmt) (m n : AnyMatch) → IsMatch p run m → IsMatch p run n → m ≡ n }
{}
