//! Laws of tokens of codes. They do nothing when they run: what they ensure is the law.
ghost use Rattle.std.specs.Prelude.{◌≡◌, ℕ, List};
ghost use Rattle.ac_tree.specs.Grammar.{Tokens};
ghost use Rattle.ac_pattern_tokens.specs.CodeText.{CutsCode};

/// The text of a code is cut into tokens in one way at most.
pub fn a_code_is_cut_in_one_way()
    ensures { (bytes : List ℕ) (ts us : Tokens) → CutsCode 0 bytes ts → CutsCode 0 bytes us → ts ≡ us }
{}
