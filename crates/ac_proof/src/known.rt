//! What is known to be readable without being read again.
ghost use Rattle.std.specs.Prelude.{◌≡◌, IsTrue, ◌↔◌, All};
ghost use Rattle.ac_logic.specs.Readable.{IsReadable};
ghost use Rattle.ac_proof.specs.Known.{given};

use crate::rule::Rule;
use ac_logic::{Formula, is_readable};
use ac_shared::Shared;

/// What is known to be readable at a step: its goal, and all of its hypotheses.
#[derive(Clone, Copy)]
pub struct Known {
    pub goal: bool,
    pub hyps: bool,
}

/// Whether an instance of the rule has a premise number i that is readable if its goal and the premises before it are:
/// each part of it is a part of those.
pub fn is_given(rule: &Rule, i: usize) -> bool
    ensures { result ≡ given rule.now i }
{
    match rule {
        Rule::AndLeft => false,
        Rule::AndRight => false,
        Rule::Linear { .. } => false,
        Rule::OrElim => i > 0,
        Rule::ImpliesElim => i > 0,
        Rule::NotElim => i > 0,
        _ => true,
    }
}

/// Whether all formulas are readable.
#[tactic(auto, using(crate::proofs::Readability::readable_more))]
pub fn are_readable(formulas: &[Shared<Formula>]) -> bool
    ensures { IsTrue result ↔ All IsReadable formulas.now }
{
    for f in formulas {
        if !is_readable(f.get()) {
            return false;
        }
    }
    true
}
