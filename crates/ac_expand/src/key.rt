//! Terms as keys of a table.
ghost use Rattle.std.specs.Prelude.{◌≡◌};
ghost use Rattle.std.specs.Cmp.{partial_equiv_from_equiv};
ghost use Rattle.std.specs.Hash as fed;
ghost use Rattle.ac_linear.specs.TermEquality.{term_eq};
ghost use Rattle.ac_expand.specs.Digest.{digest_of};
ghost use Rattle.ac_expand.specs.Keys.{same_key, equiv, alike};

use crate::digest::digest;
use ac_logic::{Term, same_term};
use ac_shared::Shared;
use std::hash::{Hash, Hasher};

/// A term as a key, compared as a tree.
#[derive(Drop)]
pub(crate) struct Key {
    pub(crate) term: Shared<Term>,
}

/// Whether the terms are equal as trees.
#[tactic(auto, using(ac_linear::proofs::Equal::term_true, ac_linear::proofs::Equal::term_false))]
fn is_same(a: &Term, b: &Term) -> bool
    ensures { result ≡ term_eq a.now b.now }
{
    if same_term(a, b) {
        return true;
    }
    false
}

impl PartialEq for Key {
    ghost eq = { same_key };

    ghost laws = { partial_equiv_from_equiv equiv };

    fn eq(&self, other: &Key) -> bool {
        is_same(self.term.get(), other.term.get())
    }
}

impl Eq for Key {
    ghost laws = { equiv };
}

impl Hash for Key {
    ghost hash_input = { λ k. fed.u64 (digest_of k.term) };

    ghost respects_eq = { alike.fed };

    fn hash<H: Hasher>(&self, state: &mut H) {
        state.write_u64(digest(self.term.get()));
    }
}
