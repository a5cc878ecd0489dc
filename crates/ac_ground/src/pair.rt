//! Pairs of terms.
use ac_logic::Term;
use ac_shared::Shared;

/// Two terms that are compared.
#[derive(Drop)]
pub struct Pair {
    pub left: Shared<Term>,
    pub right: Shared<Term>,
}
