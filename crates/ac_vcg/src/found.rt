//! What is found of the condition of a pair.
use ac_tree::Pair;

/// The condition of a pair, or what is to be known of it.
#[derive(Drop)]
pub struct Found<G> {
    pub pair: Pair,
    pub goal: G,
}
