//! Rewrites, and what they lead to.
use crate::rule::RewriteRule;
use ac_logic::Formula;
use ac_shared::Shared;
use sqlite_items::Items;

/// One application of a rule.
#[derive(Drop)]
pub struct Rewrite {
    /// The child positions that lead from the root to where the rule applies, the left side being 0.
    pub path: Items<u32>,
    pub rule: RewriteRule,
}

/// A simplified formula with the rewrites that lead to it, in order.
#[derive(Drop)]
pub struct Simplified {
    pub formula: Shared<Formula>,
    pub rewrites: Items<Rewrite>,
}
