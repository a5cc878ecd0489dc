//! Lines, and what a line says of a formula.
use crate::text::Text;
use ac_proof::RuleName;
use ac_tree::{Pair, Place, PolicyName};
use sqlite_items::Items;

/// The rule of a step as its line has it: the term of `all-elim` is still a text.
#[derive(Drop)]
pub enum SpelledRule {
    Hyp { n: u64 },
    AllIntro { k: u32 },
    AllElim { term: Text },
    Linear { factors: Items<u64> },
    /// A rule that has no fields.
    Plain { name: RuleName },
}

/// What a line says of a formula.
#[derive(Drop)]
pub enum Claim {
    /// The formula is an annotation of the place.
    Annotation { policy: PolicyName, place: Place },
    /// The formula is the condition of the pair. Its proof follows.
    Condition { policy: PolicyName, pair: Pair },
    /// The formula is the goal of a step with so many premises. Their proofs follow, one after the other.
    Step { rule: SpelledRule, premises: u64 },
}

/// A line of a certificate.
#[derive(Drop)]
pub enum Line {
    /// The policies of the parts.
    Header { policies: Items<PolicyName> },
    /// The text of a formula. Formulas are numbered from 0 in the order of their lines.
    Formula { text: Text },
    /// What is said of the formula with a number.
    Cites { claim: Claim, formula: u64 },
    /// How many conditions and steps there were.
    End { conditions: u64, steps: u64 },
}
