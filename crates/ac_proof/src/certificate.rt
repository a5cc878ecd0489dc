//! Certificates: proofs of all conditions of a program.
use crate::tree::ProofTree;
use ac_logic::{Annotation, Condition};
use ac_tree::PolicyName;
use sqlite_items::Items;

/// What shows that a program keeps its policies: a part for each of them.
#[derive(Drop)]
pub struct Certificate {
    pub parts: Items<CertPart>,
}

/// The annotations of the program for one policy, and its verification conditions with their proofs.
#[derive(Drop)]
pub struct CertPart {
    pub policy: PolicyName,
    pub annotations: Items<Annotation>,
    pub conditions: Items<ProvedCondition>,
}

/// A verification condition and its proof, which has no hypotheses.
#[derive(Drop)]
pub struct ProvedCondition {
    pub condition: Condition,
    pub proof: ProofTree,
}
