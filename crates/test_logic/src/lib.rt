//! Tests of linear forms, of the simplifier and of the proof checker, as tables in formula text. Nothing else stands here.
#![tactic(auto)]

#[cfg(test)]
mod instances;
#[cfg(test)]
mod linear_forms;
#[cfg(test)]
mod proofs;
#[cfg(test)]
mod simplification;
#[cfg(test)]
mod steps;
#[cfg(test)]
mod texts;
