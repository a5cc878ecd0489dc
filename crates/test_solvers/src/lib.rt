//! Tests of the solver of difference constraints.
#![tactic(auto)]

#[cfg(test)]
mod answers;
