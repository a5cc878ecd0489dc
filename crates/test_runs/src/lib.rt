//! Tests of runs, against rows that were worked out by hand. Nothing else stands here.
#![tactic(auto)]

#[cfg(test)]
mod steps;
