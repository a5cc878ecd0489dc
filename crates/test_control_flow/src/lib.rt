//! Tests of the cuts, pairs and walks of a program, against rows that were worked out by hand. Nothing else stands here.
#![tactic(auto)]

#[cfg(test)]
mod control_flow;
