//! Tests of the language, which stand beside no product code: each row shows what no clause says.
#![tactic(auto)]

#[cfg(test)]
mod tokens;
