//! Tests of texts of formulas and terms, against tables that were made by hand. Nothing else stands here.
#![tactic(auto)]

#[cfg(test)]
mod bad_formulas;
#[cfg(test)]
mod formula_texts;
#[cfg(test)]
mod texts;
