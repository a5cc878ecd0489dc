//! Tests of verification conditions and of the kernel, against tables that were made by hand. Nothing else stands here.
#![tactic(auto)]

#[cfg(test)]
mod asked;
#[cfg(test)]
mod condition_texts;
#[cfg(test)]
mod parts;
