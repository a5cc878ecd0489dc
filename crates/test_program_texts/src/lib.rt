//! Tests of texts of programs, against tables that were made by hand from the grammar and the limits. Nothing else stands here.
#![tactic(auto)]

#[cfg(test)]
mod beginnings;
#[cfg(test)]
mod bytes;
#[cfg(test)]
mod changes;
#[cfg(test)]
mod limits;
#[cfg(test)]
mod outcome;
#[cfg(test)]
mod prints;
