//! Tests of sites and of what the policies say of them, against tables that were made by hand. Nothing else stands here.
#![tactic(auto)]

#[cfg(test)]
mod formulas;
#[cfg(test)]
mod site_lists;
