//! Tests of the top call, as tables of programs, words and faults.
#![tactic(auto)]

#[cfg(test)]
mod calls;
#[cfg(test)]
mod faults;
#[cfg(test)]
mod limits;
#[cfg(test)]
mod policies;
#[cfg(test)]
mod printed;
#[cfg(test)]
mod reports;
