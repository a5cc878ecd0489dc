//! Tests of the outside: files and sinks, in memory and of the host.
#![tactic(auto)]

#[cfg(test)]
mod host;
#[cfg(test)]
mod memory;
