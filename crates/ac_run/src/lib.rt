//! What a program does when it runs, and which runs a policy forbids.
//!
//! A start gives each input and variable its first numbers. A run goes step by step and leaves a trace of events: reads,
//! writes and uses. `specs/` says, in this order, what a program declares, which starts fit it, what a memory holds, what
//! an expression gives, what a step does, which events violate a policy, and when a program is safe.
#![tactic(auto, unfolding(crate::specs::Opened::hidden, crate::specs::Opened::expr_shape, crate::specs::Opened::expr_child, crate::specs::Opened::cond_shape, crate::specs::Opened::cond_child, crate::specs::Opened::stmt_shape, crate::specs::Opened::stmt_child))]

mod event;
pub mod examples;
mod runs;
mod start;
mod straight;

pub use event::{Cell, Event};
pub use runs::{a_run_halts_exactly_outside, a_stopped_run_stays, a_trace_only_grows};
pub use start::{Start, StartCell, some_start_fits};
pub use straight::straight_writes_are_safe;
