//! Whether parts of a program are the same up to nodes, what they read, and what they write. Each answer comes in one walk.
#![tactic(auto)]

mod reads;
mod sameness;
mod writes;
mod written;

pub use reads::{cond_reads_none, does_cond_read, does_read, reads_none};
pub use sameness::{same_cond, same_expr, same_relation, same_run};
pub use writes::does_write;
pub use written::Written;
