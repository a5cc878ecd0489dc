//! The table of a policy file: which keys it has, and what stands at each.
//!
//! `read_policy_table` reads the bytes of a policy file by TOML, and gives the policies, the roles, whether the library counts
//! and the values of each pattern, or the first thing that is wrong. What the texts of a pattern say is read above: a pattern
//! stands here as its values, each either of the shape that its key asks for or not, so that the room above puts each refusal
//! of a pattern in its place. `specs/` has, in this order, the keys, the values, the tables of patterns and the whole file.
#![tactic(auto)]

mod entries;
mod fault;
mod key;
mod pattern_list;
mod pattern_table;
mod policies;
mod policy_table;
mod roles;
mod text;
mod values;

pub use fault::TableFault;
pub use key::{PatternKey, PolicyKey};
pub use pattern_table::{ApartPair, PatternTable, PatternValues};
pub use policy_table::{PolicyTable, read_policy_table};
pub use text::Text;
