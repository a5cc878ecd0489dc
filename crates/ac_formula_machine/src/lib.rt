//! The machine that reads formula text: what it stands at, and what it makes of a token in terms, at connectives and at braces.
//!
//! `ac_formula_reader` cuts a text into tokens and runs the machine on them.
#![tactic(auto, unfolding(crate::specs::Opened::formula_shape, crate::specs::Opened::formula_child, crate::specs::Opened::term_shape, crate::specs::Opened::term_child, crate::specs::Opened::array_shape, crate::specs::Opened::array_child, crate::specs::Opened::hidden))]

mod building;
mod connectives;
mod machine_state;
mod numbers;
mod operand;
mod refusal;
mod stack;
mod term_end;
mod token_roles;

pub use building::{
    Relation, added, conjoined, either, factored, fresh, implication, related, unbound,
};
pub use connectives::{follow, part_in, part_step};
pub use machine_state::{Adding, Before, Frame, Pending, Slot, State};
pub use numbers::short_in;
pub use operand::{begin_array, step_array, step_factor, step_fresh};
pub use refusal::{give_up, refuse};
pub use stack::Stack;
pub use term_end::step_product;
pub use token_roles::{
    Connective, PartStart, bound_in, connective_in, is_close_paren, is_open_brace, is_open_paren,
    name_in, part_start,
};
