//! The ground floor of logic: formulas that share their parts, what they mean, and what is made of them.
#![tactic(auto, unfolding(crate::specs::Opened::formula_shape, crate::specs::Opened::formula_child, crate::specs::Opened::term_shape, crate::specs::Opened::term_child, crate::specs::Opened::array_shape, crate::specs::Opened::array_child, crate::specs::Opened::hidden))]

mod absence;
mod closed;
mod condition;
mod equality;
mod formula;
mod label;
mod label_list;
mod laws;
mod measure;
mod opening;
mod readable;
mod renewal;
mod substitution;

pub use absence::{is_absent, is_absent_in_array, is_absent_in_term};
pub use closed::{are_changes_closed, is_closed, is_term_closed};
pub use condition::{Annotation, Condition};
pub use equality::{same, same_array, same_symbol, same_term};
pub use formula::{ArrayTerm, Change, Formula, Sym, Term};
pub use label::{Label, LabelKind};
pub use label_list::labels;
pub use laws::{
    absent_change_law, change_growth_law, change_law, environment_law, opening_law,
    readable_parts_law, two_valued_law,
};
pub use measure::{depth, size};
pub use opening::open_body;
pub use readable::{is_readable, is_readable_term};
pub use renewal::{
    NewPut, NewRead, renew, renew_one, renew_pair, renew_put, renew_read, renew_two,
};
pub use substitution::substitute;
