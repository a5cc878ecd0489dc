//! Safety policies: what each forbids, the formulas by which a certificate shows that none of it comes, and why they serve.
//!
//! A program has sites, at which it reads, writes or uses a name. A policy says what is to be shown at a site, what a write
//! does to its shadow variables, and what it knows of a written scalar. The trait `Policy` has beside these the meaning of a
//! policy and the laws that join both, so that a proof over every policy needs nothing else. `specs/` says, in this order,
//! the terms of expressions, the sites of a program, the valuation of a state, formulas on the cells of an array, the three
//! policies, what a plain formula is, and the laws. Reading may stop at `Laws`: the files after it, `GoodExtents`,
//! `ExtentValues`, `FittingStart` and those whose names end in `Laws`, prove that the three policies have the laws, and no
//! promise rests on them.
#![tactic(auto, unfolding(crate::specs::Opened::formula_shape, crate::specs::Opened::formula_child, crate::specs::Opened::term_shape, crate::specs::Opened::term_child, crate::specs::Opened::array_shape, crate::specs::Opened::array_child, crate::specs::Opened::expr_shape, crate::specs::Opened::expr_child, crate::specs::Opened::cond_shape, crate::specs::Opened::cond_child, crate::specs::Opened::stmt_shape, crate::specs::Opened::stmt_child, crate::specs::Opened::hidden))]

mod any_policy;
mod bounds;
mod extents;
mod init;
mod laws;
mod policy;
mod site;
mod site_list;
mod symm;
mod terms;

pub use any_policy::AnyPolicy;
pub use extents::{
    ExtentTerms, cell_term, column_index, extent_terms, for_all_cells, indexes_within, row_index,
};
pub use laws::{shadow_changes_leave_values, sites_meet_the_laws, sites_stand_in_order};
pub use policy::Policy;
pub use site::{Site, SiteKind};
pub use site_list::{scalar_write, sites};
pub use terms::{first_index, literal_term, scalar_term, second_index, term_of};
