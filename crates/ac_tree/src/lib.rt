//! The tree of a program: plain data on which every other crate stands.
//!
//! `Program` and its parts are what a text spells. Expressions stand in boxes and blocks in lists that contracts see as
//! what they hold, so two trees are equal where their texts, numbers and spans are. `specs/` has what an auditor reads
//! of a text: how bytes are cut into tokens, which tokens spell which tree, how nodes are numbered, and the static rules.
#![tactic(auto)]

mod declarations;
mod declared_names;
mod laws;
mod limit;
mod loops;
mod name;
mod name_uses;
mod node;
mod node_positions;
mod path;
mod policy;
mod program;
pub mod rule;
mod statement_rules;
mod static_rules;
mod token;

pub use declared_names::{DeclaredNames, kind_of};
pub use laws::{
    accepted_declarations_are_good, accepted_loops_are_kept, accepted_names_are_declared,
    accepted_writes_are_to_variables, nodes_are_numbered_in_preorder,
};
pub use limit::LimitKind;
pub use name::Name;
pub use node::{Node, NodeId, Span};
pub use node_positions::{Position, positions};
pub use path::{Cut, Pair, Place, Target};
pub use policy::PolicyName;
pub use program::{
    Cond, CondKind, Expr, ExprKind, Extent, Extents, Index, Item, ItemKind, Program, RelOp, Stmt,
    StmtKind,
};
pub use static_rules::{StaticFault, check_static, check_static_by};
pub use token::{ByteKind, Keyword, Mark, Sign, Token};
