//! Sites: the places of a program that a policy judges.
use ac_logic::Term;
use ac_shared::Shared;
use ac_tree::{Name, NodeId};

/// What a program does at a site.
#[derive(Drop)]
pub enum SiteKind {
    Read,
    Write,
    /// A `use` of a name in a role.
    Hand { role: Name },
}

/// A place where a program reads, writes or uses a name. A missing index is the term 0.
#[derive(Drop)]
pub struct Site {
    pub node: NodeId,
    pub name: Name,
    pub kind: SiteKind,
    pub i: Shared<Term>,
    pub j: Shared<Term>,
}
