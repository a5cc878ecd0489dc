//! Patterns and their matches.
ghost use Rattle.std.specs.Prelude.{◌≡◌, ◌<◌, ◌^◌, length, is_some};

use crate::code::CodeStmt;
use ac_logic::Formula;
use ac_shared::Shared;
use ac_tree::{Cond, Expr, Name, NodeId, PolicyName, Stmt};
use sqlite_items::Items;

/// A pattern of code, with what it says of a program wherever its code stands. Metavariables are known by their texts with
/// their signs. In the formulas a metavariable stands as the name of a symbol, as in `init($a)` or `%e`.
#[derive(Drop)]
pub struct Pattern {
    pub name: Name,
    /// The policies for which it is looked for.
    pub policies: Items<PolicyName>,
    /// The statements that it looks for.
    pub code: Items<CodeStmt>,
    /// The metavariable of the name whose uses make a match count.
    pub hot: Name,
    /// What holds behind the run.
    pub gives: Option<Shared<Formula>>,
    /// What holds at each loop of the code, in preorder.
    pub loops: Items<Shared<Formula>>,
    /// The metavariables whose values the run leaves as they are.
    pub fixed: Items<Name>,
    pub apart: Items<ApartPair>,
}

impl Pattern {
    /// The policies for which it is looked for.
    pub fn policies(&self) -> &[PolicyName]
        ensures { result.now ≡ self.now.policies }
    {
        self.policies.as_slice()
    }

    /// Whether something holds behind the run.
    pub fn has_gives(&self) -> bool
        ensures { result ≡ is_some self.now.gives }
    {
        self.gives.is_some()
    }

    /// The number of its formulas for loops.
    pub fn loops(&self) -> u32
        requires { length self.now.loops < 2 ^ 32 }
        ensures { result ≡ length self.now.loops }
    {
        self.loops.len() as u32
    }
}

/// What stands for `value` has nothing to do with the name that stands for `name`.
#[derive(Drop)]
pub struct ApartPair {
    pub value: Name,
    pub name: Name,
}

/// What a metavariable stands for.
#[derive(Drop)]
pub enum MatchValue {
    Name(Name),
    Expr(Expr),
    Cond(Cond),
    Run(Items<Stmt>),
}

/// Where a pattern's code stands in a program: a value for each metavariable in the order of their first places in the code,
/// the name that is hot, the number of statements of the run, and the nodes of the code's loops in preorder.
#[derive(Drop)]
pub struct Match {
    pub values: Items<MatchValue>,
    pub hot: Name,
    pub length: u32,
    pub loops: Items<NodeId>,
}
