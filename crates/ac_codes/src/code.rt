//! The code of a pattern: statements in which metavariables stand for names, expressions, conditions and runs of statements.
use ac_tree::{Name, RelOp};
use sqlite_items::{Boxed, Items};

/// A name in a code: one of the program's, or a metavariable. A metavariable is known by its text with its sign, as `$x`.
#[derive(Drop)]
pub enum CodeName {
    Own(Name),
    Any(Name),
}

/// An expression in a code. `Any` is a metavariable, as `%e`.
#[cycle(code_expr)]
#[derive(Drop)]
pub enum CodeExpr {
    Any(Name),
    Num(u64),
    Get(CodeName),
    Read(CodeName, CodeIndex),
    Neg(Boxed<CodeExpr>),
    Add(Boxed<CodeExpr>, Boxed<CodeExpr>),
    Sub(Boxed<CodeExpr>, Boxed<CodeExpr>),
    Mul(Boxed<CodeExpr>, Boxed<CodeExpr>),
}

/// The indexes of an access.
#[cycle(code_expr)]
#[derive(Drop)]
pub enum CodeIndex {
    One(Boxed<CodeExpr>),
    Two(Boxed<CodeExpr>, Boxed<CodeExpr>),
}

/// A condition in a code. `Any` is a metavariable, as `?c`.
#[cycle(code_cond)]
#[derive(Drop)]
pub enum CodeCond {
    Any(Name),
    True,
    False,
    Rel(RelOp, CodeExpr, CodeExpr),
    Not(Boxed<CodeCond>),
    And(Boxed<CodeCond>, Boxed<CodeCond>),
    Or(Boxed<CodeCond>, Boxed<CodeCond>),
}

/// A statement in a code.
#[cycle(code_stmt)]
#[derive(Drop)]
pub enum CodeStmt {
    Set {
        name: CodeName,
        value: CodeExpr,
    },
    Put {
        name: CodeName,
        index: CodeIndex,
        value: CodeExpr,
    },
    If {
        test: CodeCond,
        yes: CodeBlock,
        no: CodeBlock,
    },
    For {
        name: CodeName,
        lo: CodeExpr,
        hi: CodeExpr,
        body: CodeBlock,
    },
    While {
        test: CodeCond,
        body: CodeBlock,
    },
    Hand {
        name: CodeName,
        role: CodeName,
    },
    Skip,
}

/// A block in a code: all its statements, or those before and behind a metavariable, as `@b`, for a run of any length.
#[cycle(code_stmt)]
#[derive(Drop)]
pub enum CodeBlock {
    Whole(Items<CodeStmt>),
    Around(Items<CodeStmt>, Name, Items<CodeStmt>),
}
