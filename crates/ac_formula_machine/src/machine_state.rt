//! What the machine that reads formula text stands at: what is due, and what stands open around it.
use ac_logic::{ArrayTerm, Formula, Label, LabelKind, Term};
use ac_tree::{Name, RelOp};

/// What stands before a product: nothing, or a term and a sign.
#[derive(Drop)]
pub enum Adding {
    Nothing,
    Plus(Term),
    Minus(Term),
}

/// What stands before a factor in the term that is being read.
#[derive(Drop)]
pub struct Pending {
    pub sum: Adding,
    pub product: Option<Term>,
    pub minus: bool,
}

/// Where an array stands: in a term, or as the first part of the `put` on top of the stack.
#[derive(Drop)]
pub enum Slot {
    Atom(Pending),
    Put,
}

/// What stands before a part in the formula that is being read.
#[derive(Drop)]
pub struct Before {
    pub or: Option<Formula>,
    pub and: Option<Formula>,
    pub nots: u64,
}

/// What has been read around the term or formula that is being read.
#[derive(Drop)]
pub enum Frame {
    Paren(Pending),
    First(Pending, ArrayTerm),
    Second(Pending, ArrayTerm, Term),
    Put(Slot),
    PutFirst(Slot, ArrayTerm),
    PutSecond(Slot, ArrayTerm, Term),
    PutValue(Slot, ArrayTerm, Term, Term),
    Left(Before),
    Right(Before, Term, RelOp),
    Antecedent(Formula),
    Braces(Before),
    All(Before, Name),
    Lab(Before, Label),
}

/// What has been read last.
#[derive(Drop)]
pub enum State {
    /// A factor is due.
    Factor(Pending),
    /// The literal behind `#` is due.
    Fresh(Pending),
    InitWord(Slot),
    InitOpen(Slot),
    InitName(Slot, Name),
    PutWord(Slot),
    /// The array behind `put (` is due.
    ArrayDue,
    Array(Slot, ArrayTerm),
    Product(Adding, Term),
    /// A part is due.
    Part(Before),
    AllWord(Before),
    AllName(Before, Name),
    AtSign(Before),
    AtKind(Before, LabelKind),
    AtLabel(Before, Label),
    Conj(Option<Formula>, Formula),
}
