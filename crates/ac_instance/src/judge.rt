//! Whether a formula speaks of a program. It takes no memory.
ghost use Rattle.std.specs.Prelude.{◌≡◌, not, ◌||◌, if◌then◌else◌, Some, None};
ghost use Rattle.ac_tree.specs.StaticRules.{is_constant, is_input};
ghost use Rattle.ac_instance.specs.Judging.{as_scalar, as_array, has_extents as has_extents_of, term_uses, array_uses, formula_uses, use_wrong, first_wrong};
ghost use Rattle.ac_instance.specs.Wrongs.{wrong_of};

use crate::fault::Reason;
use ac_logic::{ArrayTerm, Formula, Sym, Term};
use ac_tree::{ItemKind, Name, Program, kind_of};

/// A name with which something is wrong.
#[derive(Clone, Copy)]
pub struct WrongName<'f> {
    pub name: &'f Name,
    pub reason: Reason,
}

/// The first name with which something is wrong.
#[tactic(auto, using(crate::proofs::Judged::judge_formula_rules))]
pub fn judge_formula<'f>(program: &Program, formula: &'f Formula) -> Result<(), WrongName<'f>>
    ensures { wrong_of result ≡ first_wrong program.now (formula_uses formula.now) }
{
    match formula {
        Formula::True => Ok(()),
        Formula::False => Ok(()),
        Formula::Le(s, t) => {
            judge_term(program, s.get())?;
            judge_term(program, t.get())
        }
        Formula::Eq(s, t) => {
            judge_term(program, s.get())?;
            judge_term(program, t.get())
        }
        Formula::Not(f) => judge_formula(program, f.get()),
        Formula::And(f, g) => {
            judge_formula(program, f.get())?;
            judge_formula(program, g.get())
        }
        Formula::Or(f, g) => {
            judge_formula(program, f.get())?;
            judge_formula(program, g.get())
        }
        Formula::Implies(f, g) => {
            judge_formula(program, f.get())?;
            judge_formula(program, g.get())
        }
        Formula::All(f) => judge_formula(program, f.get()),
        Formula::Lab(_, f) => judge_formula(program, f.get()),
    }
}

#[cycle(judge_term)]
#[tactic(auto, using(crate::proofs::Judged::judge_term_rules))]
fn judge_term<'f>(program: &Program, term: &'f Term) -> Result<(), WrongName<'f>>
    ensures { wrong_of result ≡ first_wrong program.now (term_uses term.now) }
{
    match term {
        Term::Num(_) => Ok(()),
        Term::Sym(symbol) => judge_scalar(program, symbol),
        Term::Bound(_) => Ok(()),
        Term::Read(a, i, j) => {
            judge_array(program, a.get())?;
            judge_term(program, i.get())?;
            judge_term(program, j.get())
        }
        Term::Add(s, t) => {
            judge_term(program, s.get())?;
            judge_term(program, t.get())
        }
        Term::Sub(s, t) => {
            judge_term(program, s.get())?;
            judge_term(program, t.get())
        }
        Term::Mul(s, t) => {
            judge_term(program, s.get())?;
            judge_term(program, t.get())
        }
        Term::Neg(t) => judge_term(program, t.get()),
    }
}

#[cycle(judge_term)]
#[tactic(auto, using(crate::proofs::Judged::judge_term_rules))]
fn judge_array<'f>(program: &Program, array: &'f ArrayTerm) -> Result<(), WrongName<'f>>
    ensures { wrong_of result ≡ first_wrong program.now (array_uses array.now) }
{
    match array {
        ArrayTerm::Sym(symbol) => judge_array_symbol(program, symbol),
        ArrayTerm::Put(a, i, j, v) => {
            judge_array(program, a.get())?;
            judge_term(program, i.get())?;
            judge_term(program, j.get())?;
            judge_term(program, v.get())
        }
    }
}

fn judge_scalar<'f>(program: &Program, symbol: &'f Sym) -> Result<(), WrongName<'f>>
    ensures { wrong_of result ≡ use_wrong program.now (as_scalar symbol.now) }
{
    match symbol {
        Sym::Value(name) => match kind_of(program.items.as_slice(), name) {
            None => Err(WrongName {
                name,
                reason: Reason::Undeclared,
            }),
            Some(kind) => unless(name, Reason::Rank, has_extents(kind)),
        },
        Sym::Init(name) => match kind_of(program.items.as_slice(), name) {
            None => Err(WrongName {
                name,
                reason: Reason::Undeclared,
            }),
            Some(kind) => {
                unless(name, Reason::Rank, has_extents(kind))?;
                unless(name, Reason::NoShadow, !is_variable(kind))
            }
        },
        Sym::Fresh(_) => Ok(()),
    }
}

fn judge_array_symbol<'f>(program: &Program, symbol: &'f Sym) -> Result<(), WrongName<'f>>
    ensures { wrong_of result ≡ use_wrong program.now (as_array symbol.now) }
{
    match symbol {
        Sym::Value(name) => match kind_of(program.items.as_slice(), name) {
            None => Err(WrongName {
                name,
                reason: Reason::Undeclared,
            }),
            Some(kind) => unless(name, Reason::Rank, !has_extents(kind)),
        },
        Sym::Init(name) => match kind_of(program.items.as_slice(), name) {
            None => Err(WrongName {
                name,
                reason: Reason::Undeclared,
            }),
            Some(kind) => {
                unless(name, Reason::Rank, !has_extents(kind))?;
                unless(name, Reason::NoShadow, !is_variable(kind))
            }
        },
        Sym::Fresh(_) => Ok(()),
    }
}

fn unless(name: &Name, reason: Reason, wrong: bool) -> Result<(), WrongName<'_>>
    ensures { wrong_of result ≡ (if wrong then Some (name.now, reason) else None) }
{
    if wrong {
        Err(WrongName { name, reason })
    } else {
        Ok(())
    }
}

fn has_extents(kind: &ItemKind) -> bool
    ensures { result ≡ has_extents_of kind.now }
{
    match kind {
        ItemKind::InputArray { .. } => true,
        ItemKind::VarArray { .. } => true,
        _ => false,
    }
}

fn is_variable(kind: &ItemKind) -> bool
    ensures { not result ≡ (is_constant kind.now || is_input kind.now) }
{
    match kind {
        ItemKind::VarScalar => true,
        ItemKind::VarArray { .. } => true,
        _ => false,
    }
}
