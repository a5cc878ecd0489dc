//! The metavariables of a code.
ghost use Rattle.std.specs.Prelude.{◌≡◌, ◌++◌, ◌∷◌, [], IfOk, OnOk};
ghost use Rattle.ac_codes.specs.Metavariables.{name_metas, expr_metas, index_metas, cond_metas, stmt_metas, block_metas, run_metas, distinct as distinct_of, metavariables as metavariables_of};
ghost use Rattle.ac_codes.specs.Listed.{texts_of, with_text, has_text};

use crate::code::{CodeBlock, CodeCond, CodeExpr, CodeIndex, CodeName, CodeStmt};
use ac_tree::Name;
use std::alloc::{AllocError, Global};

/// The metavariables of a code, each once, in the order of their first places.
pub fn metavariables<'p>(alloc: Global, code: &'p [CodeStmt]) -> Result<Vec<&'p Name>, AllocError>
    ensures { IfOk result (λ metas. texts_of metas.items ≡ metavariables_of code.now) }
{
    let mut places = Vec::new(alloc);
    add_run(code, &mut places)?;
    distinct(alloc, places.as_slice())
}

/// Each once, where it comes first.
#[tactic(auto, using(crate::proofs::Listing::distinct_rules))]
fn distinct<'p>(alloc: Global, places: &[&'p Name]) -> Result<Vec<&'p Name>, AllocError>
    ensures { IfOk result (λ metas. texts_of metas.items ≡ distinct_of (texts_of places.now)) }
{
    let mut metas = Vec::new(alloc);
    for meta in places {
        add_once(meta, &mut metas)?;
    }
    Ok(metas)
}

/// Adds a metavariable if it isn't there.
#[tactic(auto, using(crate::proofs::Listing::listing_rules))]
fn add_once<'p>(meta: &'p Name, metas: &mut Vec<&'p Name>) -> Result<(), AllocError>
    ensures { OnOk result (texts_of metas.new.items ≡ with_text (texts_of metas.old.items) meta.now) }
{
    if !contains(metas.as_slice(), meta) {
        metas.push(meta)?;
    }
    Ok(())
}

fn contains(metas: &[&Name], name: &Name) -> bool
    ensures { result ≡ has_text (texts_of metas.now) name.now }
{
    for meta in metas {
        if **meta == *name {
            return true;
        }
    }
    false
}

#[tactic(auto, using(crate::proofs::Listing::listing_rules))]
fn add_meta<'p>(meta: &'p Name, metas: &mut Vec<&'p Name>) -> Result<(), AllocError>
    ensures { OnOk result (texts_of metas.new.items ≡ texts_of metas.old.items ++ meta.now ∷ []) }
{
    metas.push(meta)?;
    Ok(())
}

#[tactic(auto, using(crate::proofs::Listing::listing_rules))]
fn add_name<'p>(code: &'p CodeName, metas: &mut Vec<&'p Name>) -> Result<(), AllocError>
    ensures { OnOk result (texts_of metas.new.items ≡ texts_of metas.old.items ++ name_metas code.now) }
{
    match code {
        CodeName::Own(_) => Ok(()),
        CodeName::Any(meta) => add_meta(meta, metas),
    }
}

#[cycle(add_expr)]
#[tactic(auto, using(crate::proofs::Listing::listing_rules), unfolding(crate::specs::Opened::hidden, crate::specs::Opened::code_expr_shape, crate::specs::Opened::code_expr_child))]
fn add_expr<'p>(code: &'p CodeExpr, metas: &mut Vec<&'p Name>) -> Result<(), AllocError>
    ensures { OnOk result (texts_of metas.new.items ≡ texts_of metas.old.items ++ expr_metas code.now) }
{
    match code {
        CodeExpr::Any(meta) => add_meta(meta, metas),
        CodeExpr::Num(_) => Ok(()),
        CodeExpr::Get(name) => add_name(name, metas),
        CodeExpr::Read(name, index) => {
            add_name(name, metas)?;
            add_index(index, metas)
        }
        CodeExpr::Neg(a) => add_expr(a.get(), metas),
        CodeExpr::Add(a, b) => {
            add_expr(a.get(), metas)?;
            add_expr(b.get(), metas)
        }
        CodeExpr::Sub(a, b) => {
            add_expr(a.get(), metas)?;
            add_expr(b.get(), metas)
        }
        CodeExpr::Mul(a, b) => {
            add_expr(a.get(), metas)?;
            add_expr(b.get(), metas)
        }
    }
}

#[cycle(add_expr)]
#[tactic(auto, using(crate::proofs::Listing::listing_rules), unfolding(crate::specs::Opened::hidden, crate::specs::Opened::code_expr_shape, crate::specs::Opened::code_expr_child))]
fn add_index<'p>(code: &'p CodeIndex, metas: &mut Vec<&'p Name>) -> Result<(), AllocError>
    ensures { OnOk result (texts_of metas.new.items ≡ texts_of metas.old.items ++ index_metas code.now) }
{
    match code {
        CodeIndex::One(a) => add_expr(a.get(), metas),
        CodeIndex::Two(a, b) => {
            add_expr(a.get(), metas)?;
            add_expr(b.get(), metas)
        }
    }
}

#[tactic(auto, using(crate::proofs::Listing::listing_rules), unfolding(crate::specs::Opened::hidden, crate::specs::Opened::code_cond_shape, crate::specs::Opened::code_cond_child))]
fn add_cond<'p>(code: &'p CodeCond, metas: &mut Vec<&'p Name>) -> Result<(), AllocError>
    ensures { OnOk result (texts_of metas.new.items ≡ texts_of metas.old.items ++ cond_metas code.now) }
{
    match code {
        CodeCond::Any(meta) => add_meta(meta, metas),
        CodeCond::True => Ok(()),
        CodeCond::False => Ok(()),
        CodeCond::Rel(_, a, b) => {
            add_expr(a, metas)?;
            add_expr(b, metas)
        }
        CodeCond::Not(c) => add_cond(c.get(), metas),
        CodeCond::And(c, d) => {
            add_cond(c.get(), metas)?;
            add_cond(d.get(), metas)
        }
        CodeCond::Or(c, d) => {
            add_cond(c.get(), metas)?;
            add_cond(d.get(), metas)
        }
    }
}

#[cycle(add_stmt)]
#[tactic(auto, using(crate::proofs::Listing::listing_rules))]
fn add_stmt<'p>(code: &'p CodeStmt, metas: &mut Vec<&'p Name>) -> Result<(), AllocError>
    ensures { OnOk result (texts_of metas.new.items ≡ texts_of metas.old.items ++ stmt_metas code.now) }
{
    match code {
        CodeStmt::Set { name, value } => {
            add_name(name, metas)?;
            add_expr(value, metas)
        }
        CodeStmt::Put { name, index, value } => {
            add_name(name, metas)?;
            add_index(index, metas)?;
            add_expr(value, metas)
        }
        CodeStmt::If { test, yes, no } => {
            add_cond(test, metas)?;
            add_block(yes, metas)?;
            add_block(no, metas)
        }
        CodeStmt::For { name, lo, hi, body } => {
            add_name(name, metas)?;
            add_expr(lo, metas)?;
            add_expr(hi, metas)?;
            add_block(body, metas)
        }
        CodeStmt::While { test, body } => {
            add_cond(test, metas)?;
            add_block(body, metas)
        }
        CodeStmt::Hand { name, role } => {
            add_name(name, metas)?;
            add_name(role, metas)
        }
        CodeStmt::Skip => Ok(()),
    }
}

#[cycle(add_stmt)]
#[tactic(auto, using(crate::proofs::Listing::listing_rules))]
fn add_block<'p>(code: &'p CodeBlock, metas: &mut Vec<&'p Name>) -> Result<(), AllocError>
    ensures { OnOk result (texts_of metas.new.items ≡ texts_of metas.old.items ++ block_metas code.now) }
{
    match code {
        CodeBlock::Whole(code) => add_run(code.as_slice(), metas),
        CodeBlock::Around(first, meta, last) => {
            add_run(first.as_slice(), metas)?;
            add_meta(meta, metas)?;
            add_run(last.as_slice(), metas)?;
            Ok(())
        }
    }
}

#[cycle(add_stmt)]
#[tactic(auto, using(crate::proofs::Listing::listing_rules))]
fn add_run<'p>(code: &'p [CodeStmt], metas: &mut Vec<&'p Name>) -> Result<(), AllocError>
    ensures { OnOk result (texts_of metas.new.items ≡ texts_of metas.old.items ++ run_metas code.now) }
{
    for stmt in code {
        add_stmt(stmt, metas)?;
    }
    Ok(())
}
