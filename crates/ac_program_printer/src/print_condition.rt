//! The text of conditions.
ghost use Rattle.std.specs.Prelude.{◌≡◌, ◌++◌, OnOk, string_bytes, codes};
ghost use Rattle.ac_program_printer.specs.Printing.{is_braced as braced_kind, when, in_braces, relation_text, expr_text, cond_text};

use crate::print_expression::write_expr;
use ac_tree::{Cond, CondKind, Expr, RelOp};
use std::alloc::AllocError;

/// The sign of a relation and the spaces round it.
fn relation_sign(relation: RelOp) -> &'static str
    ensures { result.now ≡ relation_text relation }
{
    match relation {
        RelOp::Eq => " = ",
        RelOp::Ne => " <> ",
        RelOp::Lt => " < ",
        RelOp::Le => " <= ",
        RelOp::Gt => " > ",
        RelOp::Ge => " >= ",
    }
}

/// Whether a condition stands in braces as an operand.
#[tactic(auto, unfolding(crate::specs::Opened::hidden, crate::specs::Opened::cond_shape, crate::specs::Opened::cond_child))]
fn is_braced(cond: &Cond) -> bool
    ensures { result ≡ braced_kind cond.now.kind }
{
    match &cond.kind {
        CondKind::True | CondKind::False | CondKind::Rel(_, _, _) => false,
        CondKind::Not(_) | CondKind::And(_, _) | CondKind::Or(_, _) => true,
    }
}

fn open_operand(out: &mut String, operand: &Cond) -> Result<(), AllocError>
    ensures { OnOk result (string_bytes out.new ≡ string_bytes out.old ++ when (braced_kind operand.now.kind) (codes "{ ")) }
{
    if is_braced(operand) {
        out.push_str("{ ")?;
    }
    Ok(())
}

fn close_operand(out: &mut String, operand: &Cond) -> Result<(), AllocError>
    ensures { OnOk result (string_bytes out.new ≡ string_bytes out.old ++ when (braced_kind operand.now.kind) (codes " }")) }
{
    if is_braced(operand) {
        out.push_str(" }")?;
    }
    Ok(())
}

/// Writes what stands between two operands.
fn write_operator(out: &mut String, left: &Cond, word: &str, right: &Cond) -> Result<(), AllocError>
    ensures { OnOk result (string_bytes out.new ≡ string_bytes out.old ++ when (braced_kind left.now.kind) (codes " }") ++ word.now ++ when (braced_kind right.now.kind) (codes "{ ")) }
{
    close_operand(out, left)?;
    out.push_str(word)?;
    open_operand(out, right)
}

fn write_comparison(
    out: &mut String,
    relation: RelOp,
    left: &Expr,
    right: &Expr,
) -> Result<(), AllocError>
    ensures { OnOk result (string_bytes out.new ≡ string_bytes out.old ++ expr_text left.now.kind ++ relation_text relation ++ expr_text right.now.kind) }
{
    write_expr(out, left)?;
    out.push_str(relation_sign(relation))?;
    write_expr(out, right)
}

/// Writes a condition.
#[tactic(auto, unfolding(crate::specs::Opened::hidden, crate::specs::Opened::cond_shape, crate::specs::Opened::cond_child))]
pub fn write_cond(out: &mut String, cond: &Cond) -> Result<(), AllocError>
    ensures { OnOk result (string_bytes out.new ≡ string_bytes out.old ++ cond_text cond.now.kind) }
{
    match &cond.kind {
        CondKind::True => out.push_str("true"),
        CondKind::False => out.push_str("false"),
        CondKind::Rel(relation, left, right) => {
            write_comparison(out, *relation, left.get(), right.get())
        }
        CondKind::Not(operand) => {
            let operand = operand.get();
            out.push_str("not ")?;
            open_operand(out, operand)?;
            write_cond(out, operand)?;
            close_operand(out, operand)?;
            Ok(())
        }
        CondKind::And(left, right) => {
            let (left, right) = (left.get(), right.get());
            open_operand(out, left)?;
            write_cond(out, left)?;
            write_operator(out, left, " and ", right)?;
            write_cond(out, right)?;
            close_operand(out, right)?;
            Ok(())
        }
        CondKind::Or(left, right) => {
            let (left, right) = (left.get(), right.get());
            open_operand(out, left)?;
            write_cond(out, left)?;
            write_operator(out, left, " or ", right)?;
            write_cond(out, right)?;
            close_operand(out, right)?;
            Ok(())
        }
    }
}
