//! The text of expressions and indexes.
ghost use Rattle.std.specs.Prelude.{◌≡◌, ◌++◌, OnOk, string_bytes, codes, decimal};
ghost use Rattle.ac_program_printer.specs.Printing.{is_grouped as grouped_kind, when, in_parens, expr_text, index_text};

use ac_tree::{Expr, ExprKind, Index};
use std::alloc::AllocError;

/// Whether an expression stands in parentheses as an operand.
#[tactic(auto, unfolding(crate::specs::Opened::hidden, crate::specs::Opened::expr_shape, crate::specs::Opened::expr_child))]
fn is_grouped(expr: &Expr) -> bool
    ensures { result ≡ grouped_kind expr.now.kind }
{
    match &expr.kind {
        ExprKind::Num(_) | ExprKind::Get(_) | ExprKind::Read(_, _) => false,
        ExprKind::Neg(_) | ExprKind::Add(_, _) | ExprKind::Sub(_, _) | ExprKind::Mul(_, _) => true,
    }
}

fn open_operand(out: &mut String, operand: &Expr) -> Result<(), AllocError>
    ensures { OnOk result (string_bytes out.new ≡ string_bytes out.old ++ when (grouped_kind operand.now.kind) (codes "(")) }
{
    if is_grouped(operand) {
        out.push_str("(")?;
    }
    Ok(())
}

fn close_operand(out: &mut String, operand: &Expr) -> Result<(), AllocError>
    ensures { OnOk result (string_bytes out.new ≡ string_bytes out.old ++ when (grouped_kind operand.now.kind) (codes ")")) }
{
    if is_grouped(operand) {
        out.push_str(")")?;
    }
    Ok(())
}

/// Writes what stands between two operands.
fn write_operator(out: &mut String, left: &Expr, sign: &str, right: &Expr) -> Result<(), AllocError>
    ensures { OnOk result (string_bytes out.new ≡ string_bytes out.old ++ when (grouped_kind left.now.kind) (codes ")") ++ sign.now ++ when (grouped_kind right.now.kind) (codes "(")) }
{
    close_operand(out, left)?;
    out.push_str(sign)?;
    open_operand(out, right)
}

pub fn write_number(out: &mut String, number: u64) -> Result<(), AllocError>
    ensures { OnOk result (string_bytes out.new ≡ string_bytes out.old ++ decimal number) }
{
    write!(out, "{number}")
}

/// Writes an expression.
#[cycle(print_expr)]
#[tactic(auto, unfolding(crate::specs::Opened::hidden, crate::specs::Opened::expr_shape, crate::specs::Opened::expr_child))]
pub fn write_expr(out: &mut String, expr: &Expr) -> Result<(), AllocError>
    ensures { OnOk result (string_bytes out.new ≡ string_bytes out.old ++ expr_text expr.now.kind) }
{
    match &expr.kind {
        ExprKind::Num(number) => write_number(out, *number),
        ExprKind::Get(name) => out.push_str(name.text()),
        ExprKind::Read(name, index) => {
            out.push_str(name.text())?;
            write_index(out, index)
        }
        ExprKind::Neg(operand) => {
            let operand = operand.get();
            out.push_str("-")?;
            open_operand(out, operand)?;
            write_expr(out, operand)?;
            close_operand(out, operand)?;
            Ok(())
        }
        ExprKind::Add(left, right) => {
            let (left, right) = (left.get(), right.get());
            open_operand(out, left)?;
            write_expr(out, left)?;
            write_operator(out, left, " + ", right)?;
            write_expr(out, right)?;
            close_operand(out, right)?;
            Ok(())
        }
        ExprKind::Sub(left, right) => {
            let (left, right) = (left.get(), right.get());
            open_operand(out, left)?;
            write_expr(out, left)?;
            write_operator(out, left, " - ", right)?;
            write_expr(out, right)?;
            close_operand(out, right)?;
            Ok(())
        }
        ExprKind::Mul(left, right) => {
            let (left, right) = (left.get(), right.get());
            open_operand(out, left)?;
            write_expr(out, left)?;
            write_operator(out, left, " * ", right)?;
            write_expr(out, right)?;
            close_operand(out, right)?;
            Ok(())
        }
    }
}

/// Writes an index.
#[cycle(print_expr)]
#[tactic(auto, unfolding(crate::specs::Opened::hidden, crate::specs::Opened::expr_shape, crate::specs::Opened::expr_child))]
pub fn write_index(out: &mut String, index: &Index) -> Result<(), AllocError>
    ensures { OnOk result (string_bytes out.new ≡ string_bytes out.old ++ index_text index.now) }
{
    match index {
        Index::One(only) => {
            out.push_str("[")?;
            write_expr(out, only.get())?;
            out.push_str("]")
        }
        Index::Two(row, column) => {
            let (row, column) = (row.get(), column.get());
            out.push_str("[")?;
            write_expr(out, row)?;
            out.push_str(",")?;
            write_expr(out, column)?;
            out.push_str("]")?;
            Ok(())
        }
    }
}
