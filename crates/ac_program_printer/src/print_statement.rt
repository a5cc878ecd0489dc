//! The text of statements, each on lines of its own.
ghost use Rattle.std.specs.Prelude.{◌≡◌, ◌++◌, ◌+◌, ◌<◌, ◌≤◌, length, OnOk, string_bytes, codes};
ghost use Rattle.ac_program_printer.specs.Printing.{indent, line, expr_text, index_text, cond_text, stmt_text, list_text, else_line};

use crate::print_condition::write_cond;
use crate::print_expression::{write_expr, write_index};
use ac_tree::{Cond, Expr, Index, Name, Stmt, StmtKind};
use std::alloc::AllocError;

/// Writes two spaces for each enclosing block.
fn write_indent(out: &mut String, depth: u64) -> Result<(), AllocError>
    ensures { OnOk result (string_bytes out.new ≡ string_bytes out.old ++ indent depth) }
{
    for _ in 0..depth {
        out.push_str("  ")?;
    }
    Ok(())
}

/// Writes a line of one text.
pub fn write_line(out: &mut String, depth: u64, text: &str) -> Result<(), AllocError>
    ensures { OnOk result (string_bytes out.new ≡ string_bytes out.old ++ line depth text.now) }
{
    write_indent(out, depth)?;
    out.push_str(text)?;
    out.push_str("\n")
}

/// Writes a value and the end of its line.
fn write_value(out: &mut String, value: &Expr) -> Result<(), AllocError>
    ensures { OnOk result (string_bytes out.new ≡ string_bytes out.old ++ codes " := " ++ expr_text value.now.kind ++ codes ";" ++ codes "\n") }
{
    out.push_str(" := ")?;
    write_expr(out, value)?;
    out.push_str(";\n")
}

fn write_set(out: &mut String, depth: u64, name: &Name, value: &Expr) -> Result<(), AllocError>
    ensures { OnOk result (string_bytes out.new ≡ string_bytes out.old ++ line depth (name.now ++ codes " := " ++ expr_text value.now.kind ++ codes ";")) }
{
    write_indent(out, depth)?;
    out.push_str(name.text())?;
    write_value(out, value)
}

fn write_put(
    out: &mut String,
    depth: u64,
    name: &Name,
    index: &Index,
    value: &Expr,
) -> Result<(), AllocError>
    ensures { OnOk result (string_bytes out.new ≡ string_bytes out.old ++ line depth (name.now ++ index_text index.now ++ codes " := " ++ expr_text value.now.kind ++ codes ";")) }
{
    write_indent(out, depth)?;
    out.push_str(name.text())?;
    write_index(out, index)?;
    write_value(out, value)
}

/// Writes the line that begins an `if` or a `while`.
fn write_test(
    out: &mut String,
    depth: u64,
    before: &str,
    test: &Cond,
    after: &str,
) -> Result<(), AllocError>
    ensures { OnOk result (string_bytes out.new ≡ string_bytes out.old ++ line depth (before.now ++ cond_text test.now.kind ++ after.now)) }
{
    write_indent(out, depth)?;
    out.push_str(before)?;
    write_cond(out, test)?;
    out.push_str(after)?;
    out.push_str("\n")
}

/// Writes the bounds of a `for` and the end of their line.
fn write_bounds(out: &mut String, low: &Expr, high: &Expr) -> Result<(), AllocError>
    ensures { OnOk result (string_bytes out.new ≡ string_bytes out.old ++ codes " := " ++ expr_text low.now.kind ++ codes " to " ++ expr_text high.now.kind ++ codes " do" ++ codes "\n") }
{
    out.push_str(" := ")?;
    write_expr(out, low)?;
    out.push_str(" to ")?;
    write_expr(out, high)?;
    out.push_str(" do\n")
}

/// Writes the line that begins a `for`.
fn write_header(
    out: &mut String,
    depth: u64,
    name: &Name,
    low: &Expr,
    high: &Expr,
) -> Result<(), AllocError>
    ensures { OnOk result (string_bytes out.new ≡ string_bytes out.old ++ line depth (codes "for " ++ name.now ++ codes " := " ++ expr_text low.now.kind ++ codes " to " ++ expr_text high.now.kind ++ codes " do")) }
{
    write_indent(out, depth)?;
    out.push_str("for ")?;
    out.push_str(name.text())?;
    write_bounds(out, low, high)?;
    Ok(())
}

fn write_hand(out: &mut String, depth: u64, name: &Name, role: &Name) -> Result<(), AllocError>
    ensures { OnOk result (string_bytes out.new ≡ string_bytes out.old ++ line depth (codes "use " ++ name.now ++ codes " as " ++ role.now ++ codes ";")) }
{
    write_indent(out, depth)?;
    out.push_str("use ")?;
    out.push_str(name.text())?;
    out.push_str(" as ")?;
    out.push_str(role.text())?;
    out.push_str(";\n")
}

/// The number of blocks round what stands in one more. Each has left bytes in the text that is written, so there are never
/// too many to count.
fn one_deeper(out: &String, depth: u64) -> u64
    requires { depth < length (string_bytes out.now) }
    ensures { result ≡ depth + 1 }
{
    let _written = out.as_str().len();
    depth + 1
}

/// Writes `else`, if the part for no has statements.
fn write_else(out: &mut String, depth: u64, no: &[Stmt]) -> Result<(), AllocError>
    ensures { OnOk result (string_bytes out.new ≡ string_bytes out.old ++ else_line depth no.now) }
{
    if !no.is_empty() {
        write_line(out, depth, "else")?;
    }
    Ok(())
}

/// Writes a statement that stands inside `depth` blocks, each of which has left bytes in the text.
#[cycle(print_stmt)]
#[tactic(auto, using(crate::proofs::PrintRules::print_rules))]
fn write_stmt(out: &mut String, depth: u64, stmt: &Stmt) -> Result<(), AllocError>
    requires { depth ≤ length (string_bytes out.old) }
    ensures { OnOk result (string_bytes out.new ≡ string_bytes out.old ++ stmt_text depth stmt.now.kind) }
{
    match &stmt.kind {
        StmtKind::Set { name, value } => write_set(out, depth, name, value),
        StmtKind::Put { name, index, value } => write_put(out, depth, name, index, value),
        StmtKind::If { test, yes, no } => {
            write_test(out, depth, "if ", test, " then")?;
            let deeper = one_deeper(out, depth);
            write_block(out, deeper, yes.as_slice())?;
            write_else(out, depth, no.as_slice())?;
            write_block(out, deeper, no.as_slice())?;
            write_line(out, depth, "end")?;
            Ok(())
        }
        StmtKind::For { name, lo, hi, body } => {
            write_header(out, depth, name, lo, hi)?;
            let deeper = one_deeper(out, depth);
            write_block(out, deeper, body.as_slice())?;
            write_line(out, depth, "end")?;
            Ok(())
        }
        StmtKind::While { test, body } => {
            write_test(out, depth, "while ", test, " do")?;
            let deeper = one_deeper(out, depth);
            write_block(out, deeper, body.as_slice())?;
            write_line(out, depth, "end")?;
            Ok(())
        }
        StmtKind::Hand { name, role } => write_hand(out, depth, name, role),
        StmtKind::Skip => write_line(out, depth, "skip;"),
    }
}

/// Writes statements that stand inside `depth` blocks, each of which has left bytes in the text.
#[cycle(print_stmt)]
#[tactic(auto, using(crate::proofs::PrintRules::print_rules))]
pub fn write_block(out: &mut String, depth: u64, block: &[Stmt]) -> Result<(), AllocError>
    requires { depth ≤ length (string_bytes out.old) }
    ensures { OnOk result (string_bytes out.new ≡ string_bytes out.old ++ list_text depth block.now) }
{
    for stmt in block {
        write_stmt(out, depth, stmt)?;
    }
    Ok(())
}
