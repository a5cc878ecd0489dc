//! The text of declarations and of the whole program.
ghost use Rattle.std.specs.Prelude.{◌≡◌, ◌++◌, IfOk, OnOk, string_bytes, codes, decimal};
ghost use Rattle.std.specs.Fmt.{signed_decimal};
ghost use Rattle.ac_program_printer.specs.Printing.{line, extent_text, extents_text, range_text, item_text, items_text, program_text};

use crate::print_expression::write_number;
use crate::print_statement::{write_block, write_line};
use ac_tree::{Extent, Extents, Item, ItemKind, Name, Program};
use std::alloc::{AllocError, Global};

fn write_int(out: &mut String, number: i64) -> Result<(), AllocError>
    ensures { OnOk result (string_bytes out.new ≡ string_bytes out.old ++ signed_decimal number) }
{
    write!(out, "{number}")
}

fn write_extent(out: &mut String, extent: &Extent) -> Result<(), AllocError>
    ensures { OnOk result (string_bytes out.new ≡ string_bytes out.old ++ extent_text extent.now) }
{
    match extent {
        Extent::Lit(number) => write_number(out, *number),
        Extent::Named(name) => out.push_str(name.text()),
    }
}

fn write_extents(out: &mut String, extents: &Extents) -> Result<(), AllocError>
    ensures { OnOk result (string_bytes out.new ≡ string_bytes out.old ++ extents_text extents.now) }
{
    match extents {
        Extents::One(only) => {
            out.push_str("[")?;
            write_extent(out, only)?;
            out.push_str("]")
        }
        Extents::Two(rows, columns) => {
            out.push_str("[")?;
            write_extent(out, rows)?;
            out.push_str(",")?;
            write_extent(out, columns)?;
            out.push_str("]")
        }
    }
}

/// Writes the range of an input and the end of its declaration.
fn write_range(out: &mut String, low: i64, high: i64) -> Result<(), AllocError>
    ensures { OnOk result (string_bytes out.new ≡ string_bytes out.old ++ range_text (signed_decimal low) (signed_decimal high)) }
{
    out.push_str(" : ")?;
    write_int(out, low)?;
    out.push_str(" .. ")?;
    write_int(out, high)?;
    out.push_str(";")
}

/// Writes the first word of a declaration and its name.
fn write_named(out: &mut String, word: &str, name: &Name) -> Result<(), AllocError>
    ensures { OnOk result (string_bytes out.new ≡ string_bytes out.old ++ word.now ++ name.now) }
{
    out.push_str(word)?;
    out.push_str(name.text())
}

fn write_item(out: &mut String, item: &Item) -> Result<(), AllocError>
    ensures { OnOk result (string_bytes out.new ≡ string_bytes out.old ++ item_text item.now.name item.now.kind) }
{
    match &item.kind {
        ItemKind::Const { value } => {
            write_named(out, "const ", &item.name)?;
            out.push_str(" = ")?;
            write_int(out, *value)?;
            out.push_str(";")
        }
        ItemKind::InputScalar { lo, hi } => {
            write_named(out, "input ", &item.name)?;
            write_range(out, *lo, *hi)
        }
        ItemKind::InputArray { extents, lo, hi } => {
            write_named(out, "input ", &item.name)?;
            write_extents(out, extents)?;
            write_range(out, *lo, *hi)
        }
        ItemKind::VarScalar => {
            write_named(out, "var ", &item.name)?;
            out.push_str(";")
        }
        ItemKind::VarArray { extents } => {
            write_named(out, "var ", &item.name)?;
            write_extents(out, extents)?;
            out.push_str(";")
        }
    }
}

fn write_items(out: &mut String, items: &[Item]) -> Result<(), AllocError>
    ensures { OnOk result (string_bytes out.new ≡ string_bytes out.old ++ items_text items.now) }
{
    for item in items {
        write_item(out, item)?;
        out.push_str("\n")?;
    }
    Ok(())
}

/// The text of a program, in time linear in its length: each declaration and each statement on its own line, two spaces for
/// each enclosing block, and parentheses and braces only round operands that are operations themselves. The text of a
/// program whose nodes are numbered and whose names are names spells the same program up to spans.
pub fn print(alloc: Global, program: &Program) -> Result<String, AllocError>
    ensures { IfOk result (λ text. string_bytes text ≡ program_text program.now) }
{
    let mut out = String::new(alloc);
    write_items(&mut out, program.items.as_slice())?;
    write_line(&mut out, 0, "begin")?;
    write_block(&mut out, 1, program.body.as_slice())?;
    write_line(&mut out, 0, "end")?;
    Ok(out)
}
