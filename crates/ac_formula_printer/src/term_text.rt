//! Writing terms and arrays.
ghost use Rattle.std.specs.Prelude.{◌≡◌, ◌++◌, List, IfOk, OnOk, string_bytes, ◌+◌, ◌-◌, codes, is_ok, decimal};
ghost use Rattle.std.specs.Fmt.{signed_decimal};
ghost use Rattle.ac_formula_printer.specs.Printing.{text_of_sym, is_grouped as grouped_term, is_zero as zero_term, when, text_of_term, text_of_array};
ghost use Rattle.ac_formula_printer.specs.Range.{IsArrayInRange, IsNumberInRange, IsSymInRange, IsTermInRange};

use ac_logic::{ArrayTerm, Sym, Term};
use std::alloc::{AllocError, Global};

fn write_number(out: &mut String, number: i64) -> Result<(), AllocError>
    ensures text { OnOk result (string_bytes out.new ≡ string_bytes out.old ++ signed_decimal number) }
    ensures in_range { OnOk result (IsNumberInRange number) }
{
    write!(out, "{number}")
}

pub(crate) fn write_count(out: &mut String, count: u64) -> Result<(), AllocError>
    ensures { OnOk result (string_bytes out.new ≡ string_bytes out.old ++ decimal count) }
{
    write!(out, "{count}")
}

fn write_sym(out: &mut String, sym: &Sym) -> Result<(), AllocError>
    ensures text { OnOk result (string_bytes out.new ≡ string_bytes out.old ++ text_of_sym sym.now) }
    ensures in_range { OnOk result (IsSymInRange sym.now) }
{
    match sym {
        Sym::Value(name) => out.push_str(name.text()),
        Sym::Init(name) => {
            out.push_str("init(")?;
            out.push_str(name.text())?;
            out.push_str(")")
        }
        Sym::Fresh(number) => {
            out.push_str("#")?;
            write_count(out, u64::from(*number))
        }
    }
}

/// Whether a term stands in parentheses as an operand.
fn is_grouped(term: &Term) -> bool
    ensures { result ≡ grouped_term term.now }
{
    match term {
        Term::Num(number) => *number < 0,
        Term::Sym(_) | Term::Bound(_) | Term::Read(_, _, _) => false,
        Term::Add(_, _) | Term::Sub(_, _) | Term::Mul(_, _) | Term::Neg(_) => true,
    }
}

fn is_zero(term: &Term) -> bool
    ensures { result ≡ zero_term term.now }
{
    match term {
        Term::Num(number) => *number == 0,
        Term::Sym(_) | Term::Bound(_) | Term::Read(_, _, _) => false,
        Term::Add(_, _) | Term::Sub(_, _) | Term::Mul(_, _) | Term::Neg(_) => false,
    }
}

fn open_operand(out: &mut String, term: &Term) -> Result<(), AllocError>
    ensures { OnOk result (string_bytes out.new ≡ string_bytes out.old ++ when (grouped_term term.now) (codes "(")) }
{
    if is_grouped(term) {
        out.push_str("(")?;
    }
    Ok(())
}

fn close_operand(out: &mut String, term: &Term) -> Result<(), AllocError>
    ensures { OnOk result (string_bytes out.new ≡ string_bytes out.old ++ when (grouped_term term.now) (codes ")")) }
{
    if is_grouped(term) {
        out.push_str(")")?;
    }
    Ok(())
}

/// Writes what stands between two operands.
fn write_operator(out: &mut String, left: &Term, sign: &str, right: &Term) -> Result<(), AllocError>
    ensures { OnOk result (string_bytes out.new ≡ string_bytes out.old ++ when (grouped_term left.now) (codes ")") ++ sign.now ++ when (grouped_term right.now) (codes "(")) }
{
    close_operand(out, left)?;
    out.push_str(sign)?;
    open_operand(out, right)
}

fn write_bound(out: &mut String, depth: u64, bound: u32) -> Result<(), AllocError>
    ensures { OnOk result (string_bytes out.new ≡ string_bytes out.old ++ codes "_" ++ decimal (depth - 1 - bound)) }
{
    out.push_str("_")?;
    write_count(
        out,
        depth.saturating_sub(1).saturating_sub(u64::from(bound)),
    )
}

/// Writes a term that stands inside `depth` enclosing `all`. Its numbers are seen on the way to be within their types.
#[cycle(write)]
pub(crate) fn write_term(out: &mut String, depth: u64, term: &Term) -> Result<(), AllocError>
    ensures text { OnOk result (string_bytes out.new ≡ string_bytes out.old ++ text_of_term depth term.now) }
    ensures in_range { OnOk result (IsTermInRange term.now) }
{
    match term {
        Term::Num(number) => write_number(out, *number),
        Term::Sym(sym) => write_sym(out, sym),
        Term::Bound(bound) => write_bound(out, depth, *bound),
        Term::Read(array, first, second) => {
            let (array, first, second) = (array.get(), first.get(), second.get());
            write_array(out, depth, array)?;
            out.push_str("[")?;
            write_term(out, depth, first)?;
            if is_zero(second) {
                out.push_str("]")?;
                return Ok(());
            }
            out.push_str(",")?;
            write_term(out, depth, second)?;
            out.push_str("]")?;
            Ok(())
        }
        Term::Add(left, right) => {
            let (left, right) = (left.get(), right.get());
            open_operand(out, left)?;
            write_term(out, depth, left)?;
            write_operator(out, left, " + ", right)?;
            write_term(out, depth, right)?;
            close_operand(out, right)?;
            Ok(())
        }
        Term::Sub(left, right) => {
            let (left, right) = (left.get(), right.get());
            open_operand(out, left)?;
            write_term(out, depth, left)?;
            write_operator(out, left, " - ", right)?;
            write_term(out, depth, right)?;
            close_operand(out, right)?;
            Ok(())
        }
        Term::Mul(left, right) => {
            let (left, right) = (left.get(), right.get());
            open_operand(out, left)?;
            write_term(out, depth, left)?;
            write_operator(out, left, " * ", right)?;
            write_term(out, depth, right)?;
            close_operand(out, right)?;
            Ok(())
        }
        Term::Neg(inner) => {
            out.push_str("-(")?;
            write_term(out, depth, inner.get())?;
            out.push_str(")")
        }
    }
}

#[cycle(write)]
fn write_array(out: &mut String, depth: u64, array: &ArrayTerm) -> Result<(), AllocError>
    ensures text { OnOk result (string_bytes out.new ≡ string_bytes out.old ++ text_of_array depth array.now) }
    ensures in_range { OnOk result (IsArrayInRange array.now) }
{
    match array {
        ArrayTerm::Sym(sym) => write_sym(out, sym),
        ArrayTerm::Put(inner, first, second, value) => {
            let (inner, value) = (inner.get(), value.get());
            let (first, second) = (first.get(), second.get());
            out.push_str("put(")?;
            write_array(out, depth, inner)?;
            out.push_str(", ")?;
            write_term(out, depth, first)?;
            out.push_str(", ")?;
            write_term(out, depth, second)?;
            out.push_str(", ")?;
            write_term(out, depth, value)?;
            out.push_str(")")?;
            Ok(())
        }
    }
}
