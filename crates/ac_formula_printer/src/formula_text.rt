//! Writing formulas, and the two calls that print.
ghost use Rattle.std.specs.Prelude.{◌≡◌, ◌++◌, ◌+◌, ◌<◌, ◌≤◌, ◌^◌, List, length, IfOk, OnOk, string_bytes, codes, decimal};
ghost use Rattle.ac_formula_printer.specs.Printing.{is_braced as braced_formula, when, text_of_term, text_of_formula};
ghost use Rattle.ac_formula_printer.specs.FormulaText.{Formulas, Terms};
ghost use Rattle.ac_formula_printer.specs.FormulaTokens.{IsText};
ghost use Rattle.ac_formula_printer.specs.Range.{IsInRange, IsTermInRange};
ghost use Rattle.ac_logic.specs.Labels.{kind_text};
ghost use Rattle.ac_logic.specs.Readable.{IsReadable, IsReadableTerm};

use crate::term_text::{write_count, write_term};
use ac_logic::{Formula, Label, Term};
use std::alloc::{AllocError, Global};

/// Whether a formula stands in braces as an operand.
fn is_braced(formula: &Formula) -> bool
    ensures { result ≡ braced_formula formula.now }
{
    match formula {
        Formula::Not(_)
        | Formula::And(_, _)
        | Formula::Or(_, _)
        | Formula::Implies(_, _)
        | Formula::All(_) => true,
        Formula::True
        | Formula::False
        | Formula::Le(_, _)
        | Formula::Eq(_, _)
        | Formula::Lab(_, _) => false,
    }
}

fn open_operand(out: &mut String, formula: &Formula) -> Result<(), AllocError>
    ensures { OnOk result (string_bytes out.new ≡ string_bytes out.old ++ when (braced_formula formula.now) (codes "{ ")) }
{
    if is_braced(formula) {
        out.push_str("{ ")?;
    }
    Ok(())
}

fn close_operand(out: &mut String, formula: &Formula) -> Result<(), AllocError>
    ensures { OnOk result (string_bytes out.new ≡ string_bytes out.old ++ when (braced_formula formula.now) (codes " }")) }
{
    if is_braced(formula) {
        out.push_str(" }")?;
    }
    Ok(())
}

/// Writes what stands between two operands.
fn write_connective(
    out: &mut String,
    left: &Formula,
    word: &str,
    right: &Formula,
) -> Result<(), AllocError>
    ensures { OnOk result (string_bytes out.new ≡ string_bytes out.old ++ when (braced_formula left.now) (codes " }") ++ word.now ++ when (braced_formula right.now) (codes "{ ")) }
{
    close_operand(out, left)?;
    out.push_str(word)?;
    open_operand(out, right)
}

fn write_relation(
    out: &mut String,
    depth: u64,
    left: &Term,
    sign: &str,
    right: &Term,
) -> Result<(), AllocError>
    ensures text { OnOk result (string_bytes out.new ≡ string_bytes out.old ++ text_of_term depth left.now ++ sign.now ++ text_of_term depth right.now) }
    ensures in_range { OnOk result (IsTermInRange left.now × IsTermInRange right.now) }
{
    write_term(out, depth, left)?;
    out.push_str(sign)?;
    write_term(out, depth, right)
}

/// Writes what stands before the body of an `all`.
fn write_all(out: &mut String, depth: u64) -> Result<(), AllocError>
    ensures { OnOk result (string_bytes out.new ≡ string_bytes out.old ++ codes "all _" ++ decimal depth ++ codes " { ") }
{
    out.push_str("all _")?;
    write_count(out, depth)?;
    out.push_str(" { ")
}

/// Writes what stands before the labelled formula.
fn write_label(out: &mut String, label: &Label) -> Result<(), AllocError>
    ensures text { OnOk result (string_bytes out.new ≡ string_bytes out.old ++ codes "@" ++ kind_text label.now.kind ++ codes " " ++ decimal label.now.node.0 ++ codes " { ") }
    ensures in_range { OnOk result (label.now.node.0 < 2 ^ 32) }
{
    out.push_str("@")?;
    out.push_str(label.kind.text())?;
    out.push_str(" ")?;
    write_count(out, u64::from(label.node.0))?;
    out.push_str(" { ")
}

/// The number of enclosing `all` of what stands in one more. Each has left bytes in the text that is written, so there are
/// never too many to count.
fn one_deeper(out: &String, depth: u64) -> u64
    requires { depth < length (string_bytes out.now) }
    ensures { result ≡ depth + 1 }
{
    let _written = out.as_str().len();
    depth + 1
}

/// Writes a formula that stands inside `depth` enclosing `all`, each of which has left bytes in the text.
fn write_formula(out: &mut String, depth: u64, formula: &Formula) -> Result<(), AllocError>
    requires { depth ≤ length (string_bytes out.old) }
    ensures text { OnOk result (string_bytes out.new ≡ string_bytes out.old ++ text_of_formula depth formula.now) }
    ensures in_range { OnOk result (IsInRange depth formula.now) }
{
    match formula {
        Formula::True => out.push_str("true"),
        Formula::False => out.push_str("false"),
        Formula::Le(left, right) => write_relation(out, depth, left.get(), " <= ", right.get()),
        Formula::Eq(left, right) => write_relation(out, depth, left.get(), " = ", right.get()),
        Formula::Not(inner) => {
            let inner = inner.get();
            out.push_str("not ")?;
            open_operand(out, inner)?;
            write_formula(out, depth, inner)?;
            close_operand(out, inner)?;
            Ok(())
        }
        Formula::And(left, right) => {
            let (left, right) = (left.get(), right.get());
            open_operand(out, left)?;
            write_formula(out, depth, left)?;
            write_connective(out, left, " and ", right)?;
            write_formula(out, depth, right)?;
            close_operand(out, right)?;
            Ok(())
        }
        Formula::Or(left, right) => {
            let (left, right) = (left.get(), right.get());
            open_operand(out, left)?;
            write_formula(out, depth, left)?;
            write_connective(out, left, " or ", right)?;
            write_formula(out, depth, right)?;
            close_operand(out, right)?;
            Ok(())
        }
        Formula::Implies(left, right) => {
            let (left, right) = (left.get(), right.get());
            open_operand(out, left)?;
            write_formula(out, depth, left)?;
            write_connective(out, left, " implies ", right)?;
            write_formula(out, depth, right)?;
            close_operand(out, right)?;
            Ok(())
        }
        Formula::All(inner) => {
            write_all(out, depth)?;
            let deeper = one_deeper(out, depth);
            write_formula(out, deeper, inner.get())?;
            out.push_str(" }")?;
            Ok(())
        }
        Formula::Lab(label, inner) => {
            write_label(out, label)?;
            write_formula(out, depth, inner.get())?;
            out.push_str(" }")?;
            Ok(())
        }
    }
}

/// The text of a term, in time linear in its size. Of a readable term it is a text that spells the term, and no other.
pub fn print_term(alloc: Global, term: &Term) -> Result<String, AllocError>
    ensures text { IfOk result (λ text. string_bytes text ≡ text_of_term 0 term.now) }
    ensures spells { IfOk result (λ text. IsReadableTerm term.now → IsText Terms term.now (string_bytes text)) }
{
    let mut out = String::new(alloc);
    write_term(&mut out, 0, term)?;
    Ok(out)
}

/// The text of a formula, in time linear in its size. Of a readable formula it is a text that spells the formula, and no
/// other.
pub fn print_formula(alloc: Global, formula: &Formula) -> Result<String, AllocError>
    ensures text { IfOk result (λ text. string_bytes text ≡ text_of_formula 0 formula.now) }
    ensures spells { IfOk result (λ text. IsReadable formula.now → IsText Formulas formula.now (string_bytes text)) }
{
    let mut out = String::new(alloc);
    write_formula(&mut out, 0, formula)?;
    Ok(out)
}
