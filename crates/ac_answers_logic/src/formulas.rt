//! Asks about formulas and terms.
ghost use Rattle.std.specs.Prelude.{IfOk, IfSome, length, ◌<◌, ◌^◌};

use crate::height::is_low;
use ac_asks::{Answer, list_at, text_at};
use ac_formula_reader::FormulaFault;
use ac_logic::{ArrayTerm, Change, Formula, Label, Sym, Term};
use ac_shared::Shared;
use serde_json::{Value, json};
use std::alloc::{AllocError, Global};

/// The formula that a text is; none where it is none, or one that may be too high.
pub fn formula(alloc: Global, text: &str) -> Result<Option<Shared<Formula>>, AllocError> {
    if !is_low(alloc, text)? {
        return Ok(None);
    }
    match ac_formula_reader::read_formula(alloc, text) {
        Ok(formula) => Ok(Some(formula)),
        Err(FormulaFault::At { at: _ }) => Ok(None),
        Err(FormulaFault::OutOfMemory) => Err(AllocError),
    }
}

/// The term that a text is; none where it is none, or one that may be too high.
pub fn term(alloc: Global, text: &str) -> Result<Option<Shared<Term>>, AllocError> {
    if !is_low(alloc, text)? {
        return Ok(None);
    }
    match ac_formula_reader::read_term(alloc, text) {
        Ok(term) => Ok(Some(term)),
        Err(FormulaFault::At { at: _ }) => Ok(None),
        Err(FormulaFault::OutOfMemory) => Err(AllocError),
    }
}

/// `{"at":N}`, or the formula's measures, labels and print.
pub fn read_formula(alloc: Global, ask: &Value) -> Answer {
    let Some(text) = low_text(alloc, ask)? else {
        return Ok(None);
    };
    match ac_formula_reader::read_formula(alloc, text) {
        Ok(formula) => Ok(Some(described(alloc, formula.get())?)),
        Err(fault) => fault_answer(alloc, fault),
    }
}

fn low_text<'a>(alloc: Global, ask: &'a Value) -> Result<Option<&'a str>, AllocError>
    ensures { IfOk result (λ found. IfSome found (λ text. length text.now < 2 ^ 32)) }
{
    match text_at(ask, "text") {
        Some(text) if is_low(alloc, text)? => Ok(Some(text)),
        _ => Ok(None),
    }
}

fn fault_answer(alloc: Global, fault: FormulaFault) -> Answer {
    match fault {
        FormulaFault::At { at } => Ok(Some(json!(in alloc; {"at": at})?)),
        FormulaFault::OutOfMemory => Err(anyhow::Error::from(AllocError)),
    }
}

fn described(alloc: Global, formula: &Formula) -> anyhow::Result<Value> {
    let depth = ac_logic::depth(formula);
    let size = ac_logic::size(formula);
    let labels = label_list(alloc, formula)?;
    let print = ac_formula_printer::print_formula(alloc, formula)?;
    Ok(json!(in alloc; {"depth": depth, "labels": labels, "print": print, "size": size})?)
}

fn label_list(alloc: Global, formula: &Formula) -> anyhow::Result<Value> {
    let mut list = Vec::new(alloc);
    for label in ac_logic::labels(alloc, formula)?.iter() {
        list.push(label_pair(alloc, *label)?)?;
    }
    Ok(Value::Array(list))
}

fn label_pair(alloc: Global, label: Label) -> anyhow::Result<Value> {
    let kind = label.kind.text();
    let node = label.node.0;
    Ok(json!(in alloc; [kind, node])?)
}

/// `{"at":N}`, or the term's print.
pub fn read_term(alloc: Global, ask: &Value) -> Answer {
    let Some(text) = low_text(alloc, ask)? else {
        return Ok(None);
    };
    match ac_formula_reader::read_term(alloc, text) {
        Ok(term) => printed_term(alloc, term.get()),
        Err(fault) => fault_answer(alloc, fault),
    }
}

fn printed_term(alloc: Global, term: &Term) -> Answer {
    let print = ac_formula_printer::print_term(alloc, term)?;
    Ok(Some(json!(in alloc; {"print": print})?))
}

/// Whether two formulas are the same tree.
pub fn same(alloc: Global, ask: &Value) -> Answer {
    let (Some(a), Some(b)) = (formula_at(alloc, ask, "a")?, formula_at(alloc, ask, "b")?) else {
        return Ok(None);
    };
    let same = ac_logic::same(a.get(), b.get());
    Ok(Some(json!(in alloc; {"same": same})?))
}

/// The formula under a key.
pub fn formula_at(
    alloc: Global,
    ask: &Value,
    key: &str,
) -> Result<Option<Shared<Formula>>, AllocError> {
    let Some(text) = text_at(ask, key) else {
        return Ok(None);
    };
    formula(alloc, text)
}

fn printed(alloc: Global, formula: &Formula) -> Answer {
    let print = ac_formula_printer::print_formula(alloc, formula)?;
    Ok(Some(json!(in alloc; {"print": print})?))
}

/// The print of the simplified formula.
pub fn simplify(alloc: Global, ask: &Value) -> Answer {
    let Some(formula) = formula_at(alloc, ask, "formula")? else {
        return Ok(None);
    };
    let simple = ac_simplify::simplify(alloc, &formula)?;
    printed(alloc, simple.formula.get())
}

/// The print of the formula after the changes.
pub fn substitute(alloc: Global, ask: &Value) -> Answer {
    let (Some(formula), Some(list)) = (formula_at(alloc, ask, "formula")?, list_at(ask, "changes"))
    else {
        return Ok(None);
    };
    let mut changes = Vec::new(alloc);
    for asked in list.iter() {
        match change(alloc, asked)? {
            Some(change) => changes.push(change)?,
            None => return Ok(None),
        }
    }
    if !ac_logic::are_changes_closed(changes.as_slice()) {
        return Ok(None);
    }
    let after = ac_logic::substitute(alloc, &formula, changes.as_slice())?;
    printed(alloc, after.get())
}

/// A change is a list of its kind, its symbol and a term; a new array is the array of a read.
fn change(alloc: Global, asked: &Value) -> anyhow::Result<Option<Change>> {
    let Some([kind, symbol, new]) = asked.as_array().map(|list| list.as_slice()) else {
        return Ok(None);
    };
    let (Some(kind), Some(symbol), Some(new)) = (kind.as_str(), symbol.as_str(), new.as_str())
    else {
        return Ok(None);
    };
    let (Some(symbol), Some(new)) = (term(alloc, symbol)?, term(alloc, new)?) else {
        return Ok(None);
    };
    let Term::Sym(symbol) = symbol.get() else {
        return Ok(None);
    };
    let symbol = copied_symbol(symbol)?;
    match (kind, new.get()) {
        ("scalar", _) => Ok(Some(Change::Scalar(symbol, new))),
        ("array", Term::Read(array, _, _)) => Ok(Some(Change::Array(symbol, array.share()?))),
        _ => Ok(None),
    }
}

fn copied_symbol(symbol: &Sym) -> Result<Sym, AllocError> {
    Ok(match symbol {
        Sym::Value(name) => Sym::Value(name.clone()?),
        Sym::Init(name) => Sym::Init(name.clone()?),
        Sym::Fresh(k) => Sym::Fresh(*k),
    })
}
