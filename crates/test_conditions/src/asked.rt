//! What the tables tell in short: formulas by their texts, annotations by a place and a text, pairs by their words.
use ac_formula_reader::{FormulaFault, read_formula};
use ac_logic::{Annotation, Formula};
use ac_shared::Shared;
use ac_tree::{Cut, NodeId, Pair, Place, Target};
use sqlite_items::Items;
use std::alloc::{AllocError, Global};
use std::process::Abort;

/// An annotation by its place and the text of its formula.
pub type Noted = (Place, &'static str);

pub fn formula_of<R: Abort>(
    rt: &R,
    alloc: Global,
    text: &str,
) -> Result<Shared<Formula>, FormulaFault> {
    assert!(rt; text.len() < 1000);
    read_formula(alloc, text)
}

pub fn annotations_of<R: Abort>(
    rt: &R,
    alloc: Global,
    noted: &[Noted],
) -> Result<Items<Annotation>, FormulaFault> {
    let mut annotations = Items::new(alloc);
    for (place, text) in noted {
        let formula = formula_of(rt, alloc, *text)?;
        annotations.push(Annotation {
            place: *place,
            formula,
        })?;
    }
    Ok(annotations)
}

/// A pair as reports name it, such as `head 4 -> keep 4`.
pub fn push_pair(alloc: Global, text: &mut String, pair: Pair) -> Result<(), AllocError> {
    match pair.cut {
        Cut::Start => text.push_str("start")?,
        Cut::Head(node) => push_placed(alloc, text, "head", node)?,
        Cut::Exit(node) => push_placed(alloc, text, "exit", node)?,
        Cut::After(node) => push_placed(alloc, text, "after", node)?,
    }
    text.push_str(" -> ")?;
    match pair.target {
        Target::Entry(node) => push_placed(alloc, text, "entry", node),
        Target::Keep(node) => push_placed(alloc, text, "keep", node),
        Target::Barrier(node) => push_placed(alloc, text, "barrier", node),
        Target::Site(node) => push_placed(alloc, text, "site", node),
    }
}

fn push_placed(
    alloc: Global,
    text: &mut String,
    word: &str,
    node: NodeId,
) -> Result<(), AllocError> {
    let number = node.0;
    text.push_str(format!(in alloc; "{word} {number}")?.as_str())
}
