//! Asks about linear normal forms.
use crate::formulas::term;
use ac_asks::{Answer, list_at, numbers_of, text_at, whole};
use ac_linear::{LinFault, Linear};
use ac_logic::Term;
use ac_shared::Shared;
use serde_json::{Value, json};
use std::alloc::{AllocError, Global};

/// A normal form; none where it is wide.
fn settled(found: Result<Linear, LinFault>) -> Result<Option<Linear>, AllocError> {
    match found {
        Ok(form) => Ok(Some(form)),
        Err(LinFault::Wide) => Ok(None),
        Err(LinFault::OutOfMemory) => Err(AllocError),
    }
}

fn answered(alloc: Global, form: Option<Linear>) -> Answer {
    match form {
        Some(form) => Ok(Some(described(alloc, &form)?)),
        None => Ok(Some(json!(in alloc; {"wide": true})?)),
    }
}

fn described(alloc: Global, form: &Linear) -> anyhow::Result<Value> {
    let mut parts = Vec::new(alloc);
    for part in form.parts.as_slice().iter() {
        let unit = ac_formula_printer::print_term(alloc, part.unit.get())?;
        let factor = whole(alloc, part.factor)?;
        parts.push(json!(in alloc; [factor, unit])?)?;
    }
    let constant = whole(alloc, form.constant)?;
    Ok(json!(in alloc; {"constant": constant, "parts": parts})?)
}

/// The normal form of a term.
pub fn normal(alloc: Global, ask: &Value) -> Answer {
    let Some(text) = text_at(ask, "term") else {
        return Ok(None);
    };
    let Some(term) = term(alloc, text)? else {
        return Ok(None);
    };
    answered(alloc, settled(ac_linear::normal(alloc, term.get()))?)
}

/// The sum of the facts' normal forms, each as often as its factor says.
pub fn combine(alloc: Global, ask: &Value) -> Answer {
    let (Some(texts), Some(numbers)) = (list_at(ask, "facts"), list_at(ask, "factors")) else {
        return Ok(None);
    };
    let (Some(terms), Some(factors)) = (terms_of(alloc, texts)?, numbers_of(alloc, numbers)?) else {
        return Ok(None);
    };
    if terms.len() != factors.len() {
        return Ok(None);
    }
    let Some(facts) = forms_of(alloc, terms.as_slice())? else {
        return answered(alloc, None);
    };
    if facts.len() != factors.len() {
        return Ok(None);
    }
    answered(
        alloc,
        settled(ac_linear::combine(alloc, facts.as_slice(), factors.as_slice()))?,
    )
}

fn terms_of(alloc: Global, texts: &[Value]) -> Result<Option<Vec<Shared<Term>>>, AllocError> {
    let mut terms = Vec::new(alloc);
    for text in texts.iter() {
        let Some(text) = text.as_str() else {
            return Ok(None);
        };
        match term(alloc, text)? {
            Some(term) => terms.push(term)?,
            None => return Ok(None),
        }
    }
    Ok(Some(terms))
}

/// The normal forms of terms; none where one is wide.
fn forms_of(alloc: Global, terms: &[Shared<Term>]) -> Result<Option<Vec<Linear>>, AllocError> {
    let mut forms = Vec::new(alloc);
    for term in terms.iter() {
        match settled(ac_linear::normal(alloc, term.get()))? {
            Some(form) => forms.push(form)?,
            None => return Ok(None),
        }
    }
    Ok(Some(forms))
}
