//! Annotations in asks.
use ac_answers_language::flow::{node_of, place_at};
use ac_answers_logic::formulas::formula;
use ac_logic::Annotation;
use serde_json::Value;
use sqlite_items::Items;
use std::alloc::{AllocError, Global};

/// The annotations of a list, each the word and the node of its place, and its formula.
pub fn annotations_of(
    alloc: Global,
    list: &[Value],
) -> Result<Option<Items<Annotation>>, AllocError> {
    let mut annotations = Items::new(alloc);
    for value in list.iter() {
        match annotation_of(alloc, value)? {
            Some(annotation) => annotations.push(annotation)?,
            None => return Ok(None),
        }
    }
    Ok(Some(annotations))
}

fn annotation_of(alloc: Global, value: &Value) -> Result<Option<Annotation>, AllocError> {
    let Some(list) = value.as_array() else {
        return Ok(None);
    };
    let [word, node, text] = list.as_slice() else {
        return Ok(None);
    };
    let (Some(word), Some(node), Some(text)) = (word.as_str(), node_of(node), text.as_str()) else {
        return Ok(None);
    };
    let Some(place) = place_at(word, node) else {
        return Ok(None);
    };
    match formula(alloc, text)? {
        Some(formula) => Ok(Some(Annotation { place, formula })),
        None => Ok(None),
    }
}
