//! What stands under the keys of an ask and of an answer.
use serde_json::{Value, json};
use std::alloc::Global;

/// The answer to an ask; none where the line is no stated ask.
pub type Answer = anyhow::Result<Option<Value>>;

/// The text under a key.
pub fn text_at<'a>(ask: &'a Value, key: &str) -> Option<&'a str> {
    match ask.get(key) {
        Some(value) => value.as_str(),
        None => None,
    }
}

/// The list under a key.
pub fn list_at<'a>(ask: &'a Value, key: &str) -> Option<&'a [Value]> {
    match ask.get(key) {
        Some(value) => match value.as_array() {
            Some(list) => Some(list.as_slice()),
            None => None,
        },
        None => None,
    }
}

/// An answer with one member.
pub fn told(alloc: Global, key: &str, value: Value) -> Answer {
    Ok(Some(json!(in alloc; {key: value})?))
}
