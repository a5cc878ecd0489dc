//! Numbers of asks and of answers.
use serde_json::Value;
use std::alloc::{AllocError, Global};

/// A number, as a text of its decimals beyond 64 bits.
pub fn whole(alloc: Global, number: i128) -> anyhow::Result<Value> {
    match i64::try_from(number) {
        Ok(small) => Ok(Value::from(small)),
        Err(_) => Ok(Value::String(format!(in alloc; "{number}")?)),
    }
}

/// The same of each number.
pub fn wholes(alloc: Global, numbers: &[i128]) -> anyhow::Result<Vec<Value>> {
    let mut list = Vec::new(alloc);
    for number in numbers.iter() {
        list.push(whole(alloc, *number)?)?;
    }
    Ok(list)
}

/// The numbers of a list.
pub fn numbers_of(alloc: Global, list: &[Value]) -> Result<Option<Vec<u64>>, AllocError> {
    let mut numbers = Vec::new(alloc);
    for value in list.iter() {
        match number_of(value) {
            Some(number) => numbers.push(number)?,
            None => return Ok(None),
        }
    }
    Ok(Some(numbers))
}

/// A number of 64 bits without sign, also as a text of its decimals.
pub fn number_of(value: &Value) -> Option<u64> {
    match value.as_str() {
        Some(text) => decimal_number(text),
        None => value.as_u64(),
    }
}

fn decimal_number(text: &str) -> Option<u64> {
    if text.starts_with('+') {
        return None;
    }
    match text.parse::<u64>() {
        Ok(number) => Some(number),
        Err(_) => None,
    }
}
