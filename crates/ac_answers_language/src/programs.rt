//! Asks about programs.
ghost use Rattle.std.specs.Prelude.{◌<◌, IfOk, IfSome};
ghost use Rattle.ac_tree.specs.Numbering.{program_nodes};

use crate::spans::spans_of;
use ac_asks::{Answer, text_at, told};
use ac_parse::ParseFault;
use ac_tree::{Position, Program, Span};
use serde_json::{Value, json};
use std::alloc::{AllocError, Global};

/// The printed program and the span of each node, or why the text is no program.
pub fn parse(alloc: Global, ask: &Value) -> Answer {
    let Some(text) = text_at(ask, "text") else {
        return Ok(None);
    };
    match ac_parse::parse(alloc, text.as_bytes()) {
        Ok(program) => {
            let answer = described(alloc, &program);
            drop(program);
            answer
        }
        Err(fault) => refused(alloc, fault),
    }
}

/// Why a text is no program.
fn refused(alloc: Global, fault: ParseFault) -> Answer {
    match fault {
        ParseFault::NotUtf8 { at } => told(alloc, "not_utf8", Value::from(at)),
        ParseFault::Token { at } => told(alloc, "token", Value::from(at)),
        ParseFault::Unexpected { span } => told(alloc, "unexpected", span_pair(alloc, span)?),
        ParseFault::Limit { which, value } => {
            let word = which.word();
            told(alloc, "limit", json!(in alloc; [word, value])?)
        }
        ParseFault::OutOfMemory => Err(anyhow::Error::from(AllocError)),
    }
}

fn described(alloc: Global, program: &Program) -> Answer {
    let spans = span_pairs(alloc, program)?;
    let print = ac_parse::print(alloc, program)?;
    Ok(Some(json!(in alloc; {"print": print, "spans": spans})?))
}

fn span_pairs(alloc: Global, program: &Program) -> Result<Vec<Value>, AllocError> {
    let spans = spans_of(alloc, program)?;
    let mut pairs = Vec::new(alloc);
    for span in spans.iter() {
        pairs.push(span_pair(alloc, *span)?)?;
    }
    Ok(pairs)
}

fn span_pair(alloc: Global, span: Span) -> Result<Value, AllocError> {
    let (start, end) = (span.start, span.end);
    json!(in alloc; [start, end])
}

/// The program that a text is; none where it is none.
#[tactic(auto, using(ac_parse::proofs::Counted::few_nodes))]
fn program(alloc: Global, ask: &Value) -> Result<Option<Program>, AllocError>
    ensures { IfOk result (λ found. IfSome found (λ p. program_nodes p < 4294967296)) }
{
    let Some(text) = text_at(ask, "text") else {
        return Ok(None);
    };
    match ac_parse::parse(alloc, text.as_bytes()) {
        Ok(program) => Ok(Some(program)),
        Err(ParseFault::OutOfMemory) => Err(AllocError),
        Err(_) => Ok(None),
    }
}

/// `{"ok":true}`, or the first node that breaks a static rule, and the rule.
pub fn check_static(alloc: Global, ask: &Value) -> Answer {
    let Some(program) = program(alloc, ask)? else {
        return Ok(None);
    };
    let verdict = ac_tree::check_static(&program);
    drop(program);
    match verdict {
        Ok(()) => told(alloc, "ok", Value::Bool(true)),
        Err(fault) => {
            let (node, rule) = (fault.node.0, fault.rule);
            Ok(Some(json!(in alloc; {"node": node, "rule": rule})?))
        }
    }
}

/// Where each node stands, in the order of their numbers.
pub fn positions(alloc: Global, ask: &Value) -> Answer {
    let Some(program) = program(alloc, ask)? else {
        return Ok(None);
    };
    let positions = ac_tree::positions(alloc, &program);
    drop(program);
    position_lists(alloc, positions?.as_slice())
}

fn position_lists(alloc: Global, positions: &[Position]) -> Answer {
    let mut list = Vec::new(alloc);
    for position in positions {
        list.push(position_list(alloc, *position)?)?;
    }
    told(alloc, "positions", Value::Array(list))
}

fn position_list(alloc: Global, position: Position) -> Result<Value, AllocError> {
    let (parent, last) = (position.parent.0, position.last.0);
    let (block, place) = (position.block, position.place);
    json!(in alloc; [parent, block, place, last])
}
