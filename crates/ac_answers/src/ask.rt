//! What a line asks for.
use ac_answers_kernel::{certificates, condition_lists, parts};
use ac_answers_language::{flow, programs, runs};
use ac_answers_logic::{differences, formulas, ground_forms, linear, proof_trees};
use ac_answers_policies::policies;
use ac_asks::{Answer, text_at};
use serde_json::{Value, json};
use std::alloc::{AllocError, Global};

/// The answer to a line, `{"bad":true}` where it is no stated ask.
pub fn answer(alloc: Global, line: &[u8]) -> anyhow::Result<Value> {
    match stated_answer(alloc, line)? {
        Some(value) => Ok(value),
        None => Ok(json!(in alloc; {"bad": true})?),
    }
}

fn stated_answer(alloc: Global, line: &[u8]) -> Answer {
    match Value::from_slice(alloc, line) {
        Ok(ask) => answer_of(alloc, &ask),
        Err(error) if error.is_memory() => Err(anyhow::Error::from(AllocError)),
        Err(_) => Ok(None),
    }
}

fn answer_of(alloc: Global, ask: &Value) -> Answer {
    let Some(call) = text_at(ask, "call") else {
        return Ok(None);
    };
    match call {
        "read_formula" => formulas::read_formula(alloc, ask),
        "read_term" => formulas::read_term(alloc, ask),
        "same" => formulas::same(alloc, ask),
        "substitute" => formulas::substitute(alloc, ask),
        "simplify" => formulas::simplify(alloc, ask),
        "normal" => linear::normal(alloc, ask),
        "combine" => linear::combine(alloc, ask),
        "solve" => differences::solve(alloc, ask),
        "expand" => ground_forms::expand(alloc, ask),
        "check_proof" => proof_trees::check_proof(alloc, ask),
        "parse" => programs::parse(alloc, ask),
        "check_static" => programs::check_static(alloc, ask),
        "positions" => programs::positions(alloc, ask),
        "run" => runs::run(alloc, ask),
        "cuts" => flow::cuts(alloc, ask),
        "pairs" => flow::pairs(alloc, ask),
        "walk" => flow::walk(alloc, ask),
        "sites" => policies::sites(alloc, ask),
        "need" => policies::need(alloc, ask),
        "effect" => policies::effect(alloc, ask),
        "known" => policies::known(alloc, ask),
        "conditions" => condition_lists::conditions(alloc, ask),
        "verify_part" => parts::verify_part(alloc, ask),
        "verify" => certificates::verify(alloc, ask),
        _ => Ok(None),
    }
}
