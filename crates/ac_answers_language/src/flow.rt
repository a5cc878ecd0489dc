//! Asks about control flow.
ghost use Rattle.std.specs.Prelude.{IfOk, IfSome};
ghost use Rattle.ac_tree.specs.StaticRules.{KeepsStaticRules};

use ac_asks::{Answer, list_at, text_at, told};
use ac_parse::ParseFault;
use ac_tree::{Cut, NodeId, Pair, Place, Program, Target};
use serde_json::{Value, json};
use std::alloc::{AllocError, Global};

/// A program, and its cuts for the places of an ask.
#[derive(Drop)]
struct Flow {
    program: Program,
    cuts: Vec<Cut>,
}

/// The cuts of the places.
pub fn cuts(alloc: Global, ask: &Value) -> Answer {
    let Some(flow) = flow_of(alloc, ask)? else {
        return Ok(None)
    };
    let answer = cut_list(alloc, flow.cuts.as_slice());
    drop(flow);
    answer
}

fn cut_list(alloc: Global, cuts: &[Cut]) -> Answer {
    let mut list = Vec::new(alloc);
    for cut in cuts {
        list.push(cut_value(alloc, *cut)?)?;
    }
    told(alloc, "cuts", Value::Array(list))
}

/// The pairs of the subject nodes, with the cuts of the places.
pub fn pairs(alloc: Global, ask: &Value) -> Answer {
    let Some(flow) = flow_of(alloc, ask)? else {
        return Ok(None)
    };
    let answer = pairs_with(alloc, &flow, ask);
    drop(flow);
    answer
}

fn pairs_with(alloc: Global, flow: &Flow, ask: &Value) -> Answer {
    let Some(subject) = list_at(ask, "subject") else {
        return Ok(None)
    };
    let Some(subject) = nodes_of(alloc, subject)? else {
        return Ok(None)
    };
    let pairs = ac_flow::pairs(
        alloc,
        &flow.program,
        flow.cuts.as_slice(),
        subject.as_slice(),
    )?;
    pair_list(alloc, pairs.as_slice())
}

fn pair_list(alloc: Global, pairs: &[Pair]) -> Answer {
    let mut list = Vec::new(alloc);
    for pair in pairs {
        list.push(pair_value(alloc, *pair)?)?;
    }
    told(alloc, "pairs", Value::Array(list))
}

/// The walk of a pair, with the cuts of the places.
pub fn walk(alloc: Global, ask: &Value) -> Answer {
    let Some(pair) = pair_at(ask) else {
        return Ok(None)
    };
    let Some(flow) = flow_of(alloc, ask)? else {
        return Ok(None)
    };
    let answer = walk_of(alloc, &flow, &pair);
    drop(flow);
    answer
}

fn walk_of(alloc: Global, flow: &Flow, pair: &Pair) -> Answer {
    let nodes = ac_walk::walk(alloc, &flow.program, flow.cuts.as_slice(), pair)?;
    let mut list = Vec::new(alloc);
    for node in nodes.iter() {
        list.push(Value::from(node.0))?;
    }
    told(alloc, "walk", Value::Array(list))
}

/// The pair of an ask.
fn pair_at(ask: &Value) -> Option<Pair> {
    match list_at(ask, "pair")? {
        [cut, target] => Some(Pair {
            cut: cut_of(cut)?,
            target: target_of(target)?,
        }),
        _ => None,
    }
}

/// The cut that a word and a node are.
pub fn cut_of(value: &Value) -> Option<Cut> {
    let (word, node) = word_and_node(value)?;
    match word {
        "start" => Some(Cut::Start),
        "head" => Some(Cut::Head(node)),
        "exit" => Some(Cut::Exit(node)),
        "after" => Some(Cut::After(node)),
        _ => None,
    }
}

/// The target that a word and a node are.
pub fn target_of(value: &Value) -> Option<Target> {
    let (word, node) = word_and_node(value)?;
    match word {
        "entry" => Some(Target::Entry(node)),
        "keep" => Some(Target::Keep(node)),
        "barrier" => Some(Target::Barrier(node)),
        "site" => Some(Target::Site(node)),
        _ => None,
    }
}

/// The program of an ask, and its cuts for the places there.
fn flow_of(alloc: Global, ask: &Value) -> Result<Option<Flow>, AllocError> {
    let (Some(text), Some(places)) = (text_at(ask, "program"), list_at(ask, "places")) else {
        return Ok(None);
    };
    let Some(program) = program(alloc, text)? else {
        return Ok(None)
    };
    match cuts_at(alloc, &program, places) {
        Ok(Some(cuts)) => Ok(Some(Flow { program, cuts })),
        Ok(None) => {
            drop(program);
            Ok(None)
        }
        Err(error) => {
            drop(program);
            Err(error)
        }
    }
}

/// The cuts of a program for the places of a list.
fn cuts_at(
    alloc: Global,
    program: &Program,
    values: &[Value],
) -> Result<Option<Vec<Cut>>, AllocError> {
    match places_of(alloc, values)? {
        Some(places) => Ok(Some(ac_flow::cuts(alloc, program, places.as_slice())?)),
        None => Ok(None),
    }
}

/// The program that a text is; none where it is none, or one that breaks a static rule.
pub fn program(alloc: Global, text: &str) -> Result<Option<Program>, AllocError>
    ensures { IfOk result (λ found. IfSome found KeepsStaticRules) }
{
    match ac_parse::parse(alloc, text.as_bytes()) {
        Ok(program) => Ok(sound(program)),
        Err(ParseFault::OutOfMemory) => Err(AllocError),
        Err(_) => Ok(None),
    }
}

/// The program, where it breaks no static rule.
fn sound(program: Program) -> Option<Program>
    ensures { IfSome result KeepsStaticRules }
{
    if ac_tree::check_static(&program).is_ok() {
        return Some(program);
    }
    drop(program);
    None
}

fn places_of(alloc: Global, values: &[Value]) -> Result<Option<Vec<Place>>, AllocError> {
    let mut places = Vec::new(alloc);
    for value in values.iter() {
        match place_of(value) {
            Some(place) => places.push(place)?,
            None => return Ok(None),
        }
    }
    Ok(Some(places))
}

fn place_of(value: &Value) -> Option<Place> {
    let (word, node) = word_and_node(value)?;
    place_at(word, node)
}

/// The place that a word names at a node.
pub fn place_at(word: &str, node: NodeId) -> Option<Place> {
    match word {
        "loop" => Some(Place::Loop(node)),
        "after" => Some(Place::After(node)),
        _ => None,
    }
}

fn word_and_node(value: &Value) -> Option<(&str, NodeId)> {
    match value.as_array()?.as_slice() {
        [word, node] => Some((word.as_str()?, node_of(node)?)),
        _ => None,
    }
}

/// The node that a number names.
pub fn node_of(value: &Value) -> Option<NodeId> {
    let number = value.as_u64()?;
    match u32::try_from(number) {
        Ok(number) => Some(NodeId(number)),
        Err(_) => None,
    }
}

fn nodes_of(alloc: Global, values: &[Value]) -> Result<Option<Vec<NodeId>>, AllocError> {
    let mut nodes = Vec::new(alloc);
    for value in values.iter() {
        match node_of(value) {
            Some(node) => nodes.push(node)?,
            None => return Ok(None),
        }
    }
    Ok(Some(nodes))
}

/// A pair as the list of its cut and its target.
pub fn pair_value(alloc: Global, pair: Pair) -> Result<Value, AllocError> {
    let mut list = Vec::new(alloc);
    list.push(cut_value(alloc, pair.cut)?)?;
    list.push(target_value(alloc, pair.target)?)?;
    Ok(Value::Array(list))
}

/// A cut as its word and its node.
pub fn cut_value(alloc: Global, cut: Cut) -> Result<Value, AllocError> {
    match cut {
        Cut::Start => placed(alloc, "start", NodeId(0)),
        Cut::Head(node) => placed(alloc, "head", node),
        Cut::Exit(node) => placed(alloc, "exit", node),
        Cut::After(node) => placed(alloc, "after", node),
    }
}

/// A target as its word and its node.
pub fn target_value(alloc: Global, target: Target) -> Result<Value, AllocError> {
    match target {
        Target::Entry(node) => placed(alloc, "entry", node),
        Target::Keep(node) => placed(alloc, "keep", node),
        Target::Barrier(node) => placed(alloc, "barrier", node),
        Target::Site(node) => placed(alloc, "site", node),
    }
}

fn placed(alloc: Global, word: &str, node: NodeId) -> Result<Value, AllocError> {
    let number = node.0;
    json!(in alloc; [word, number])
}
