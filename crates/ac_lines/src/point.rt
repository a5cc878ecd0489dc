//! A word and a node as JSON: `["head",3]`.
ghost use Rattle.std.specs.Prelude.{◌≡◌, IfOk};
ghost use Rattle.serde_json.specs.View.{view};
ghost use Rattle.ac_lines.specs.Words.{cut_word as word_of_cut, cut_node as node_of_cut, target_word as word_of_target, target_node as node_of_target, place_word as word_of_place, place_node as node_of_place};
ghost use Rattle.ac_lines.specs.Lines.{point as point_data};

use crate::words::{cut_node, cut_word, place_node, place_word, target_node, target_word};
use ac_tree::{Cut, Place, Target};
use serde_json::{Value, json};
use std::alloc::{AllocError, Global};

fn point(alloc: Global, word: &str, node: u32) -> Result<Value, AllocError>
    ensures { IfOk result (λ v. view v ≡ point_data word.now node) }
{
    json!(in alloc; [word, node])
}

pub fn cut_value(alloc: Global, cut: Cut) -> Result<Value, AllocError>
    ensures { IfOk result (λ v. view v ≡ point_data (word_of_cut cut) (node_of_cut cut)) }
{
    point(alloc, cut_word(cut), cut_node(cut))
}

pub fn target_value(alloc: Global, target: Target) -> Result<Value, AllocError>
    ensures { IfOk result (λ v. view v ≡ point_data (word_of_target target) (node_of_target target)) }
{
    point(alloc, target_word(target), target_node(target))
}

pub fn place_value(alloc: Global, place: Place) -> Result<Value, AllocError>
    ensures { IfOk result (λ v. view v ≡ point_data (word_of_place place) (node_of_place place)) }
{
    point(alloc, place_word(place), place_node(place))
}
