//! Reading the tokens of a code within the limits on nesting and operators.
ghost use Rattle.std.specs.Prelude.{◌≡◌, IfOk, MatchOption};
ghost use Rattle.ac_pattern_blocks.specs.Spread.{SpellsCodeBlock, SpellsNone};
ghost use Rattle.ac_pattern_blocks.specs.ReadBlock.{read_all};

use crate::spreading::step_code;
use ac_parse::statement::{begin, finish};
use ac_parse::{nest, operate};
use ac_tree::{LimitKind, Stmt, Token};
use sqlite_items::Items;
use std::alloc::{AllocError, Global};

/// What the machine makes of the tokens.
fn read_tokens(alloc: Global, tokens: &[Token]) -> Result<Option<Items<Stmt>>, AllocError>
    ensures { IfOk result (λ block. block ≡ read_all tokens.now) }
{
    let mut reading = begin(alloc);
    let mut depth = 0u64;
    let mut operators = 0u64;
    for i in 0..tokens.len() {
        let token = &tokens[i];
        depth = nest(depth, &token.mark);
        operators = operate(operators, &token.mark);
        if depth > LimitKind::Nesting.number() {
            drop(reading);
            return Ok(None);
        }
        if operators > LimitKind::Operators.number() {
            drop(reading);
            return Ok(None);
        }
        match step_code(alloc, reading, token)? {
            None => return Ok(None),
            Some(next) => reading = next,
        }
    }
    Ok(finish(reading))
}

/// The block that the tokens of a code spell within the limits on nesting and operators, its nodes not numbered, with each
/// metavariable as a phrase of its own text. None: they spell none.
pub fn read_block(alloc: Global, tokens: &[Token]) -> Result<Option<Items<Stmt>>, AllocError>
    ensures { IfOk result (λ block. MatchOption block (SpellsNone tokens.now) (λ xs. SpellsCodeBlock xs tokens.now)) }
{
    read_tokens(alloc, tokens)
}
