//! A token of a code, given to the machine that reads statements as the tokens of its phrase.
ghost use Rattle.std.specs.Prelude.{◌≡◌, [], ◌∷◌, IfOk, Some};
ghost use Rattle.ac_tree.specs.declared.token.Keyword.TheVariants as keyword_variant;
ghost use Rattle.ac_tree.specs.declared.token.Sign.TheVariants as sign_variant;
ghost use Rattle.ac_tree.specs.Grammar.{token, keyword_at, sign_at};
ghost use Rattle.ac_pattern_blocks.specs.Spread.{mark_has_sign, spread_token};
ghost use Rattle.ac_pattern_blocks.specs.ReadBlock.{then_step, feed as feed_all};

use ac_parse::statement::{StmtReading, step};
use ac_pattern_tokens::has_sign;
use ac_tree::{Keyword, Mark, Sign, Span, Token};
use std::alloc::{AllocError, Global};

/// Whether a token is a name that begins with a sign.
fn is_signed_token(token: &Token, sign: u8) -> bool
    ensures { result ≡ mark_has_sign sign token.now.mark }
{
    match &token.mark {
        Mark::Name(name) => has_sign(name.text(), sign),
        _ => false,
    }
}

/// One token more, where nothing is refused yet.
fn feed(
    alloc: Global,
    reading: Option<StmtReading>,
    token: &Token,
) -> Result<Option<StmtReading>, AllocError>
    ensures { IfOk result (λ r. r ≡ then_step reading token.now) }
{
    match reading {
        None => Ok(None),
        Some(reading) => step(alloc, reading, token),
    }
}

/// The same for a token that does not stand in the text.
fn feed_mark(
    alloc: Global,
    reading: Option<StmtReading>,
    mark: Mark,
    span: Span,
) -> Result<Option<StmtReading>, AllocError>
    ensures { IfOk result (λ r. r ≡ then_step reading (token mark span)) }
{
    let token = Token { mark, span };
    feed(alloc, reading, &token)
}

/// A metavariable for a condition, as the comparison of its text with itself.
fn step_comparison(
    alloc: Global,
    reading: StmtReading,
    token: &Token,
) -> Result<Option<StmtReading>, AllocError>
    ensures { IfOk result (λ r. r ≡ feed_all (Some reading) (token.now ∷ sign_at sign_variant.Equal token.now.span ∷ token.now ∷ [])) }
{
    let left = step(alloc, reading, token)?;
    let behind = feed_mark(alloc, left, Mark::Sign(Sign::Equal), token.span)?;
    feed(alloc, behind, token)
}

/// A metavariable for a run of statements, as the statement that hands its text over as itself.
fn step_hand(
    alloc: Global,
    reading: StmtReading,
    token: &Token,
) -> Result<Option<StmtReading>, AllocError>
    ensures { IfOk result (λ r. r ≡ feed_all (Some reading) (keyword_at keyword_variant.Use token.now.span ∷ token.now ∷ keyword_at keyword_variant.As token.now.span ∷ token.now ∷ sign_at sign_variant.Semicolon token.now.span ∷ [])) }
{
    let span = token.span;
    let begun = feed_mark(alloc, Some(reading), Mark::Keyword(Keyword::Use), span)?;
    let named = feed(alloc, begun, token)?;
    let turned = feed_mark(alloc, named, Mark::Keyword(Keyword::As), span)?;
    let whole = feed(alloc, turned, token)?;
    feed_mark(alloc, whole, Mark::Sign(Sign::Semicolon), span)
}

/// One token of a code. None: no block goes on with it.
pub fn step_code(
    alloc: Global,
    reading: StmtReading,
    token: &Token,
) -> Result<Option<StmtReading>, AllocError>
    ensures { IfOk result (λ r. r ≡ feed_all (Some reading) (spread_token token.now)) }
{
    if is_signed_token(token, b'?') {
        step_comparison(alloc, reading, token)
    } else if is_signed_token(token, b'@') {
        step_hand(alloc, reading, token)
    } else {
        step(alloc, reading, token)
    }
}
