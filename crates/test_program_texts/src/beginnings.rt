//! Which tokens may come behind which beginnings of a program.
use crate::outcome::{KINDS, Outcome, outcome_of, stands_for};
use std::alloc::{AllocError, Global};
use std::process::Abort;
use std::test::Fail;

/// A row has the beginning of a program and the tokens that may come behind it. `END` is the `end` with which the program
/// is whole; a program is whole where nothing may come.
const BEGINNINGS: &str = "\
| DECLARATION begin
const | q
const k | =
const k = | NUMBER
const k = - | 7
const k = 3 | ;
const k = 3; | DECLARATION begin
input | q
input n | [ :
input n[ | EXTENT
input n[4 | , ]
input n[m | , ]
input n[4, | EXTENT
input n[4,5 | ]
input n[4,m | ]
input n[4] | :
input n[4,5] | :
input n : | NUMBER
input n : - | 7
input n : 0 | ..
input n : -2 .. | NUMBER
input n : 0 .. - | 7
input n : 0 .. 9 | ;
input n : 0 .. 9; | DECLARATION begin
var | q
var x | [ ;
var x[ | EXTENT
var x[4 | , ]
var x[4, | EXTENT
var x[4,5 | ]
var x[4] | ;
var x; | DECLARATION begin
begin | STATEMENT END
begin x | [ :=
begin x := | OPERAND
begin x := - | ATOM
begin x := 1 | OPERATOR ;
begin x := 1 + | OPERAND
begin x := 1 - | OPERAND
begin x := 2 * | OPERAND
begin x := 1 + - | ATOM
begin x := y | [ OPERATOR ;
begin x := ( | OPERAND
begin x := (1 | OPERATOR )
begin x := (y | [ OPERATOR )
begin x := (1) | OPERATOR ;
begin x := a[ | OPERAND
begin x := a[1 | OPERATOR , ]
begin x := a[1, | OPERAND
begin x := a[1,2 | OPERATOR ]
begin x := a[1] | OPERATOR ;
begin x := (a[1]) | OPERATOR ;
begin x := 1; | STATEMENT END
begin a[ | OPERAND
begin a[1 | OPERATOR , ]
begin a[1, | OPERAND
begin a[1,2 | OPERATOR ]
begin a[1] | :=
begin a[1,2] | :=
begin a[1] := | OPERAND
begin a[1] := 3 | OPERATOR ;
begin skip | ;
begin use | q
begin use x | as
begin use x as | q
begin use x as r | ;
begin for | q
begin for x | :=
begin for x := | OPERAND
begin for x := n | [ OPERATOR to
begin for x := 0 to | OPERAND
begin for x := 0 to 9 | OPERATOR do
begin for x := 0 to 9 do | STATEMENT end
begin for x := 0 to 9 do end | STATEMENT END
begin while | TEST
begin while not | q 7 - ( { true false
begin while true | and or do
begin while not true | and or do
begin while true and | TEST
begin while true or | TEST
begin while 1 | OPERATOR RELATION
begin while y | [ OPERATOR RELATION
begin while (1 | OPERATOR )
begin while (1) | OPERATOR RELATION
begin while 1 < | OPERAND
begin while 1 < y | [ OPERATOR and or do
begin while { | TEST
begin while { true | and or }
begin while { 1 < 2 | OPERATOR and or }
begin while { true } | and or do
begin while true do | STATEMENT end
begin if | TEST
begin if 1 < 2 | OPERATOR and or then
begin if true then skip; | STATEMENT else end
begin if true then else | STATEMENT end
begin end |
";

fn may_come(followers: &str, token: &str) -> bool {
    followers
        .split_whitespace()
        .any(|word| stands_for(word, token))
}

/// A text that ends too early is refused at its end.
fn alone(followers: &str, length: usize) -> Outcome {
    if followers.trim().is_empty() {
        return Outcome::Whole;
    }
    Outcome::Unexpected(length, length)
}

/// A token that may not come is refused at its place; behind one that may, the text ends too early.
fn followed_by(followers: &str, token: &str, length: usize) -> Outcome {
    if token == "end" && may_come(followers, "END") {
        return Outcome::Whole;
    }
    if may_come(followers, token) {
        return Outcome::Unexpected(length, length);
    }
    Outcome::Unexpected(length.saturating_sub(token.len()), length)
}

/// The beginning alone, with a comment behind it, and each token behind it.
fn goes_on_by<R: Abort>(
    rt: &R,
    alloc: Global,
    beginning: &str,
    followers: &str,
) -> Result<(), AllocError> {
    let text = format!(in alloc; "{beginning}# end")?;
    assert_eq!(rt;
        outcome_of(alloc, text.as_bytes()),
        alone(followers, text.len()),
        "on {text}"
    );
    for token in KINDS.split_whitespace() {
        let text = format!(in alloc; "{beginning}{token}")?;
        assert_eq!(rt;
            outcome_of(alloc, text.as_bytes()),
            followed_by(followers, token, text.len()),
            "on {text}"
        );
    }
    Ok(())
}

#[test]
fn behind_each_beginning_only_its_tokens_come(rt: HostRuntime) -> Result<(), Fail> {
    for row in BEGINNINGS.lines() {
        let Some((beginning, followers)) = row.split_once('|') else {
            panic!(rt; "no row: {row}")
        };
        goes_on_by(&rt, rt.alloc(), beginning, followers)?;
    }
    Ok(())
}
