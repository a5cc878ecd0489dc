//! Programs that together have every form, cut off behind each token, and with each token left out, doubled or replaced.
//!
//! A program is a table with one token a row, and behind it the changes that are not refused at once: `OUT` where the token
//! is left out, `TWICE` where it is doubled, and the kinds that stand in its place. Behind such changes stands how many
//! tokens later they are refused, where the end of the text counts as a token, or `@whole` where they leave a program. Every
//! other change is refused at once: at the token that now stands in the place, or at the second of two.
use crate::outcome::{KINDS, Outcome, outcome_of, stands_for};
use std::alloc::{AllocError, Global};
use std::process::Abort;
use std::test::Fail;

const DECLARATIONS: &str = "\
const | DECLARATION begin @2
q |
= |
- | OUT @whole 7 @1
7 |
; |
const | DECLARATION begin @2
q |
= |
7 | - @1
; |
input | DECLARATION begin @2
q |
: | [ @2
7 | - @1
.. |
- | OUT @whole 7 @1
7 |
; |
input | const @2 var begin @7
q |
[ | : @1
q | 7 @whole
, | ] @1
7 | q @whole
] |
: |
- | OUT @whole 7 @1
7 |
.. |
7 | - @1
; |
var | DECLARATION begin @2
q |
; | [ @1
var | const @2 input begin @5
q |
[ | ; @1
7 | q @whole
] | , @1
; |
begin | DECLARATION @1
end | STATEMENT @1
";

const ASSIGNMENTS: &str = "\
begin | DECLARATION @2
q | STATEMENT end @1
:= | [ @16
( | OUT @3 TWICE @15 q 7 @1 - @4
q | 7 @whole - ( @1
+ | OPERATOR @whole [ @2 ) @1
7 | q @whole - ( @1
) | OUT @10 OPERATOR @1
* | OUT OPERATOR @whole ; @1
- | OUT @whole q 7 @1 ( @9
q | ATOM @1
[ | OPERATOR @2 ; @1
7 | q @whole - ( @1
, | OPERATOR @whole ] @1
q | 7 @whole - ( @1
] | OUT @2 [ OPERATOR @3
- | TWICE OPERATOR @whole ; @1
7 | q @whole - ( @1
; | OPERATOR @5
q | STATEMENT end @1
[ | := @2
7 | q @whole - ( @1
] | OPERATOR , @1
:= |
q | OPERAND @1
[ | OPERATOR ; @2
q | 7 @whole - ( @1
] | [ OPERATOR , @1
; | OPERATOR @7
q | STATEMENT end @1
[ | := @2
q | 7 @whole - ( @1
, | [ @3 OPERATOR @whole ] @1
7 | q @whole - ( @1
] | OPERATOR @1
:= |
7 | q @whole - ( @1
; | OPERATOR @1
end | STATEMENT @1
";

const BRANCHES: &str = "\
begin | DECLARATION @1
if | while @11 STATEMENT end @1
not | OUT @whole { @10 TEST @1
{ | OUT @5 TWICE @9 q 7 - ( true false @1
true | false @whole TEST @1
or | and @whole } @1
q | 7 @whole TEST @1
= | [ OPERATOR @2 RELATION @whole
7 | q @whole - ( @1
} | OUT @2 OPERATOR and or @1
and | or @whole then @1
false | true @whole TEST @1
then | and or @1
skip | STATEMENT else end @1
; |
else | OUT @whole STATEMENT @1 end @4
skip | STATEMENT end @1
; |
end | OUT @5 TWICE STATEMENT @1
if | while @2 STATEMENT end @1
true | false @whole TEST @1
then | and or @1
end | else @2 OUT TWICE STATEMENT @1
end | STATEMENT @1
";

const LOOPS: &str = "\
begin | DECLARATION @1
use | if for while @2 OUT STATEMENT end @1
q |
as |
q |
; |
for | OUT @3 if while use @2 STATEMENT end @1
q |
:= |
7 | q @whole - ( @1
to | OPERATOR @2
q | 7 @whole - ( @1
do | [ OPERATOR @1
skip | STATEMENT end @1
; |
end | OUT @7 TWICE STATEMENT @1
while | if @4 STATEMENT end @1
7 | q @whole TEST @1
< | OPERATOR @2 RELATION @whole
q | 7 @whole - ( @1
do | [ OPERATOR and or @1
end | OUT TWICE STATEMENT @1
end | STATEMENT @1
";

fn token_in(row: &str) -> &str {
    match row.split_once(" |") {
        Some((token, _)) => token,
        None => row,
    }
}

/// How many tokens later a change in a row is refused; none where it leaves a program.
fn later(row: &str, change: &str) -> Option<usize> {
    let mut is_named = false;
    for word in row.split_whitespace().skip(1) {
        match word.strip_prefix('@') {
            Some(number) if is_named => return number.parse().ok(),
            Some(_) => {}
            None => is_named = is_named || stands_for(word, change),
        }
    }
    Some(0)
}

/// A text of tokens, and where each stands in it.
#[derive(Drop)]
struct Tokens {
    text: String,
    spans: Vec<(usize, usize)>,
}

impl Tokens {
    fn new(alloc: Global) -> Tokens {
        Tokens {
            text: String::new(alloc),
            spans: Vec::new(alloc),
        }
    }

    fn push(&mut self, token: &str) -> Result<(), AllocError> {
        self.text.push_str(" ")?;
        let start = self.text.len();
        self.text.push_str(token)?;
        self.spans.push((start, self.text.len()))?;
        Ok(())
    }

    fn push_changed(&mut self, token: &str, change: &str) -> Result<(), AllocError> {
        match change {
            "OUT" => Ok(()),
            "TWICE" => {
                self.push(token)?;
                self.push(token)
            }
            other => self.push(other),
        }
    }

    /// The refusal at a token that stands some behind a place.
    fn refusal(&self, place: usize, later: usize) -> Option<Outcome> {
        let (start, end) = self.spans.as_slice().iter().skip(place).nth(later)?;
        Some(Outcome::Unexpected(*start, *end))
    }
}

/// The program with a change at a place. The last token is the end of the text.
fn changed(alloc: Global, program: &str, place: usize, change: &str) -> Result<Tokens, AllocError> {
    let mut tokens = Tokens::new(alloc);
    for (at, row) in program.lines().enumerate() {
        if at == place {
            tokens.push_changed(token_in(row), change)?;
        } else {
            tokens.push(token_in(row))?;
        }
    }
    tokens.push("")?;
    Ok(tokens)
}

/// Where a change is refused at once.
fn at_once(place: usize, change: &str) -> usize {
    if change == "TWICE" {
        return place.saturating_add(1);
    }
    place
}

fn comes_to_what_its_row_says<R: Abort>(
    rt: &R,
    alloc: Global,
    program: &str,
    (place, row): (usize, &str),
    change: &str,
) -> Result<(), AllocError> {
    let tokens = changed(alloc, program, place, change)?;
    let expected = match later(row, change) {
        Some(later) => tokens.refusal(at_once(place, change), later),
        None => Some(Outcome::Whole),
    };
    let outcome = outcome_of(alloc, tokens.text.as_bytes());
    assert_eq!(rt; Some(outcome), expected, "{change} at {place}: {row}");
    Ok(())
}

fn each_other_kind<R: Abort>(
    rt: &R,
    alloc: Global,
    program: &str,
    (place, row): (usize, &str),
) -> Result<(), AllocError> {
    for kind in KINDS.split_whitespace() {
        if kind != token_in(row) {
            comes_to_what_its_row_says(rt, alloc, program, (place, row), kind)?;
        }
    }
    Ok(())
}

fn each_change<R: Abort>(rt: &R, alloc: Global, program: &str) -> Result<(), AllocError> {
    for (place, row) in program.lines().enumerate() {
        comes_to_what_its_row_says(rt, alloc, program, (place, row), "OUT")?;
        comes_to_what_its_row_says(rt, alloc, program, (place, row), "TWICE")?;
        each_other_kind(rt, alloc, program, (place, row))?;
    }
    Ok(())
}

#[test]
fn each_change_in_declarations_comes_to_what_its_row_says(rt: HostRuntime) -> Result<(), Fail> {
    each_change(&rt, rt.alloc(), DECLARATIONS)?;
    Ok(())
}

#[test]
fn each_change_in_assignments_comes_to_what_its_row_says(rt: HostRuntime) -> Result<(), Fail> {
    each_change(&rt, rt.alloc(), ASSIGNMENTS)?;
    Ok(())
}

#[test]
fn each_change_in_branches_comes_to_what_its_row_says(rt: HostRuntime) -> Result<(), Fail> {
    each_change(&rt, rt.alloc(), BRANCHES)?;
    Ok(())
}

#[test]
fn each_change_in_loops_comes_to_what_its_row_says(rt: HostRuntime) -> Result<(), Fail> {
    each_change(&rt, rt.alloc(), LOOPS)?;
    Ok(())
}

/// Behind each token but the last the text ends too early.
fn each_front<R: Abort>(rt: &R, alloc: Global, program: &str) -> Result<(), AllocError> {
    let mut text = String::new(alloc);
    for row in program.lines() {
        let end = Outcome::Unexpected(text.len(), text.len());
        assert_eq!(rt; outcome_of(alloc, text.as_bytes()), end, "{text}");
        text.push_str(token_in(row))?;
        text.push_str(" ")?;
    }
    assert_eq!(rt;
        outcome_of(alloc, text.as_bytes()),
        Outcome::Whole,
        "{text}"
    );
    Ok(())
}

#[test]
fn a_program_that_is_cut_off_is_refused_at_its_end(rt: HostRuntime) -> Result<(), Fail> {
    for program in [DECLARATIONS, ASSIGNMENTS, BRANCHES, LOOPS] {
        each_front(&rt, rt.alloc(), program)?;
    }
    Ok(())
}
