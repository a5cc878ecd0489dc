//! Each limit at its number, and one past it.
use crate::outcome::{
    BYTES_LIMIT, LITERAL_LIMIT, NAME_LIMIT, NESTING_LIMIT, NODES_LIMIT, OPERATORS_LIMIT, Outcome,
    Repeated, comes_to, outcome_of, repeated,
};
use std::test::Fail;

/// What is open to the end of the text.
const OPEN: [Repeated<'static>; 11] = [
    ("begin x := ", "(", 64, ""),
    ("begin x:= ", "-(", 64, ""),
    ("begin x := ", "-(", 62, "a[(1)]"),
    ("begin x := ", "a[", 64, ""),
    ("begin x[1, ", "a[1, ", 63, ""),
    ("begin while ", "{", 63, ""),
    ("begin ", "if true then ", 64, "x := 1;"),
    ("begin ", "if true then ", 63, "x["),
    ("begin ", "if true then else ", 64, ""),
    ("begin ", "for x := 0 to 1 do ", 64, ""),
    ("begin ", "while true do ", 64, ""),
];

/// Operators in one stretch, and one more behind each token that ends a stretch.
const STRETCHES: [Repeated<'static>; 12] = [
    ("begin x := 1", " + 1", 256, "; end"),
    ("begin x := 1", " - 1", 256, "; end"),
    ("begin x := 1", " * 1", 256, "; end"),
    ("begin x := -1", " * 1", 255, "; end"),
    ("begin x := 1", " - -1", 128, "; end"),
    ("begin x := 1", " * -1", 128, "; end"),
    ("begin while true", " and true", 256, " do end end"),
    ("begin while true", " or true", 256, " do end end"),
    ("begin x := 1", " + 1", 256, "; x := 1 + 1; end"),
    ("begin for x := 1", " + 1", 256, " to 1 + 1 do end end"),
    ("begin while 1 < 1", " + 1", 256, " do x := -1; end end"),
    ("begin if 1 < 1", " + 1", 256, " then x := -1; end end"),
];

#[test]
fn nesting_is_limited(rt: HostRuntime) -> Result<(), Fail> {
    let alloc = rt.alloc();
    for (before, part, count, after) in OPEN {
        let text = repeated(alloc, (before, part, count, after))?;
        let end = Outcome::Unexpected(text.len(), text.len());
        assert_eq!(rt; outcome_of(alloc, text.as_bytes()), end, "{text}");
        let beyond = (before, part, count.saturating_add(1), after);
        comes_to(&rt, alloc, beyond, NESTING_LIMIT)?;
    }
    Ok(())
}

#[test]
fn operators_are_limited(rt: HostRuntime) -> Result<(), Fail> {
    for (before, part, count, after) in STRETCHES {
        let within = (before, part, count, after);
        comes_to(&rt, rt.alloc(), within, Outcome::Whole)?;
        let beyond = (before, part, count.saturating_add(1), after);
        comes_to(&rt, rt.alloc(), beyond, OPERATORS_LIMIT)?;
    }
    let signs = ("begin x := 1", " * -1", 128, " * 1; end");
    comes_to(&rt, rt.alloc(), signs, OPERATORS_LIMIT)?;
    Ok(())
}

#[test]
fn what_is_closed_or_behind_does_not_count(rt: HostRuntime) -> Result<(), Fail> {
    let loops = "while true do for x := 0 to 1 do end end ";
    for text in [
        ("begin ", loops, 65, "end"),
        ("begin ", "x := 1 + 1;", 257, "end"),
    ] {
        comes_to(&rt, rt.alloc(), text, Outcome::Whole)?;
    }
    Ok(())
}

#[test]
fn at_one_token_a_limit_comes_first(rt: HostRuntime) -> Result<(), Fail> {
    for (text, expected) in [
        (("begin x := ", "(", 63, "1 ("), Outcome::Unexpected(76, 77)),
        (("begin x := ", "(", 64, "1 ("), NESTING_LIMIT),
        (
            ("begin x := 1", " * 1", 254, " + +"),
            Outcome::Unexpected(1031, 1032),
        ),
        (("begin x := 1", " * 1", 255, " + +"), OPERATORS_LIMIT),
    ] {
        comes_to(&rt, rt.alloc(), text, expected)?;
    }
    Ok(())
}

/// The first fault by its byte counts, also before a text goes wrong in another way.
const NAMES_AND_LITERALS: [(&str, Outcome); 11] = [
    (
        "var a234567890b234567890c234567890d2; begin end",
        Outcome::Whole,
    ),
    (
        "var a234567890b234567890c234567890d23; begin end",
        NAME_LIMIT,
    ),
    (
        "begin use x as a234567890b234567890c234567890d23",
        NAME_LIMIT,
    ),
    ("const k = 1000000000000; begin end", Outcome::Whole),
    ("const k = 1000000000001; begin end", LITERAL_LIMIT),
    ("const k = -1000000000000; begin end", Outcome::Whole),
    ("const k = -1000000000001; begin end", LITERAL_LIMIT),
    ("begin x := a[1000000000001", LITERAL_LIMIT),
    ("end 1000000000001 @", LITERAL_LIMIT),
    (
        "a234567890b234567890c234567890d23 1000000000001",
        NAME_LIMIT,
    ),
    ("@ 1000000000001", Outcome::Token(0)),
];

#[test]
fn names_and_literals_are_limited(rt: HostRuntime) {
    for (text, expected) in NAMES_AND_LITERALS {
        assert_eq!(rt; outcome_of(rt.alloc(), text.as_bytes()), expected, "{text}");
    }
}

#[test]
fn nodes_are_limited(rt: HostRuntime) -> Result<(), Fail> {
    for (text, expected) in [
        (("begin ", "skip;", 49_999, "end"), Outcome::Whole),
        (("begin ", "skip;", 50_000, "end"), NODES_LIMIT),
    ] {
        comes_to(&rt, rt.alloc(), text, expected)?;
    }
    Ok(())
}

#[test]
fn nodes_are_counted_last(rt: HostRuntime) -> Result<(), Fail> {
    let end = Outcome::Unexpected(250_006, 250_006);
    comes_to(&rt, rt.alloc(), ("begin ", "skip;", 50_000, ""), end)?;
    Ok(())
}

// they are counted first
#[test]
fn bytes_are_limited(rt: HostRuntime) -> Result<(), Fail> {
    for (text, expected) in [
        (("begin ", " ", 1_048_567, "end"), Outcome::Whole),
        (("begin ", " ", 1_048_568, "end"), BYTES_LIMIT),
        (("begin ", " ", 1_048_570, "@"), BYTES_LIMIT),
    ] {
        comes_to(&rt, rt.alloc(), text, expected)?;
    }
    Ok(())
}
