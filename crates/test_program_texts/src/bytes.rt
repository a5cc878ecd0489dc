//! Bytes that begin no character or no token, and a million of one byte.
use crate::outcome::{LITERAL_LIMIT, NAME_LIMIT, NESTING_LIMIT, Outcome, comes_to, outcome_of};
use std::test::Fail;

/// Bytes that are no UTF-8 at each kind of place: at the ends, between tokens, inside a word, a name, a sign, a literal and
/// a comment, and behind faults that count less.
const NOT_UTF8: [(&[u8], usize); 23] = [
    (b"\xFF", 0),
    (b"\xFFbegin end", 0),
    (b"be\x80gin end", 2),
    (b"begin\xFF end", 5),
    (b"begin \xFFend", 6),
    (b"begin \xC1\xBF end", 6),
    (b"begin x\x80 := 1; end", 7),
    (b"begin x\xC3y := 1; end", 7),
    (b"begin x :\xC0= 1; end", 9),
    (b"begin x := \xC3", 11),
    (b"begin x := 1\xF5; end", 12),
    (b"begin x := 1\xE0\x9F\xBF2; end", 12),
    (b"begin end # \xE2\x82", 12),
    (b"begin end # \xE2\x82 end", 12),
    (b"begin end # \xED\xA0\x80", 12),
    (b"begin end # \xF0\x8F\xBF\xBF", 12),
    (b"begin end # \xF0\x9F\x99\n", 12),
    (b"begin end # \xF4\x90\x80\x80", 12),
    (b"begin end # \xC3\xA9\xA9", 14),
    (b"begin end\xFE", 9),
    (b"begin @ \xFF end", 8),
    (b"begin 1000000000001 \xFF", 20),
    (b"begin begin \xFF", 12),
];

#[test]
fn a_byte_that_begins_no_character_is_told(rt: HostRuntime) {
    for (bytes, at) in NOT_UTF8 {
        let outcome = outcome_of(rt.alloc(), bytes);
        assert_eq!(rt; outcome, Outcome::NotUtf8(at), "{bytes:?}");
    }
}

/// A comment may hold any character, and blanks are four bytes alone.
const CHARACTERS: [(&[u8], Outcome); 15] = [
    (b"begin @ end", Outcome::Token(6)),
    (b"begin \xC3\xA9 := 1; end", Outcome::Token(6)),
    (b"begin x\xC3\xA9 := 1; end", Outcome::Token(7)),
    (b"begin x : = 1; end @", Outcome::Token(19)),
    (
        b"begin end # \xE2\x82\xAC \xF0\x9F\x99\x82 @",
        Outcome::Whole,
    ),
    (b"begin end # \xE2\x82\xAC\r@\n\xC2\xA0", Outcome::Token(18)),
    (b"begin x := 01; end", Outcome::Token(11)),
    (b"begin x := 00; end", Outcome::Token(11)),
    (b"begin _x := 1; end", Outcome::Token(6)),
    (b"begin x := 1.5; end", Outcome::Token(12)),
    (b"\tbegin\r\nend\n", Outcome::Whole),
    (b"begin\x00end", Outcome::Token(5)),
    (b"begin\x0Cend", Outcome::Token(5)),
    (b"begin end\x7F", Outcome::Token(9)),
    (b"\xEF\xBB\xBFbegin end", Outcome::Token(0)),
];

#[test]
fn a_character_that_begins_no_token_is_told(rt: HostRuntime) {
    for (bytes, expected) in CHARACTERS {
        assert_eq!(rt; outcome_of(rt.alloc(), bytes), expected, "{bytes:?}");
    }
}

#[test]
fn a_million_of_one_byte_has_an_answer(rt: HostRuntime) -> Result<(), Fail> {
    let end = Outcome::Unexpected(1_000_000, 1_000_000);
    for (before, byte, expected) in [
        ("", "(", Outcome::Unexpected(0, 1)),
        ("begin x := ", "(", NESTING_LIMIT),
        ("", "#", end),
        ("", " ", end),
        ("", "7", LITERAL_LIMIT),
        ("", "0", Outcome::Token(0)),
        ("", "a", NAME_LIMIT),
    ] {
        let parts = (before, byte, 1_000_000, "");
        comes_to(&rt, rt.alloc(), parts, expected)?;
    }
    Ok(())
}
