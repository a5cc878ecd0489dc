//! Texts that are no formula, each with the byte at which none goes on.
use crate::texts::{formula_of, place_of};
use std::alloc::{AllocError, Global};
use std::process::Abort;
use std::test::Fail;

/// A formula under a label in pieces, and where the text that ends with each is refused.
const LABELLED: [(&str, Option<u32>); 22] = [
    ("@", Some(1)),
    ("s", Some(1)),
    ("e", Some(1)),
    ("t", Some(4)),
    (" ", Some(5)),
    ("1", Some(6)),
    (" {", Some(8)),
    (" i", Some(10)),
    ("n", Some(11)),
    ("i", Some(12)),
    ("t", Some(13)),
    ("(", Some(14)),
    ("a", Some(15)),
    (")", Some(16)),
    ("[", Some(17)),
    ("0", Some(18)),
    ("]", Some(19)),
    (" =", Some(21)),
    (" -", Some(23)),
    ("b", Some(24)),
    (" ", Some(25)),
    ("}", None),
];

/// A formula with an `all` behind that one.
const QUANTIFIED: [(&str, Option<u32>); 17] = [
    ("@set 1 { init(a)[0] = -b }", None),
    (" ", None),
    ("o", Some(27)),
    ("r", Some(29)),
    (" a", Some(31)),
    ("l", Some(32)),
    ("l", Some(33)),
    (" _", Some(34)),
    ("i", Some(36)),
    (" {", Some(38)),
    (" _", Some(39)),
    ("i", Some(41)),
    (" >", Some(43)),
    ("=", Some(44)),
    (" #", Some(46)),
    ("2", Some(47)),
    (" }", None),
];

fn each_front_is_refused_at_its_own_place<R: Abort>(
    rt: &R,
    alloc: Global,
    pieces: &[(&str, Option<u32>)],
) -> Result<(), AllocError> {
    let mut text = String::new(alloc);
    for (piece, place) in pieces.iter() {
        text.push_str(piece)?;
        assert_eq!(rt;
            place_of(formula_of(rt, alloc, text.as_str())),
            *place,
            "{text}"
        );
    }
    Ok(())
}

#[test]
fn each_front_of_a_labelled_formula_is_refused_at_its_own_place(
    rt: HostRuntime,
) -> Result<(), Fail> {
    each_front_is_refused_at_its_own_place(&rt, rt.alloc(), &LABELLED)?;
    Ok(())
}

#[test]
fn each_front_of_a_quantified_formula_is_refused_at_its_own_place(
    rt: HostRuntime,
) -> Result<(), Fail> {
    each_front_is_refused_at_its_own_place(&rt, rt.alloc(), &QUANTIFIED)?;
    Ok(())
}

/// A name, a number or a sign in place of the first, the second and the third token of `x <= 3`, and where each is refused.
const SIGNS: [(&str, [Option<u32>; 3]); 17] = [
    ("y", [None, Some(2), None]),
    ("_k", [Some(0), Some(2), Some(5)]),
    ("7", [None, Some(2), None]),
    ("#", [Some(2), Some(2), Some(6)]),
    ("@", [Some(2), Some(2), Some(5)]),
    ("(", [Some(2), Some(2), Some(6)]),
    (")", [Some(0), Some(2), Some(5)]),
    ("[", [Some(0), Some(5), Some(5)]),
    ("]", [Some(0), Some(2), Some(5)]),
    ("{", [Some(2), Some(2), Some(5)]),
    ("}", [Some(0), Some(2), Some(5)]),
    (",", [Some(0), Some(2), Some(5)]),
    ("+", [Some(0), Some(5), Some(5)]),
    ("-", [Some(2), Some(5), Some(6)]),
    ("*", [Some(0), Some(5), Some(5)]),
    ("=", [Some(0), None, Some(5)]),
    (";", [Some(0), Some(2), Some(5)]),
];

/// A reserved word in their places.
const WORDS: [(&str, [Option<u32>; 3]); 11] = [
    ("true", [Some(5), Some(2), Some(5)]),
    ("false", [Some(6), Some(2), Some(5)]),
    ("not", [Some(4), Some(2), Some(5)]),
    ("and", [Some(0), Some(2), Some(5)]),
    ("or", [Some(0), Some(2), Some(5)]),
    ("implies", [Some(0), Some(2), Some(5)]),
    ("all", [Some(4), Some(2), Some(5)]),
    ("init", [Some(5), Some(2), Some(9)]),
    ("put", [Some(4), Some(2), Some(8)]),
    ("use", [Some(0), Some(2), Some(5)]),
    ("while", [Some(0), Some(2), Some(5)]),
];

fn each_is_refused_where_it_does_not_go_on<R: Abort>(
    rt: &R,
    alloc: Global,
    token: &str,
    [first, second, third]: [Option<u32>; 3],
) -> Result<(), AllocError> {
    let text = format!(in alloc; "{token} <= 3")?;
    assert_eq!(rt;
        place_of(formula_of(rt, alloc, text.as_str())),
        first,
        "{text}"
    );
    let text = format!(in alloc; "x {token} 3")?;
    assert_eq!(rt;
        place_of(formula_of(rt, alloc, text.as_str())),
        second,
        "{text}"
    );
    let text = format!(in alloc; "x <= {token}")?;
    assert_eq!(rt;
        place_of(formula_of(rt, alloc, text.as_str())),
        third,
        "{text}"
    );
    Ok(())
}

#[test]
fn each_sign_is_refused_where_it_does_not_go_on(rt: HostRuntime) -> Result<(), Fail> {
    for (token, places) in SIGNS {
        each_is_refused_where_it_does_not_go_on(&rt, rt.alloc(), token, places)?;
    }
    Ok(())
}

#[test]
fn each_reserved_word_is_refused_where_it_does_not_go_on(rt: HostRuntime) -> Result<(), Fail> {
    for (token, places) in WORDS {
        each_is_refused_where_it_does_not_go_on(&rt, rt.alloc(), token, places)?;
    }
    Ok(())
}

#[test]
fn a_fault_is_refused_at_its_byte(rt: HostRuntime) {
    let alloc = rt.alloc();
    for (text, place) in [
        // the ends of 64 bits with a sign, and of 32 bits
        ("x = 9223372036854775807", None),
        ("x = 9223372036854775808", Some(4)),
        ("x = 18446744073709551615", Some(4)),
        ("x = 18446744073709551616", Some(4)),
        ("x = -9223372036854775808", None),
        ("x = -9223372036854775809", Some(5)),
        ("#4294967295 = 0", None),
        ("#4294967296 = 0", Some(1)),
        ("@set 4294967295 { true }", None),
        ("@set 4294967296 { true }", Some(5)),
        ("x = 01", Some(4)),
        ("x = 1a", Some(5)),
        // what opens and doesn't close, or the other way round
        ("{ true", Some(6)),
        ("true }", Some(5)),
        ("(x) <= 1 )", Some(9)),
        ("( (x) <= 1", Some(6)),
        ("a[0 = 1", Some(4)),
        ("a[0]] = 1", Some(4)),
        ("put(a, 0, 0)[0] = 1", Some(11)),
        // bytes that no token has
        ("é = 1", Some(0)),
        ("x λ 1", Some(2)),
        ("x = 1 // 2", Some(6)),
        ("{ true } π", Some(9)),
        ("x = 1\u{0}", Some(5)),
    ] {
        assert_eq!(rt; place_of(formula_of(&rt, alloc, text)), place, "{text}");
    }
}
