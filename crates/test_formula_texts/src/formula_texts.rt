//! Texts that are read and printed again, and places where none goes on.
use crate::texts::{formula_of, place_of, term_of};
use ac_formula_printer::{print_formula, print_term};
use ac_logic::{Change, LabelKind, Sym, are_changes_closed, labels, substitute};
use ac_tree::{Name, NodeId};
use std::test::Fail;

#[test]
fn formulas_are_printed_as_they_are_read(rt: HostRuntime) -> Result<(), Fail> {
    let alloc = rt.alloc();
    for (text, print) in [
        ("x < 3", "x + 1 <= 3"),
        ("x = -9223372036854775808", "x = -9223372036854775808"),
        ("not 2 \t- #0 = #1", "not 2 - #0 = #1"),
        (
            "true implies true implies true",
            "true implies { true implies true }",
        ),
        (
            "@test 1 { init(b)[-1] <= #0 }",
            "@test 1 { init(b)[-1] <= #0 }",
        ),
        (
            "all _0 { 0 + _0   = \tinit(y) }",
            "all _0 { 0 + _0 = init(y) }",
        ),
    ] {
        let Ok(formula) = formula_of(&rt, alloc, text) else {
            panic!(rt; "{text}")
        };
        assert_eq!(rt; print_formula(alloc, formula.get())?.as_str(), print);
    }
    Ok(())
}

#[test]
fn terms_are_printed_as_they_are_read(rt: HostRuntime) -> Result<(), Fail> {
    let alloc = rt.alloc();
    for (text, print) in [
        ("x+1", "x + 1"),
        ("put(a, y, 0, z)[1,0]", "put(a, y, 0, z)[1]"),
    ] {
        let Ok(term) = term_of(&rt, alloc, text) else {
            panic!(rt; "{text}")
        };
        assert_eq!(rt; print_term(alloc, term.get())?.as_str(), print);
    }
    Ok(())
}

#[test]
fn a_refusal_names_the_first_token_at_which_none_goes_on(rt: HostRuntime) {
    let alloc = rt.alloc();
    for (text, place) in [
        ("", 0),
        ("x <", 3),
        ("x = 9223372036854775808", 4),
        ("x = -9223372036854775809", 5),
        ("-1 = (init(z) - 7) + (#0 ", 25),
        ("@barr", 1),
    ] {
        assert_eq!(rt;
            place_of(formula_of(&rt, alloc, text)),
            Some(place),
            "{text}"
        );
    }
    assert_eq!(rt; place_of(term_of(&rt, alloc, "x +")), Some(3));
}

#[test]
fn a_symbol_is_changed_into_a_term(rt: HostRuntime) -> Result<(), Fail> {
    let alloc = rt.alloc();
    let Ok(formula) = formula_of(&rt, alloc, "0 <= x") else {
        panic!(rt; "a formula")
    };
    let Ok(term) = term_of(&rt, alloc, "x + 1") else {
        panic!(rt; "a term")
    };
    let changes = [Change::Scalar(Sym::Value(Name::new(alloc, "x")?), term)];
    assert!(rt; are_changes_closed(&changes));
    let after = substitute(alloc, &formula, &changes)?;
    assert_eq!(rt; print_formula(alloc, after.get())?.as_str(), "0 <= x + 1");
    Ok(())
}

#[test]
fn a_condition_with_one_aim_has_one_label(rt: HostRuntime) -> Result<(), Fail> {
    let alloc = rt.alloc();
    let Ok(formula) = formula_of(&rt, alloc, "@use 2 { 0 <= 3 and 3 + 1 <= 4 }") else {
        panic!(rt; "a formula")
    };
    let labels = labels(alloc, formula.get())?;
    let [label] = labels.as_slice() else {
        panic!(rt; "one label")
    };
    assert_eq!(rt; label.kind, LabelKind::Need);
    assert_eq!(rt; label.node, NodeId(2));
    Ok(())
}
