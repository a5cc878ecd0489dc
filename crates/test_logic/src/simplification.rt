//! What the simplifier makes of a formula, and by which rewrites.
use crate::texts::formula_of;
use ac_formula_printer::print_formula;
use ac_simplify::{Rewrite, simplify};
use std::alloc::{AllocError, Global};
use std::test::Fail;

/// The path and the rule of each rewrite, as `[1]13 []11 `.
fn text_of(alloc: Global, rewrites: &[Rewrite]) -> Result<String, AllocError> {
    let mut text = String::new(alloc);
    for rewrite in rewrites {
        let more = format!(in alloc; "{:?}{} ", rewrite.path.as_slice(), rewrite.rule.number())?;
        text.push_str(more.as_str())?;
    }
    Ok(text)
}

#[test]
fn rewrites_go_from_the_leaves_up(rt: HostRuntime) -> Result<(), Fail> {
    let alloc = rt.alloc();
    for (text, simple, rewrites) in [
        ("true and x = 1", "x = 1", "[]1 "),
        ("x = 1 implies not false", "true", "[1]13 []11 "),
        ("true implies true", "true", "[]9 "),
        (
            "1 <= 0 or { x = 1 and 2 = 2 }",
            "x = 1",
            "[0]14 [1, 1]14 [1]2 []7 ",
        ),
        (
            "all _0 { @use 2 { 0 <= 0 } }",
            "true",
            "[0, 0]14 [0]15 []16 ",
        ),
        ("x = 1 and y = 1", "x = 1 and y = 1", ""),
    ] {
        let formula = formula_of(&rt, alloc, text)?;
        let found = simplify(alloc, &formula)?;
        let print = print_formula(alloc, found.formula.get())?;
        assert_eq!(rt; print.as_str(), simple, "{text}");
        let replay = text_of(alloc, found.rewrites.as_slice())?;
        assert_eq!(rt; replay.as_str(), rewrites, "{text}");
    }
    Ok(())
}
