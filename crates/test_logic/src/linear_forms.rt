//! Normal forms of terms, and combinations of them.
use crate::texts::term_of;
use ac_formula_printer::print_term;
use ac_linear::{LinFault, Linear, combine, normal};
use std::alloc::{AllocError, Global};
use std::process::Abort;
use std::test::Fail;

/// The constant and the parts of a form, as `3 + 1 * x`; `wide` where a number leaves its range.
fn text_of(alloc: Global, form: Result<Linear, LinFault>) -> Result<String, AllocError> {
    match form {
        Ok(form) => text_of_form(alloc, &form),
        Err(LinFault::Wide) => format!(in alloc; "wide"),
        Err(LinFault::OutOfMemory) => Err(AllocError),
    }
}

fn text_of_form(alloc: Global, form: &Linear) -> Result<String, AllocError> {
    let mut text = format!(in alloc; "{}", form.constant)?;
    for part in form.parts.as_slice() {
        let unit = print_term(alloc, part.unit.get())?;
        let more = format!(in alloc; " + {} * {}", part.factor, unit.as_str())?;
        text.push_str(more.as_str())?;
    }
    Ok(text)
}

fn normal_of<R: Abort>(
    rt: &R,
    alloc: Global,
    text: &str,
) -> Result<Result<Linear, LinFault>, Fail> {
    let term = term_of(rt, alloc, text)?;
    Ok(normal(alloc, term.get()))
}

#[test]
fn a_unit_stands_once_and_a_number_beyond_the_range_is_wide(rt: HostRuntime) -> Result<(), Fail> {
    let alloc = rt.alloc();
    for (text, form) in [
        ("2 * x + (3 - x)", "3 + 1 * x"),
        ("x - x", "0"),
        ("y - 2 * (x + 1)", "-2 + -2 * x + 1 * y"),
        ("a[x + 0 * y,0] + a[x]", "0 + 2 * a[x]"),
        ("y * x", "0 + 1 * x * y"),
        ("4000000 * 1000000000000", "4000000000000000000"),
        ("1000000000000 * 5000000", "wide"),
    ] {
        let found = text_of(alloc, normal_of(&rt, alloc, text)?)?;
        assert_eq!(rt; found.as_str(), form, "{text}");
    }
    Ok(())
}

#[test]
fn contradicting_facts_leave_a_constant(rt: HostRuntime) -> Result<(), Fail> {
    let alloc = rt.alloc();
    let below = normal_of(&rt, alloc, "x - 5")??;
    let above = normal_of(&rt, alloc, "6 - x")??;
    let sum = text_of(alloc, combine(alloc, &[below, above], &[1, 1]))?;
    assert_eq!(rt; sum.as_str(), "1");
    Ok(())
}
