//! Each limit on programs, allowed and passed by one.

use crate::calls::{POLICY, assert_answer, certify, copies, files};
use ac_io::MemSink;
use std::alloc::{AllocError, Global};
use std::fmt::Write;
use std::test::Fail;

/// A program that passes a limit, put together of copies of a text, with the limit.
const PASSED: [(&str, &str, usize, &str, &str); 6] = [
    (
        "const k = 1",
        "0",
        11,
        "01; begin end",
        "limit: literal 1000000000000\n",
    ),
    (
        "var a[",
        "9",
        26,
        "]; begin end",
        "limit: literal 1000000000000\n",
    ),
    ("var ", "n", 33, "; begin end", "limit: name 32\n"),
    ("begin x := ", "(", 65, "", "limit: nesting 64\n"),
    ("begin x := 1 ", "- 1 ", 257, "", "limit: operators 256\n"),
    ("", " ", 1_048_577, "", "limit: program 1048576\n"),
];

#[test]
fn a_limit_that_is_passed_is_named_with_its_number(rt: HostRuntime) -> Result<(), Fail> {
    let alloc = rt.alloc();
    for (before, text, count, after, report) in PASSED {
        let program = copies(alloc, before, text, count, after)?;
        assert_answer(&rt, alloc, program.as_bytes(), POLICY.as_bytes(), 7, report)?;
    }
    Ok(())
}

/// A program with so many declarations `var aN[1];` and so many assignments `a0[0]:=0;`.
fn program_of(
    alloc: Global,
    declarations: usize,
    assignments: usize,
) -> Result<String, AllocError> {
    let mut text = String::new(alloc);
    for number in 0..declarations {
        write!(text, "var a{number}[1];")?;
    }
    text.push_str("begin ")?;
    copies(alloc, text.as_str(), "a0[0]:=0;", assignments, "end")
}

/// Declarations, assignments, and the code of the call.
const NUMBERS: [(usize, usize, u8); 6] = [
    (1, 1_000, 0),
    (1, 1_001, 3),
    (49_999, 0, 0),
    (50_000, 0, 7),
    (46_999, 1_000, 0),
    (47_000, 1_000, 7),
];

#[test]
fn as_many_nodes_and_statements_as_are_allowed(rt: HostRuntime) -> Result<(), Fail> {
    let alloc = rt.alloc();
    for (declarations, assignments, code) in NUMBERS {
        let program = program_of(alloc, declarations, assignments)?;
        let mut files = files(alloc, program.as_bytes(), POLICY.as_bytes())?;
        let status = certify(alloc, &mut files, &mut MemSink::new(alloc))?;
        assert_eq!(rt; status.code(), code, "{declarations} {assignments}");
    }
    Ok(())
}
