//! The verification conditions of whole programs, each as its pair and its formula.
use crate::asked::{Noted, annotations_of, push_pair};
use ac_formula_printer::print_formula;
use ac_logic::{Annotation, Condition};
use ac_parse::parse;
use ac_policy::AnyPolicy;
use ac_tree::{NodeId, Place, PolicyName, Program};
use ac_vcg::conditions;
use std::alloc::{AllocError, Global};
use std::process::Abort;
use std::test::Fail;

/// A program with its policy and its annotations, and a line for each condition.
#[derive(Clone, Copy)]
struct Row {
    program: &'static str,
    policy: PolicyName,
    annotations: &'static [Noted],
    conditions: &'static [&'static str],
}

const ROWS: [Row; 4] = [
    Row {
        program: "var a[4]; begin a[3] := 1; end",
        policy: PolicyName::Bounds,
        annotations: &[],
        conditions: &["start -> site 2: @use 2 { 0 <= 3 and 3 + 1 <= 4 }"],
    },
    Row {
        program: "var i; begin for i := 0 to 3 do skip; end end",
        policy: PolicyName::Bounds,
        annotations: &[],
        conditions: &[
            "start -> entry 2: @entry 2 { true }",
            "head 2 -> keep 2: @header 2 { 0 <= i } implies { @test 2 { i <= 3 } implies @keep 2 { true } }",
        ],
    },
    Row {
        program: "var a[10]; var i; var x; begin for i := 0 to 9 do a[i] := 0; end x := a[9]; end",
        policy: PolicyName::Init,
        annotations: &[
            (
                Place::Loop(NodeId(4)),
                "all _0 { { 0 <= _0 and _0 + 1 <= i } implies init(a)[_0] = 1 }",
            ),
            (
                Place::After(NodeId(4)),
                "all _0 { { 0 <= _0 and _0 <= 9 } implies init(a)[_0] = 1 }",
            ),
        ],
        conditions: &[
            "start -> entry 4: @entry 4 { all _0 { { 0 <= _0 and _0 + 1 <= 0 } implies init(a)[_0] = 1 } }",
            "head 4 -> keep 4: @header 4 { 0 <= i and init(i) = 1 } implies { @invariant 4 { all _0 { { 0 <= _0 and _0 + 1 <= i } implies init(a)[_0] = 1 } } implies { @test 4 { i <= 9 } implies @set 7 { @keep 4 { all _0 { { 0 <= _0 and _0 + 1 <= i + 1 } implies put(init(a), i, 0, 1)[_0] = 1 } } } } }",
            "exit 4 -> barrier 4: @exit 4 { { 9 + 1 <= i and { i = 0 or i = 9 + 1 } } and init(i) = 1 } implies { @invariant 4 { all _0 { { 0 <= _0 and _0 + 1 <= i } implies init(a)[_0] = 1 } } implies @barrier 4 { all _0 { { 0 <= _0 and _0 <= 9 } implies init(a)[_0] = 1 } } }",
            "head 4 -> site 8: @header 4 { 0 <= i and init(i) = 1 } implies { @invariant 4 { all _0 { { 0 <= _0 and _0 + 1 <= i } implies init(a)[_0] = 1 } } implies { @test 4 { i <= 9 } implies @use 8 { init(i) = 1 } } }",
            "after 4 -> site 11: @assumed 4 { all _0 { { 0 <= _0 and _0 <= 9 } implies init(a)[_0] = 1 } } implies @use 11 { init(a)[9] = 1 }",
        ],
    },
    // the right side of a test is reached only where the left side holds
    Row {
        program: "var a[3]; var i; begin while i < 3 and a[i] <> 0 do i := i + 1; end end",
        policy: PolicyName::Bounds,
        annotations: &[],
        conditions: &[
            "start -> entry 3: @entry 3 { true }",
            "head 3 -> keep 3: @test 3 { i + 1 <= 3 and { not a[i] = 0 } } implies @set 12 { @keep 3 { true } }",
            "head 3 -> site 9: @guard 5 { i + 1 <= 3 } implies @use 9 { 0 <= i and i + 1 <= 3 }",
        ],
    },
];

#[test]
fn a_program_has_the_conditions_of_its_row(rt: HostRuntime) -> Result<(), Fail> {
    let alloc = rt.alloc();
    for row in ROWS {
        let program = parse(alloc, row.program.as_bytes())?;
        let annotations = annotations_of(&rt, alloc, row.annotations)?;
        has_its_conditions(&rt, alloc, &program, row, annotations.as_slice())?;
        drop(annotations);
        drop(program);
    }
    Ok(())
}

fn has_its_conditions<R: Abort>(
    rt: &R,
    alloc: Global,
    program: &Program,
    row: Row,
    annotations: &[Annotation],
) -> Result<(), Fail> {
    let policy = policy_of(row.policy)?;
    let made = conditions(alloc, program, &policy, row.policy, annotations)?;
    assert_eq!(rt; made.len(), row.conditions.len());
    for (condition, expected) in made.iter().zip(row.conditions) {
        let text = condition_text(alloc, condition)?;
        assert_eq!(rt; text.as_str(), *expected);
    }
    Ok(())
}

/// The policies that need no roles.
fn policy_of(name: PolicyName) -> Result<AnyPolicy, Fail> {
    match name {
        PolicyName::Init => Ok(AnyPolicy::Init),
        PolicyName::Bounds => Ok(AnyPolicy::Bounds),
        PolicyName::Symm => Err(Fail::new("no roles are given")),
    }
}

fn condition_text(alloc: Global, condition: &Condition) -> Result<String, AllocError> {
    let mut text = String::new(alloc);
    push_pair(alloc, &mut text, condition.pair)?;
    text.push_str(": ")?;
    let formula = print_formula(alloc, condition.formula.get())?;
    text.push_str(formula.as_str())?;
    Ok(text)
}
