//! Runs, step by step, against a table: how the steps end, and the trace behind them.

use ac_parse::parse;
use ac_run::{Cell, Event, Start, StartCell};
use ac_stepper::{Config, StartFault, StepFault, Stepped, begin_run};
use ac_tree::{Name, Program};
use sqlite_items::Items;
use std::alloc::{AllocError, Global};
use std::process::Abort;
use std::test::Fail;

/// A program, the numbers of its names at the start, how its steps end, and its trace behind them.
#[derive(Clone, Copy)]
struct Row {
    program: &'static str,
    start: &'static [(&'static str, &'static [i128])],
    endings: &'static str,
    trace: &'static str,
}

const ROWS: [Row; 13] = [
    Row {
        program: "var a[4]; begin a[3] := 1; end",
        start: &[("a", &[0, 0, 0, 0])],
        endings: "went ended ended",
        trace: "write a 3 0 1;",
    },
    // a product of four factors is too wide, one of three is not
    Row {
        program: "var x; begin x := 1000000000000 * 1000000000000 * 1000000000000 * 1000000000000; end",
        start: &[("x", &[5])],
        endings: "wide wide",
        trace: "",
    },
    Row {
        program: "var x; begin x := 1000000000000 * 1000000000000 * 1000000000000; end",
        start: &[("x", &[5])],
        endings: "went ended",
        trace: "write x 0 0 1000000000000000000000000000000000000;",
    },
    // what went before stays
    Row {
        program: "var x; var y; begin y := 1; x := 1000000000000 * 1000000000000 * 1000000000000 * 1000000000000; end",
        start: &[("x", &[5]), ("y", &[0])],
        endings: "went wide wide",
        trace: "write y 0 0 1;",
    },
    // the order of evaluation says what comes first: a read outside, or a number that is too wide
    Row {
        program: "var a[4]; var x; begin x := a[9] + 1000000000000 * 1000000000000 * 1000000000000 * 1000000000000; end",
        start: &[("a", &[0, 0, 0, 0]), ("x", &[0])],
        endings: "halted halted",
        trace: "read a 9 0;",
    },
    Row {
        program: "var a[4]; var x; begin x := 1000000000000 * 1000000000000 * 1000000000000 * 1000000000000 + a[9]; end",
        start: &[("a", &[0, 0, 0, 0]), ("x", &[0])],
        endings: "wide wide",
        trace: "",
    },
    Row {
        program: "var a[4]; begin a[9] := 1000000000000 * 1000000000000 * 1000000000000 * 1000000000000; end",
        start: &[("a", &[0, 0, 0, 0])],
        endings: "wide wide",
        trace: "",
    },
    Row {
        program: "var a[4]; begin a[9] := 1; end",
        start: &[("a", &[0, 0, 0, 0])],
        endings: "halted halted",
        trace: "write a 9 0 1;",
    },
    // the ends of 128 bits
    Row {
        program: "var i; var x; begin for i := x to x do skip; end end",
        start: &[
            ("i", &[0]),
            ("x", &[170141183460469231731687303715884105727]),
        ],
        endings: "went went went wide",
        trace: "read x 0 0; read x 0 0; write i 0 0 170141183460469231731687303715884105727;",
    },
    Row {
        program: "var x; begin x := -x; end",
        start: &[("x", &[-170141183460469231731687303715884105728])],
        endings: "wide",
        trace: "",
    },
    // a `for` keeps the end that it read, whatever its body writes
    Row {
        program: "var i; var n; begin for i := 0 to n do n := 0; end end",
        start: &[("i", &[7]), ("n", &[1])],
        endings: "went went went went went went went went ended ended",
        trace: "read n 0 0; write i 0 0 0; write n 0 0 0; write i 0 0 1; write n 0 0 0; write i 0 0 2;",
    },
    // a right side that decides nothing is not read
    Row {
        program: "input n : 0 .. 9; var a[2]; var x; begin if n < 2 and a[n] = 0 then x := 1; end end",
        start: &[("n", &[5]), ("a", &[0, 0]), ("x", &[0])],
        endings: "went ended",
        trace: "read n 0 0;",
    },
    // a use hands over all numbers
    Row {
        program: "var a[2]; begin use a as sums; end",
        start: &[("a", &[3, -4])],
        endings: "went ended",
        trace: "use a sums 3 -4;",
    },
];

/// A start with these entries.
fn start_of(alloc: Global, entries: &[(&str, &[i128])]) -> Result<Start, AllocError> {
    let mut cells = Vec::new(alloc);
    for (name, numbers) in entries {
        cells.push(entry(alloc, name, numbers)?)?;
    }
    Ok(Start {
        cells: Items::from_vec(cells),
    })
}

fn entry(alloc: Global, name: &str, numbers: &[i128]) -> Result<StartCell, AllocError> {
    let mut cells = Vec::new(alloc);
    for number in numbers {
        cells.push(*number)?;
    }
    Ok(StartCell {
        name: Name::new(alloc, name)?,
        numbers: Items::from_vec(cells),
    })
}

/// The first configuration of a run. No row has as many entries as would not be counted.
fn begun<'p>(alloc: Global, program: &'p Program, start: &Start) -> Result<Config<'p>, StartFault> {
    if start.cells.len() > 9 {
        return Err(StartFault::OutOfMemory);
    }
    begin_run(alloc, program, start)
}

/// Makes as many steps as there are words, and gives the word of each ending.
fn endings(alloc: Global, run: &mut Config<'_>, words: &str) -> Result<String, AllocError> {
    let mut text = String::new(alloc);
    for _ in words.split(' ') {
        if !text.is_empty() {
            text.push(' ')?;
        }
        text.push_str(ending(run.step()))?;
    }
    Ok(text)
}

fn ending(step: Result<Stepped, StepFault>) -> &'static str {
    match step {
        Ok(Stepped::Went) => "went",
        Ok(Stepped::Halted) => "halted",
        Ok(Stepped::Ended) => "ended",
        Err(StepFault::Wide) => "wide",
        Err(StepFault::OutOfMemory) => "memory",
    }
}

fn trace_text(alloc: Global, trace: &[Event]) -> Result<String, AllocError> {
    let mut text = String::new(alloc);
    for event in trace {
        if !text.is_empty() {
            text.push(' ')?;
        }
        push_event(alloc, &mut text, event)?;
    }
    Ok(text)
}

fn push_event(alloc: Global, text: &mut String, event: &Event) -> Result<(), AllocError> {
    text.push_str(event_text(alloc, event)?.as_str())
}

fn event_text(alloc: Global, event: &Event) -> Result<String, AllocError> {
    match event {
        Event::Read(cell) => {
            let place = cell_text(alloc, cell)?;
            format!(in alloc; "read {place};")
        }
        Event::Write(cell, number) => {
            let place = cell_text(alloc, cell)?;
            format!(in alloc; "write {place} {number};")
        }
        Event::Hand {
            name,
            role,
            contents,
        } => {
            let (name, role) = (name.text(), role.text());
            let numbers = numbers_text(alloc, contents.as_slice())?;
            format!(in alloc; "use {name} {role}{numbers};")
        }
    }
}

fn cell_text(alloc: Global, cell: &Cell) -> Result<String, AllocError> {
    let (name, i, j) = (cell.name.text(), cell.i, cell.j);
    format!(in alloc; "{name} {i} {j}")
}

fn numbers_text(alloc: Global, numbers: &[i128]) -> Result<String, AllocError> {
    let mut text = String::new(alloc);
    for number in numbers {
        let part = format!(in alloc; " {number}")?;
        text.push_str(part.as_str())?;
    }
    Ok(text)
}

#[test]
fn steps_end_and_tell_what_they_do_as_worked_by_hand(rt: HostRuntime) -> Result<(), Fail> {
    for row in ROWS {
        let program = parse(rt.alloc(), row.program.as_bytes())?;
        let start = start_of(rt.alloc(), row.start)?;
        runs_as_its_row_says(&rt, rt.alloc(), &program, &start, row)?;
    }
    Ok(())
}

fn runs_as_its_row_says<R: Abort>(
    rt: &R,
    alloc: Global,
    program: &Program,
    start: &Start,
    row: Row,
) -> Result<(), Fail> {
    let mut run = begun(alloc, program, start)?;
    ends_as_worked(rt, alloc, &mut run, row.endings)?;
    tells_as_worked(rt, alloc, run.trace(), row.trace)?;
    Ok(())
}

fn ends_as_worked<R: Abort>(
    rt: &R,
    alloc: Global,
    run: &mut Config<'_>,
    words: &str,
) -> Result<(), AllocError> {
    let endings = endings(alloc, run, words)?;
    assert_eq!(rt; endings.as_str(), words);
    Ok(())
}

fn tells_as_worked<R: Abort>(
    rt: &R,
    alloc: Global,
    trace: &[Event],
    expected: &str,
) -> Result<(), AllocError> {
    let text = trace_text(alloc, trace)?;
    assert_eq!(rt; text.as_str(), expected);
    Ok(())
}

/// A program, a start that doesn't fit, and the number of the first entry that is wrong, missing or too many.
const MISFITS: [(&str, &[(&str, &[i128])], u32); 7] = [
    ("var a[4]; begin a[3] := 1; end", &[("a", &[0, 0, 0])], 0),
    ("var a[4]; begin a[3] := 1; end", &[], 0),
    (
        "var a[4]; begin a[3] := 1; end",
        &[("a", &[0, 0, 0, 0, 0])],
        0,
    ),
    ("var a[4]; begin a[3] := 1; end", &[("b", &[0, 0, 0, 0])], 0),
    (
        "var a[4]; begin a[3] := 1; end",
        &[("a", &[0, 0, 0, 0]), ("b", &[0])],
        1,
    ),
    (
        "input n : 0 .. 9; var x; begin x := n; end",
        &[("n", &[10]), ("x", &[0])],
        0,
    ),
    (
        "input n : 0 .. 9; var x; begin x := n; end",
        &[("n", &[9])],
        1,
    ),
];

#[test]
fn a_start_that_misfits_is_refused_at_the_first_entry_that_does(
    rt: HostRuntime,
) -> Result<(), Fail> {
    for (text, entries, first) in MISFITS {
        let program = parse(rt.alloc(), text.as_bytes())?;
        let start = start_of(rt.alloc(), entries)?;
        assert_eq!(rt; misfit(rt.alloc(), &program, &start), Some(first));
    }
    Ok(())
}

/// The number of the first entry that misfits.
fn misfit(alloc: Global, program: &Program, start: &Start) -> Option<u32> {
    match begun(alloc, program, start) {
        Err(StartFault::Fit { index }) => Some(index),
        _ => None,
    }
}
