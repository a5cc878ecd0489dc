//! Asks about runs.
use crate::flow::program;
use ac_asks::{Answer, list_at, text_at, told, whole, wholes};
use ac_run::{Cell, Event, Start, StartCell};
use ac_stepper::{Config, StartFault, StepFault, Stepped, begin_run};
use ac_tree::{Name, Program};
use serde_json::{Value, json};
use sqlite_items::Items;
use std::alloc::{AllocError, Global};

/// No start that is asked about has more entries.
const MOST_ENTRIES: usize = 1000000;

/// Steps next to each other that ended in the same way.
#[derive(Drop)]
struct Stretch {
    word: &'static str,
    steps: u64,
}

/// What the steps of a run came to: how they ended, and the events of each, up to the last that had any.
#[derive(Drop)]
struct Story {
    stretches: Vec<Stretch>,
    events: Vec<Value>,
    silent: u64,
}

/// `{"fit":K}`, or how the steps ended and the events that each of them added.
pub fn run(alloc: Global, ask: &Value) -> Answer {
    let (Some(text), Some(entries), Some(steps)) = (
        text_at(ask, "program"),
        list_at(ask, "start"),
        steps_of(ask),
    ) else {
        return Ok(None);
    };
    let Some(program) = program(alloc, text)? else {
        return Ok(None)
    };
    let answer = run_with(alloc, &program, entries, steps);
    drop(program);
    answer
}

/// The run of a program from the start with these entries.
fn run_with(alloc: Global, program: &Program, entries: &[Value], steps: u64) -> Answer {
    let Some(start) = start_of(alloc, entries)? else {
        return Ok(None)
    };
    let answer = run_from(alloc, program, &start, steps);
    drop(start);
    answer
}

fn run_from(alloc: Global, program: &Program, start: &Start, steps: u64) -> Answer {
    if start.cells.len() > MOST_ENTRIES {
        return Ok(None);
    }
    match begin_run(alloc, program, start) {
        Ok(mut config) => {
            let answer = ran(alloc, &mut config, steps);
            drop(config);
            answer
        }
        Err(StartFault::Fit { index }) => told(alloc, "fit", Value::from(index)),
        Err(StartFault::OutOfMemory) => Err(anyhow::Error::from(AllocError)),
    }
}

fn steps_of(ask: &Value) -> Option<u64> {
    ask.get("steps")?.as_u64()
}

fn start_of(alloc: Global, entries: &[Value]) -> Result<Option<Start>, AllocError> {
    let mut cells = Vec::new(alloc);
    for entry in entries.iter() {
        match entry_of(alloc, entry)? {
            Some(cell) => cells.push(cell)?,
            None => return Ok(None),
        }
    }
    Ok(Some(Start {
        cells: Items::from_vec(cells),
    }))
}

fn entry_of(alloc: Global, entry: &Value) -> Result<Option<StartCell>, AllocError> {
    let Some((name, values)) = name_and_values(entry) else {
        return Ok(None);
    };
    let Some(numbers) = numbers_of(alloc, values)? else {
        return Ok(None);
    };
    Ok(Some(StartCell {
        name: Name::new(alloc, name)?,
        numbers: Items::from_vec(numbers),
    }))
}

fn name_and_values(entry: &Value) -> Option<(&str, &[Value])> {
    match entry.as_array()?.as_slice() {
        [name, values] => Some((name.as_str()?, values.as_array()?.as_slice())),
        _ => None,
    }
}

fn numbers_of(alloc: Global, values: &[Value]) -> Result<Option<Vec<i128>>, AllocError> {
    let mut numbers = Vec::new(alloc);
    for value in values.iter() {
        match number_of(value) {
            Some(number) => numbers.push(number)?,
            None => return Ok(None),
        }
    }
    Ok(Some(numbers))
}

/// A number of 128 bits, beyond 64 bits as a text of its decimals.
fn number_of(value: &Value) -> Option<i128> {
    match value.as_str() {
        Some(text) => match text.parse::<i128>() {
            Ok(number) => Some(number),
            Err(_) => None,
        },
        None => Some(i128::from(value.as_i64()?)),
    }
}

fn ran(alloc: Global, config: &mut Config<'_>, steps: u64) -> Answer {
    let mut story = Story {
        stretches: Vec::new(alloc),
        events: Vec::new(alloc),
        silent: 0,
    };
    match tell(alloc, config, steps, &mut story) {
        Ok(()) => retold(alloc, story),
        Err(error) => {
            drop(story);
            Err(error)
        }
    }
}

fn retold(alloc: Global, story: Story) -> Answer {
    let Story {
        stretches,
        events,
        silent: _,
    } = story;
    let steps = stretch_values(alloc, stretches.as_slice())?;
    Ok(Some(json!(in alloc; {"steps": steps, "trace": events})?))
}

/// Makes the steps, and tells how each ended and what it added to the trace.
fn tell(
    alloc: Global,
    config: &mut Config<'_>,
    steps: u64,
    story: &mut Story,
) -> anyhow::Result<()> {
    for _ in 0..steps {
        let before = config.trace().len();
        let word = word_of(config.step())?;
        count(&mut story.stretches, word)?;
        add_events(alloc, story, config.trace(), before)?;
    }
    Ok(())
}

fn word_of(step: Result<Stepped, StepFault>) -> Result<&'static str, AllocError> {
    match step {
        Ok(Stepped::Went) => Ok("went"),
        Ok(Stepped::Halted) => Ok("halted"),
        Ok(Stepped::Ended) => Ok("ended"),
        Err(StepFault::Wide) => Ok("wide"),
        Err(StepFault::OutOfMemory) => Err(AllocError),
    }
}

fn count(stretches: &mut Vec<Stretch>, word: &'static str) -> Result<(), AllocError> {
    if let Some(last) = stretches.last_mut() {
        if last.word == word {
            last.steps = last.steps.saturating_add(1);
            return Ok(());
        }
    }
    stretches.push(Stretch { word, steps: 1 })?;
    Ok(())
}

/// Adds what a step added to the trace, behind an empty list for each silent step before it.
fn add_events(
    alloc: Global,
    story: &mut Story,
    trace: &[Event],
    before: usize,
) -> anyhow::Result<()> {
    if trace.len() <= before {
        story.silent = story.silent.saturating_add(1);
        return Ok(());
    }
    for _ in 0..story.silent {
        story.events.push(Value::Array(Vec::new(alloc)))?;
    }
    story.silent = 0;
    story.events.push(event_list(alloc, trace, before)?)?;
    Ok(())
}

fn event_list(alloc: Global, trace: &[Event], before: usize) -> anyhow::Result<Value> {
    let mut list = Vec::new(alloc);
    for event in trace.iter().skip(before) {
        list.push(event_value(alloc, event)?)?;
    }
    Ok(Value::Array(list))
}

fn event_value(alloc: Global, event: &Event) -> anyhow::Result<Value> {
    let mut list = Vec::new(alloc);
    match event {
        Event::Read(cell) => {
            add_word(alloc, &mut list, "read")?;
            add_cell(alloc, &mut list, cell)?;
        }
        Event::Write(cell, number) => {
            add_word(alloc, &mut list, "write")?;
            add_cell(alloc, &mut list, cell)?;
            list.push(whole(alloc, *number)?)?;
        }
        Event::Hand {
            name,
            role,
            contents,
        } => {
            add_word(alloc, &mut list, "hand")?;
            add_word(alloc, &mut list, name.text())?;
            add_word(alloc, &mut list, role.text())?;
            list.push(Value::Array(wholes(alloc, contents.as_slice())?))?;
        }
    }
    Ok(Value::Array(list))
}

fn add_word(alloc: Global, list: &mut Vec<Value>, word: &str) -> Result<(), AllocError> {
    list.push(Value::String(String::from_str(alloc, word)?))?;
    Ok(())
}

/// Adds the name of a cell and its two indexes.
fn add_cell(alloc: Global, list: &mut Vec<Value>, cell: &Cell) -> anyhow::Result<()> {
    add_word(alloc, list, cell.name.text())?;
    list.push(whole(alloc, cell.i)?)?;
    list.push(whole(alloc, cell.j)?)?;
    Ok(())
}

fn stretch_values(alloc: Global, stretches: &[Stretch]) -> Result<Vec<Value>, AllocError> {
    let mut list = Vec::new(alloc);
    for stretch in stretches.iter() {
        let (word, steps) = (stretch.word, stretch.steps);
        list.push(json!(in alloc; [word, steps])?)?;
    }
    Ok(list)
}
