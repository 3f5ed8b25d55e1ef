//! How long changes and a program take, and how long each function on sets of states takes.

ghost use Rattle.px_afa.specs.Sound.{AreLive};
ghost use Rattle.px_xpath.specs.Subscribed.{subscriptions};

use crate::compare::next_item;
use crate::operands::Operands;
use crate::quiet::time_quiet;
use crate::trouble::Trouble;
use crate::workload::{add as add_filter, add_to_both, filters, shared};
use px_afa::Program;
use px_feed::{Item, Items, generate};
use px_io::{MemSource, Source};
use px_prune::{Compiled, push};
use px_step::{accept, add, mask, pop, value_number, value_text};
use px_workload::{Journal, Live};
use px_xpath::Numbered;
use std::alloc::{AllocError, Global};
use std::sync::Arc;
use std::time::{Clock, Instant};

/// How often each function is called.
pub const CALLS: u32 = 1_000;

/// The seed of the filters.
const SEED: u32 = 7;

/// A function on sets, at the operands of its kind.
#[derive(Clone, Copy, Drop)]
enum Function {
    ValueText,
    ValueNumber,
    Add,
    Pop,
    Mask,
    Push,
    Accept,
}

/// The functions with the names that they are printed by.
const FUNCTIONS: [(&str, Function); 7] = [
    ("value_text", Function::ValueText),
    ("value_number", Function::ValueNumber),
    ("add", Function::Add),
    ("pop", Function::Pop),
    ("mask", Function::Mask),
    ("push", Function::Push),
    ("accept", Function::Accept),
];

/// Adds so many generated filters one by one, builds their program, calls each function on its
/// sets, filters a document that matches none, and prints a line for the adds, a snapshot, the
/// build, what machines share, each function and the document: its name, how many calls, the
/// nanoseconds that they took together, and how many filters, states or members one answer has.
pub fn time_all<R: Clock + Print>(rt: &R, alloc: Global, count: u32) -> Result<(), Trouble> {
    let journal = generated(alloc, count)?;
    time_changes(rt, alloc, &journal, count)?;
    let live = filters(alloc, &journal)?;
    let program = time_build(rt, alloc, live.as_slice())?;
    let program = shared(alloc, program)?;
    let compiled = time_compiling(rt, alloc, program.clone()?)?;
    time_functions(rt, alloc, &compiled)?;
    time_quiet(rt, alloc, program, compiled)
}

// A journal with so many generated filters.
fn generated(alloc: Global, count: u32) -> Result<Journal, Trouble> {
    let mut source = MemSource::new(generate(alloc, SEED, count, 0)?);
    added(alloc, &mut source, count)
}

// A journal with the first filters of a feed, so many, which it has before all else.
fn added<S: Source>(alloc: Global, source: &mut S, count: u32) -> Result<Journal, Trouble> {
    let mut items = Items::new(alloc)?;
    let mut journal = Journal::new(alloc);
    for _ in 0..count {
        match next_item(&mut items, source)? {
            Some(Item::Add { text }) => add_filter(alloc, &mut journal, text.as_slice())?,
            Some(_) | None => return Err(Trouble::Feed),
        }
    }
    Ok(journal)
}

// Times the adds of a journal's filters, so many, to another one, with a list of those that are
// live after each; and times one snapshot.
fn time_changes<R: Clock + Print>(
    rt: &R,
    alloc: Global,
    journal: &Journal,
    count: u32,
) -> Result<(), Trouble> {
    let given = filters(alloc, journal)?;
    let start = now(rt)?;
    let live = added_again(alloc, given.as_slice())?;
    let nanos = nanos_since(rt, &start)?;
    print_time(rt, "live_add", count, nanos, live.as_slice().len())?;
    let start = now(rt)?;
    let snapshot = journal.snapshot(alloc)?;
    let nanos = nanos_since(rt, &start)?;
    print_time(rt, "snapshot", 1, nanos, snapshot.as_slice().len())
}

// Adds filters one by one to a new journal, and to the list of its live filters, which is the
// answer.
fn added_again(alloc: Global, given: &[Numbered]) -> Result<Live, Trouble> {
    let mut journal = Journal::new(alloc);
    let mut live = Live::new(alloc);
    for numbered in given {
        add_to_both(&mut journal, &mut live, numbered.filter.share()?)?;
    }
    Ok(live)
}

// Times one build, which is the answer.
fn time_build<R: Clock + Print>(
    rt: &R,
    alloc: Global,
    live: &[Numbered],
) -> Result<Program, Trouble>
    requires live { AreLive (subscriptions live.now) }
{
    let start = now(rt)?;
    let program = Program::build(alloc, live)?;
    let nanos = nanos_since(rt, &start)?;
    print_time(rt, "build", 1, nanos, program.states() as usize)?;
    Ok(program)
}

// Times what machines share beside a program, which is the answer.
fn time_compiling<R: Clock + Print>(
    rt: &R,
    alloc: Global,
    program: Arc<Program>,
) -> Result<Arc<Compiled>, Trouble> {
    let start = now(rt)?;
    let compiled = Compiled::of(alloc, program)?;
    let nanos = nanos_since(rt, &start)?;
    print_time(rt, "compile", 1, nanos, compiled.firsts().as_slice().len())?;
    Ok(compiled)
}

// Times all functions.
fn time_functions<R: Clock + Print>(
    rt: &R,
    alloc: Global,
    compiled: &Compiled,
) -> Result<(), Trouble> {
    let operands = Operands::of(alloc, compiled)?;
    for (name, function) in FUNCTIONS {
        let start = now(rt)?;
        let members = call_often(alloc, compiled, &operands, function)?;
        let nanos = nanos_since(rt, &start)?;
        print_time(rt, name, CALLS, nanos, members)?;
    }
    Ok(())
}

// Calls a function as often as all are called: how many members its last answer has.
fn call_often(
    alloc: Global,
    compiled: &Compiled,
    operands: &Operands,
    function: Function,
) -> Result<usize, AllocError> {
    let mut members = 0;
    for _ in 0..CALLS {
        members = call(alloc, compiled, operands, function)?;
    }
    Ok(members)
}

// Calls a function once: how many members its answer has.
fn call(
    alloc: Global,
    compiled: &Compiled,
    operands: &Operands,
    function: Function,
) -> Result<usize, AllocError> {
    let program = compiled.program();
    let Operands {
        class,
        label,
        texts,
        numbers,
        inner,
        parent,
        firsts,
    } = operands;
    let set = match function {
        Function::ValueText => value_text(alloc, program, 0)?,
        Function::ValueNumber => value_number(alloc, program, *class)?,
        Function::Add => add(alloc, texts, numbers)?,
        Function::Pop => pop(alloc, program, inner, *label)?,
        Function::Mask => mask(alloc, parent, firsts)?,
        Function::Push => push(alloc, compiled, firsts, *label)?,
        Function::Accept => return Ok(accept(alloc, program, firsts)?.as_slice().len()),
    };
    Ok(set.as_slice().len())
}

/// The time now.
pub fn now(rt: &impl Clock) -> Result<Instant, Trouble> {
    match Instant::now(rt) {
        Ok(instant) => Ok(instant),
        Err(_) => Err(Trouble::Clock),
    }
}

/// The nanoseconds from a time until now.
pub fn nanos_since(rt: &impl Clock, start: &Instant) -> Result<u128, Trouble> {
    match start.elapsed(rt) {
        Ok(elapsed) => Ok(elapsed.as_nanos()),
        Err(_) => Err(Trouble::Clock),
    }
}

/// Prints the line of what was called so often.
pub fn print_time(
    rt: &impl Print,
    name: &str,
    calls: u32,
    nanos: u128,
    members: usize,
) -> Result<(), Trouble> {
    match println!(rt; "{name} {calls} {nanos} {members}") {
        Ok(()) => Ok(()),
        Err(_) => Err(Trouble::Write),
    }
}
