//! The steps of the machine along the worked run, one call for each.

use super::{WORKED, compiled_of, set_of};
use crate::trouble::Trouble;
use px_prune::{Compiled, push};
use px_step::{add, mask, pop, value_number, value_text};
use px_text::Set;
use std::alloc::Global;
use std::test::Fail;

/// A call of a function on sets.
enum Call {
    ValueText(u32),
    ValueNumber(u32),
    Pop(&'static [u32], u32),
    Add(&'static [u32], &'static [u32]),
    Mask(&'static [u32], &'static [u32]),
    Push(&'static [u32], u32),
}

/// The steps of that run: each call with its answer.
static STEPS: [(Call, &[u32]); 36] = [
    // the start of the outer `a`
    (Call::Push(&[7], 5), &[2, 5, 7]),
    // the start of `b`
    (Call::Push(&[2, 5, 7], 3), &[1, 5, 7]),
    // the text `1`
    (Call::ValueText(0), &[]),
    (Call::ValueNumber(2), &[0]),
    (Call::Add(&[], &[0]), &[0]),
    (Call::Pop(&[0], 0), &[1]),
    (Call::Mask(&[1], &[1, 5, 7]), &[1]),
    (Call::Add(&[], &[1]), &[1]),
    // the end of `b`, of string-value `1`
    (Call::ValueText(0), &[]),
    (Call::ValueNumber(2), &[0]),
    (Call::Add(&[], &[0]), &[0]),
    (Call::Add(&[1], &[0]), &[0, 1]),
    (Call::Pop(&[0, 1], 3), &[2]),
    (Call::Mask(&[2], &[2, 5, 7]), &[2]),
    (Call::Add(&[], &[2]), &[2]),
    // the start of the inner `a`
    (Call::Push(&[2, 5, 7], 5), &[2, 4, 5, 7]),
    // the attribute `c`
    (Call::ValueText(0), &[]),
    (Call::ValueNumber(5), &[3]),
    (Call::Add(&[], &[3]), &[3]),
    (Call::Pop(&[3], 4), &[4]),
    (Call::Mask(&[4], &[2, 4, 5, 7]), &[4]),
    (Call::Add(&[], &[4]), &[4]),
    // the end of the inner `a`, of empty string-value
    (Call::ValueText(0), &[]),
    (Call::ValueNumber(0), &[]),
    (Call::Add(&[], &[]), &[]),
    (Call::Add(&[4], &[]), &[4]),
    (Call::Pop(&[4], 5), &[5]),
    (Call::Mask(&[5], &[2, 5, 7]), &[5]),
    (Call::Add(&[2], &[5]), &[2, 5]),
    // the end of the outer `a`, of string-value `1`
    (Call::ValueText(0), &[]),
    (Call::ValueNumber(2), &[0]),
    (Call::Add(&[], &[0]), &[0]),
    (Call::Add(&[2, 5], &[0]), &[0, 2, 5]),
    (Call::Pop(&[0, 2, 5], 5), &[5, 7]),
    (Call::Mask(&[5, 7], &[7]), &[7]),
    (Call::Add(&[], &[7]), &[7]),
];

// What a call answers.
fn answer_of(alloc: Global, compiled: &Compiled, call: &Call) -> Result<Set, Trouble> {
    let program = compiled.program();
    let set = match call {
        Call::ValueText(class) => value_text(alloc, program, *class)?,
        Call::ValueNumber(class) => value_number(alloc, program, *class)?,
        Call::Pop(set, label) => pop(alloc, program, &set_of(alloc, set)?, *label)?,
        Call::Add(a, b) => add(alloc, &set_of(alloc, a)?, &set_of(alloc, b)?)?,
        Call::Mask(a, b) => mask(alloc, &set_of(alloc, a)?, &set_of(alloc, b)?)?,
        Call::Push(need, label) => push(alloc, compiled, &set_of(alloc, need)?, *label)?,
    };
    Ok(set)
}

// Whether each of some steps has its answer.
fn have_answers(
    alloc: Global,
    compiled: &Compiled,
    steps: &[(Call, &[u32])],
) -> Result<bool, Trouble> {
    for (call, answer) in steps {
        if answer_of(alloc, compiled, call)?.as_slice() != *answer {
            return Ok(false);
        }
    }
    Ok(true)
}

#[test]
fn each_step_of_the_worked_run_has_its_answer(rt: HostRuntime) -> Result<(), Fail> {
    let alloc = rt.alloc();
    let compiled = compiled_of(alloc, &[WORKED])?;
    assert!(rt; have_answers(alloc, &compiled, &STEPS)?);
    Ok(())
}
