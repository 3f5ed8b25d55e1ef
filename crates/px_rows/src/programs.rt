//! Programs of a few filters.

use px_afa::{Body, Program, State};
use px_xpath::{Axis, Numbered, Test, parse, size};
use std::alloc::Global;
use std::test::Fail;

fn program_of(alloc: Global, text: &[u8]) -> Result<Program, Fail> {
    let filter = parse(alloc, text)?;
    if size(&filter) > 500_000 {
        return Err(Fail::new("the filter is large"));
    }
    let live = [Numbered { id: 1, filter }];
    Ok(Program::build(alloc, &live)?)
}

fn is_element_path(program: &Program, n: u32, axis: Axis, name: &[u8], part: u32) -> bool {
    n < program.states() && is_path_of(program.state(n), axis, name, part)
}

fn is_path_of(state: &State, axis: Axis, name: &[u8], part: u32) -> bool {
    match state {
        State::Path {
            axis: own,
            test,
            body,
        } => *own == axis && tests_element(test, name) && *body == Body::State(part),
        _ => false,
    }
}

fn tests_element(test: &Test, name: &[u8]) -> bool {
    match test {
        Test::Element(own) => own.as_slice() == name,
        _ => false,
    }
}

// The states and labels of `//a[b/text()=1 and .//a[@c>2]]`.
fn is_worked(program: &Program) -> bool {
    program.states() == 8
        && is_element_path(program, 2, Axis::Child, b"b", 1)
        && is_element_path(program, 5, Axis::Below, b"a", 4)
        && is_element_path(program, 7, Axis::Below, b"a", 6)
        && program.ids_of(7) == [1].as_slice()
        && program.label_of_element(b"b") == 3
        && program.label_of_attribute(b"c") == 4
        && program.label_of_element(b"a") == 5
}

// The classes of numbers beside the literals 1 and 5.
fn has_classes(program: &Program) -> bool {
    program.number_class(b"0") == 1
        && program.number_class(b"1.0") == 2
        && program.number_class(b"4.9") == 3
        && program.number_class(b"5") == 4
        && program.number_class(b"6") == 5
        && program.number_class(b"x") == 0
}

#[test]
fn a_filter_has_its_states_and_labels(rt: HostRuntime) -> Result<(), Fail> {
    let program = program_of(rt.alloc(), b"//a[b/text()=1 and .//a[@c>2]]")?;
    assert!(rt; is_worked(&program));
    Ok(())
}

#[test]
fn numbers_have_classes_at_and_between_literals(rt: HostRuntime) -> Result<(), Fail> {
    let program = program_of(rt.alloc(), b"/a[@k=1 or @k=5]")?;
    assert!(rt; has_classes(&program));
    Ok(())
}
