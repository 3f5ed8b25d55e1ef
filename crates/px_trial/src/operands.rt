//! What the timed functions are called with.

use px_prune::Compiled;
use px_step::{add, pop, value_number, value_text};
use px_text::Set;
use std::alloc::{AllocError, Global};

/// The label of texts.
const TEXT: u32 = 0;

/// The text of which the numbers' class is taken.
const NUMBER: &[u8] = b"5";

/// The element of which the label is taken.
const ELEMENT: &[u8] = b"e3";

/// The operands that a small document would bring: an element with a text that is a number, inside
/// another such element.
#[derive(Drop)]
pub struct Operands {
    /// the number class of the text
    pub class: u32,
    /// the label of the elements
    pub label: u32,
    /// the states that are true of the text as a literal
    pub texts: Set,
    /// those that are true of it as a number
    pub numbers: Set,
    /// what the text makes true in the inner element
    pub inner: Set,
    /// what the inner element makes true in the outer one
    pub parent: Set,
    /// the first states of all filters
    pub firsts: Set,
}

impl Operands {
    /// The operands for a program.
    pub fn of(alloc: Global, compiled: &Compiled) -> Result<Operands, AllocError> {
        let program = compiled.program();
        let class = program.number_class(NUMBER);
        let label = program.label_of_element(ELEMENT);
        let texts = value_text(alloc, program, 0)?;
        let numbers = value_number(alloc, program, class)?;
        let values = add(alloc, &texts, &numbers)?;
        let inner = pop(alloc, program, &values, TEXT)?;
        let parent = pop(alloc, program, &inner, label)?;
        let firsts = compiled.firsts().clone()?;
        Ok(Operands {
            class,
            label,
            texts,
            numbers,
            inner,
            parent,
            firsts,
        })
    }
}
