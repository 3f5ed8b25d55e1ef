//! The printed form of a filter.
#![tactic(auto, using(crate::proofs::FilterViews::views))]

ghost use Rattle.std.specs.Prelude.{◌≡◌, ◌++◌, IfOk, OnOk};
ghost use Rattle.px_xpath.specs.Filters.{Compares, Fails};
ghost use Rattle.px_xpath.specs.Printed as printed;
ghost use Rattle.px_xpath.specs.Views.{condition, conditions, ways};
ghost use Rattle.px_xpath.specs.Whole as whole;

use crate::filter::{Axis, Cond, Filter, Relation, Step, Test, Value};
use px_text::Bytes;
use std::alloc::{AllocError, Global};

/// What joins the members of a condition.
#[derive(Clone, Copy, Debug, Drop)]
pub enum Joint {
    Both,
    Either,
}

/// The filter's printed form, which `parse` reads back. Its only failure is want of memory.
pub fn print(alloc: Global, filter: &Filter) -> Result<Bytes, AllocError>
    ensures { IfOk result (λ bytes. bytes ≡ printed.printed (whole.filter filter.now)) }
{
    let mut out = Vec::new(alloc);
    write_steps(filter.path.steps.as_slice(), &mut out)?;
    Ok(Bytes::from_vec(out))
}

// Steps, each behind its axis.
#[cycle(printing)]
fn write_steps(steps: &[Step], out: &mut Vec<u8>) -> Result<(), AllocError>
    ensures { OnOk result (out.new.items ≡ out.old.items ++
        printed.printed_steps (ways steps.now)) }
{
    match steps {
        [] => Ok(()),
        [step, onward @ ..] => {
            out.extend_from_slice(axis_text(step.axis))?;
            write_step(step, out)?;
            write_steps(onward, out)
        }
    }
}

// A path inside a condition.
#[cycle(printing)]
fn write_path(steps: &[Step], out: &mut Vec<u8>) -> Result<(), AllocError>
    ensures { OnOk result (out.new.items ≡ out.old.items ++ printed.printed_path (ways steps.now)) }
{
    match steps {
        [] => Ok(()),
        [step, onward @ ..] => {
            out.extend_from_slice(start_text(step.axis))?;
            write_step(step, out)?;
            write_steps(onward, out)
        }
    }
}

// A step's test and conditions.
#[cycle(printing)]
fn write_step(step: &Step, out: &mut Vec<u8>) -> Result<(), AllocError>
    ensures { OnOk result (out.new.items ≡ out.old.items ++ (printed.printed_test step.now.test ++
        printed.printed_preds (conditions step.now.conds))) }
{
    write_test(&step.test, out)?;
    write_preds(step.conds.as_slice(), out)
}

#[cycle(printing)]
fn write_preds(conds: &[Cond], out: &mut Vec<u8>) -> Result<(), AllocError>
    ensures { OnOk result (out.new.items ≡ out.old.items ++
        printed.printed_preds (conditions conds.now)) }
{
    match conds {
        [] => Ok(()),
        [cond, rest @ ..] => {
            out.push(b'[')?;
            write_condition(cond, out)?;
            out.push(b']')?;
            write_preds(rest, out)
        }
    }
}

#[cycle(printing)]
fn write_condition(cond: &Cond, out: &mut Vec<u8>) -> Result<(), AllocError>
    ensures { OnOk result (out.new.items ≡ out.old.items ++
        printed.printed_condition (condition cond.now)) }
{
    match cond {
        Cond::Exists(path) => write_path(path.steps.as_slice(), out),
        Cond::Compare(path, relation, value) => write_compared(
            path.steps.as_slice(),
            *relation,
            value,
            out,
        ),
        Cond::And(conds) => write_members(Joint::Both, conds.as_slice(), out),
        Cond::Or(conds) => write_members(Joint::Either, conds.as_slice(), out),
        Cond::Not(cond) => write_negation(cond.get(), out),
    }
}

#[cycle(printing)]
fn write_compared(
    steps: &[Step],
    relation: Relation,
    value: &Value,
    out: &mut Vec<u8>,
) -> Result<(), AllocError>
    ensures { OnOk result (out.new.items ≡ out.old.items ++
        printed.printed_condition (Compares (ways steps.now) relation value.now)) }
{
    write_path(steps, out)?;
    write_comparison(relation, value, out)
}

#[cycle(printing)]
fn write_negation(cond: &Cond, out: &mut Vec<u8>) -> Result<(), AllocError>
    ensures { OnOk result (out.new.items ≡ out.old.items ++
        printed.printed_condition (Fails (condition cond.now))) }
{
    out.extend_from_slice(b"not(")?;
    write_condition(cond, out)?;
    out.push(b')')?;
    Ok(())
}

// Members, with the word between each two.
#[cycle(printing)]
fn write_members(joint: Joint, conds: &[Cond], out: &mut Vec<u8>) -> Result<(), AllocError>
    ensures { OnOk result (out.new.items ≡ out.old.items ++
        printed.printed_members joint (conditions conds.now)) }
{
    match conds {
        [] => Ok(()),
        [cond, rest @ ..] => {
            write_member(joint, cond, out)?;
            write_more(joint, rest, out)
        }
    }
}

// Members, each behind the word.
#[cycle(printing)]
fn write_more(joint: Joint, conds: &[Cond], out: &mut Vec<u8>) -> Result<(), AllocError>
    ensures { OnOk result (out.new.items ≡ out.old.items ++
        printed.printed_more joint (conditions conds.now)) }
{
    match conds {
        [] => Ok(()),
        [cond, rest @ ..] => {
            out.extend_from_slice(joining(joint))?;
            write_member(joint, cond, out)?;
            write_more(joint, rest, out)
        }
    }
}

#[cycle(printing)]
fn write_member(joint: Joint, cond: &Cond, out: &mut Vec<u8>) -> Result<(), AllocError>
    ensures { OnOk result (out.new.items ≡ out.old.items ++
        printed.in_brackets_if (printed.stands_bracketed joint (condition cond.now))
        (printed.printed_condition (condition cond.now))) }
{
    if stands_bracketed(joint, cond) {
        out.push(b'(')?;
        write_condition(cond, out)?;
        out.push(b')')?;
        Ok(())
    } else {
        write_condition(cond, out)
    }
}

fn stands_bracketed(joint: Joint, cond: &Cond) -> bool
    ensures { result ≡ printed.stands_bracketed joint (condition cond.now) }
{
    match cond {
        Cond::And(_) => match joint {
            Joint::Both => true,
            Joint::Either => false,
        },
        Cond::Or(_) => true,
        Cond::Exists(_) | Cond::Compare(_, _, _) | Cond::Not(_) => false,
    }
}

fn axis_text(axis: Axis) -> &'static [u8]
    ensures { result.now ≡ printed.printed_axis axis }
{
    match axis {
        Axis::Child => b"/",
        Axis::Below => b"//",
    }
}

fn start_text(axis: Axis) -> &'static [u8]
    ensures { result.now ≡ printed.printed_start axis }
{
    match axis {
        Axis::Child => b"",
        Axis::Below => b".//",
    }
}

fn joining(joint: Joint) -> &'static [u8]
    ensures { result.now ≡ printed.joining joint }
{
    match joint {
        Joint::Both => b" and ",
        Joint::Either => b" or ",
    }
}

fn relation_text(relation: Relation) -> &'static [u8]
    ensures { result.now ≡ printed.printed_relation relation }
{
    match relation {
        Relation::Equal => b"=",
        Relation::NotEqual => b"!=",
        Relation::Less => b"<",
        Relation::AtMost => b"<=",
        Relation::Greater => b">",
        Relation::AtLeast => b">=",
    }
}

fn write_test(test: &Test, out: &mut Vec<u8>) -> Result<(), AllocError>
    ensures { OnOk result (out.new.items ≡ out.old.items ++ printed.printed_test test.now) }
{
    match test {
        Test::Element(name) => out.extend_from_slice(name.as_slice()),
        Test::AnyElement => out.extend_from_slice(b"*"),
        Test::Attribute(name) => {
            out.push(b'@')?;
            out.extend_from_slice(name.as_slice())
        }
        Test::AnyAttribute => out.extend_from_slice(b"@*"),
        Test::Text => out.extend_from_slice(b"text()"),
    }
}

fn write_comparison(relation: Relation, value: &Value, out: &mut Vec<u8>) -> Result<(), AllocError>
    ensures { OnOk result (out.new.items ≡ out.old.items ++ (printed.printed_relation relation ++
        printed.printed_value value.now)) }
{
    out.extend_from_slice(relation_text(relation))?;
    match value {
        Value::Number(number) => number.write(out),
        Value::Literal(text) => write_literal(text.as_slice(), out),
    }
}

fn write_literal(text: &[u8], out: &mut Vec<u8>) -> Result<(), AllocError>
    ensures { OnOk result (out.new.items ≡ out.old.items ++ printed.printed_literal text.now) }
{
    let quote = quote_of(text);
    out.push(quote)?;
    out.extend_from_slice(text)?;
    out.push(quote)?;
    Ok(())
}

// The quote that a literal is printed in: a double one, unless the literal contains it.
fn quote_of(text: &[u8]) -> u8
    ensures { result ≡ printed.quote_of text.now }
{
    for byte in text {
        if *byte == b'"' {
            return b'\'';
        }
    }
    b'"'
}
