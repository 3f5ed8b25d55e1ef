//! Calls over small banks, on documents of one element. What is counted was worked out by hand.
ghost use Rattle.std.specs.Prelude.{◌≡◌, ◌+◌, ◌<◌, [], true};
ghost use Rattle.px_rule.specs.declared.view.Kind.TheVariants.{Desk};
ghost use Rattle.px_rule.specs.Table.{is_inside};
ghost use Rattle.px_rule.specs.Words.{IsShape};

use px_afa::Program;
use px_banks::{Enter, enter};
use px_call::{BankCall, ProgramLaw, Tally};
use px_prune::Compiled;
use px_reader::Happening;
use px_rule::{Law, Seat, Shape, Shared};
use px_text::Ids;
use px_xpath::{Numbered, parse, size};
use std::alloc::{AllocError, Global};
use std::marker::{Brand, PhantomData};
use std::process::Abort;
use std::sync::Arc;
use std::test::Fail;

/// A program that is known before the table is made.
trait Known {
    ghost use Rattle.px_afa.specs.Building.{Automata};

    ghost automata: { Automata };
}

impl Known for Brand {
    ghost use Rattle.std.specs.Prelude.{[]};

    ghost automata = { record { states = []; firsts = [] } };
}

/// Histories of numbers of passes, under one program.
struct Single<P> {
    of: PhantomData<P>,
}

impl<P: Known> Law for Single<P> {
    type Entry = u64;

    ghost use Rattle.std.specs.Prelude.{◌≡◌, length, ◌<◌};
    ghost use Rattle.std.proofs.Common.{arith, sym, ◌∙◌};
    ghost use Rattle.px_afa.specs.Steps.{answer_of};

    ghost who = { λ pass. pass };

    ghost legal = { λ log. length log < 1048576 };

    ghost right = { λ _ op a b answer. answer ≡ answer_of P.automata.states op a b };

    ghost legal_empty = { Prim.omega arith };

    ghost legal_short = { λ log short. short };

    ghost one_answer = { λ log op a b x y is_x is_y. is_x ∙ sym is_y };
}

impl<P: Known> ProgramLaw for Single<P> {
    ghost use Rattle.std.proofs.Common.{refl};

    ghost automata_of = { λ _. P.automata };

    ghost answers_are_right = { λ log op x y. refl };
}

/// A bank of 16 step places.
const FEW_STEPS: Shape = Shape {
    banks: 1,
    node_bits: 4,
    step_bits: 4,
};

/// A bank of 15 node places, and steps enough.
const FEW_SETS: Shape = Shape {
    banks: 1,
    node_bits: 4,
    step_bits: 8,
};

// A program of one filter, and what is needed under it.
fn compiled_of(alloc: Global, text: &[u8]) -> Result<Arc<Compiled>, Fail> {
    let filter = parse(alloc, text)?;
    if size(&filter) > 500_000 {
        return Err(Fail::new("the filter is large"));
    }
    let live = [Numbered { id: 1, filter }];
    let program = Arc::new(alloc, Program::build(alloc, &live)?)?;
    Ok(Compiled::of(alloc, program)?)
}

// What a call answers on the document of one empty element.
fn filtered<P: Known>(
    alloc: Global,
    shared: &Shared<Single<P>>,
    seat: &mut Seat<Single<P>>,
    compiled: &Compiled,
    name: &[u8],
) -> Result<(Ids, Tally), AllocError>
    requires table { seat.old.table ≡ shared.now }
    requires inside { is_inside seat.old.view.stay.place ≡ true }
    requires program { compiled.now ≡ P.automata }
    ensures table { seat.new.table ≡ shared.now }
    ensures inside { is_inside seat.new.view.stay.place ≡ true }
{
    let mut call = BankCall::begin(alloc, shared, seat, compiled)?;
    call.event(alloc, shared, seat, compiled, Happening::Start { name })?;
    call.event(alloc, shared, seat, compiled, Happening::End)?;
    call.finish(alloc, shared, seat, compiled)
}

// How many ids the last of some calls answers, and what it counts. Their documents are empty
// elements with these names.
fn last_of<P: Known>(
    alloc: Global,
    shared: &Shared<Single<P>>,
    seat: &mut Seat<Single<P>>,
    compiled: &Compiled,
    names: &[u8],
) -> Result<(usize, Tally), AllocError>
    requires table { seat.old.table ≡ shared.now }
    requires inside { is_inside seat.old.view.stay.place ≡ true }
    requires program { compiled.now ≡ P.automata }
{
    let mut last = (0, Tally::new());
    for name in names {
        let (ids, tally) = filtered(alloc, shared, seat, compiled, &[*name])?;
        last = (ids.as_slice().len(), tally);
    }
    Ok(last)
}

// The same of the calls of one pass over a new bank.
fn last_of_pass<P: Known>(
    rt: &impl Abort,
    alloc: Global,
    shape: Shape,
    compiled: &Compiled,
    names: &[u8],
) -> Result<(usize, Tally), AllocError>
    requires shape { IsShape shape }
    requires program { compiled.now ≡ P.automata }
{
    let (shared, mut desk) = Shared::<Single<P>>::create(alloc, shape)?;
    let mut seat = shared.pass(&mut desk);
    let Enter::Entered = enter(&shared, &mut seat, 0, 0) else {
        panic!(rt; "the bank stands at 0")
    };
    last_of(alloc, &shared, &mut seat, compiled, names)
}

// The same of the calls under one filter.
fn last(
    rt: &impl Abort,
    alloc: Global,
    shape: Shape,
    text: &[u8],
    names: &[u8],
) -> Result<(usize, Tally), Fail>
    requires shape { IsShape shape }
{
    let compiled = compiled_of(alloc, text)?;
    Ok(last_of_pass::<Brand>(rt, alloc, shape, &compiled, names)?)
}

// A tally with no full path.
fn settled(found: u64, computed: u64) -> Tally {
    Tally {
        found,
        computed,
        own: 0,
        full: None,
    }
}

// Push, both classes, the union of no values, which the element's own text asks for again, Pop,
// Mask and Add.
#[test]
fn a_second_call_finds_every_step(rt: HostRuntime) -> Result<(), Fail> {
    assert_eq!(rt;
        last(&rt, rt.alloc(), FEW_STEPS, b"/a", b"a")?,
        (1, settled(1, 7))
    );
    assert_eq!(rt;
        last(&rt, rt.alloc(), FEW_STEPS, b"/a", b"aa")?,
        (1, settled(8, 0))
    );
    Ok(())
}

// The first name brings 6 steps, and each other one its Push, Pop and Mask: the last has room for
// its Push alone. Its Pop is of the empty set, and `e` has label 6.
#[test]
fn sixteen_places_hold_sixteen_steps(rt: HostRuntime) -> Result<(), Fail> {
    let text = b"/a[b or c or d or e]";
    assert_eq!(rt;
        last(&rt, rt.alloc(), FEW_STEPS, text, b"a")?,
        (0, settled(2, 6))
    );
    assert_eq!(rt;
        last(&rt, rt.alloc(), FEW_STEPS, text, b"abcd")?,
        (0, settled(5, 3))
    );
    let (ids, tally) = last(&rt, rt.alloc(), FEW_STEPS, text, b"abcde")?;
    assert_eq!(rt; (ids, tally.found, tally.computed, tally.own), (0, 5, 1, 2));
    assert_eq!(rt; tally.full.map(|word| word >> 20), Some(0x400_0000_0006));
    Ok(())
}

// The filter's first state takes a place, and what it needs of a child 12. Two names have places
// for the states that they make true. State 2 has none: its Pop and its Mask are the call's own.
#[test]
fn fifteen_places_hold_fifteen_sets(rt: HostRuntime) -> Result<(), Fail> {
    let text = b"/a[b or c or d or e or f or g or h or i or j or k or l or m]";
    assert_eq!(rt;
        last(&rt, rt.alloc(), FEW_SETS, text, b"abc")?,
        (0, settled(5, 3))
    );
    let tally = Tally {
        found: 5,
        computed: 1,
        own: 2,
        full: Some(0x1000_0200_0000_0000),
    };
    assert_eq!(rt; last(&rt, rt.alloc(), FEW_SETS, text, b"abcd")?, (0, tally));
    Ok(())
}
