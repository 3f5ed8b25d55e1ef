//! Filters made by hand, on documents made by hand.

ghost use Rattle.std.specs.Prelude.{◌≡◌, IfOk, IsTrue};
ghost use Rattle.px_xpath.specs.Filters.{Arrived, StepThen};
ghost use Rattle.px_xpath.specs.Proper.{is_proper};
ghost use Rattle.px_xpath.specs.Views.{conditions, way};
ghost use Rattle.px_xpath.specs.declared.filter.Axis.TheVariants.{Child};
ghost use Rattle.px_xpath.specs.declared.filter.Test.TheVariants as test;

use px_meaning::holds;
use px_text::{Bytes, Decimal};
use px_tree::{Element, Node, Tree};
use px_xpath::{Axis, Cond, Filter, Path, Relation, Step, Test, Value};
use sqlite_items::Items;
use std::alloc::{AllocError, Global};
use std::test::Fail;

// The path of one step, down to the elements of a name.
#[tactic(auto, using(px_xpath::proofs::FilterViews::views, px_tree::proofs::TreeViews::views))]
fn path_to(alloc: Global, name: &[u8], conds: Items<Cond>) -> Result<Path, AllocError>
    ensures { IfOk result (λ path. way path ≡
        StepThen Child (test.Element name.now) (conditions conds) Arrived) }
{
    let mut steps = Items::new(alloc);
    steps.push(Step {
        axis: Axis::Child,
        test: Test::Element(Bytes::of(alloc, name)?),
        conds,
    })?;
    Ok(Path { steps })
}

fn element(alloc: Global, name: &[u8], children: Items<Node>) -> Result<Element, AllocError> {
    Ok(Element {
        name: Bytes::of(alloc, name)?,
        attributes: Items::new(alloc),
        children,
    })
}

#[tactic(auto, using(px_xpath::proofs::FilterViews::views, px_tree::proofs::TreeViews::views))]
#[test]
fn tells_elements_by_name(rt: HostRuntime) -> Result<(), Fail> {
    let alloc = rt.alloc();
    let filter = Filter::of(alloc, path_to(alloc, b"a", Items::new(alloc))?)?;
    for (name, expected) in [(b"a", true), (b"b", false)] {
        let root = element(alloc, name, Items::new(alloc))?;
        assert_eq!(rt; holds(&filter, &Tree { root }), expected);
    }
    Ok(())
}

// `/a[b=12]` on an element with the texts 1 and, in an element of its own, 2.
#[tactic(auto, using(px_xpath::proofs::FilterViews::views, px_tree::proofs::TreeViews::views))]
#[test]
fn joins_the_texts_of_an_element(rt: HostRuntime) -> Result<(), Fail> {
    let alloc = rt.alloc();
    let mut conds = Items::new(alloc);
    conds.push(Cond::Compare(
        path_to(alloc, b"b", Items::new(alloc))?,
        Relation::Equal,
        Value::Number(Decimal::of_digits(false, b"12", b"")),
    ))?;
    let filter = Filter::of(alloc, path_to(alloc, b"a", conds)?)?;
    let mut texts = Items::new(alloc);
    texts.push(Node::Text(Bytes::of(alloc, b"2")?))?;
    let mut children = Items::new(alloc);
    children.push(Node::Text(Bytes::of(alloc, b"1")?))?;
    children.push(Node::Elem(element(alloc, b"c", texts)?))?;
    let mut below = Items::new(alloc);
    below.push(Node::Elem(element(alloc, b"b", children)?))?;
    let root = element(alloc, b"a", below)?;
    assert!(rt; holds(&filter, &Tree { root }));
    Ok(())
}
