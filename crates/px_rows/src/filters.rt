//! Filters read, printed, shared and refused.

use px_text::Bytes;
use px_xpath::{Axis, Filter, FilterFault, ParseFault, Path, Step, Test, parse, print, size};
use sqlite_items::Items;
use std::alloc::Global;
use std::test::Fail;

// The fault of a text, or none where it is a filter.
fn fault(alloc: Global, text: &[u8]) -> Result<Option<FilterFault>, ParseFault> {
    match parse(alloc, text) {
        Ok(_) => Ok(None),
        Err(ParseFault::Filter(fault)) => Ok(Some(fault)),
        Err(ParseFault::Memory) => Err(ParseFault::Memory),
    }
}

#[test]
fn refuses_at_the_first_token_that_no_filter_has(rt: HostRuntime) -> Result<(), Fail> {
    let rows = [
        ("", 0),
        ("/", 1),
        ("/a[", 3),
        ("/a[b", 4),
        ("/a/..", 3),
        ("/a[contains(b,'x')]", 3),
        ("/a['x'=b]", 3),
        ("/a[@b<'x']", 6),
        ("/a[/b]", 3),
        ("child::a", 0),
        ("/child::a", 6),
        ("/a[b=1.0.]", 8),
        ("/a]", 2),
    ];
    for (text, at) in rows {
        let found = fault(rt.alloc(), text.as_bytes())?;
        assert_eq!(rt; found, Some(FilterFault::NotAFilter { at }), "at {text}");
    }
    Ok(())
}

#[test]
fn reads_filters(rt: HostRuntime) -> Result<(), Fail> {
    let rows = [
        "//a[b/text()=1 and .//a[@c>2]]",
        " /a [ (b) and(c or d) ]/ text( ) ",
        "/a[.//b/@c = \"x\" or not(./text() < -0.50)]",
        "/a[ b[@k] = 'x' ]",
        "/and[or and not]",
        "//*/@*",
    ];
    for text in rows {
        let found = fault(rt.alloc(), text.as_bytes())?;
        assert_eq!(rt; found, None, "at {text}");
    }
    Ok(())
}

#[test]
fn keeps_the_limits(rt: HostRuntime) -> Result<(), Fail> {
    let mut nested = Vec::from_slice(rt.alloc(), b"/a")?;
    for _ in 0..64 {
        nested.extend_from_slice(b"[a")?;
    }
    assert_eq!(rt;
        fault(rt.alloc(), nested.as_slice())?,
        Some(FilterFault::NotAFilter { at: 130 })
    );
    nested.extend_from_slice(b"[a")?;
    assert_eq!(rt;
        fault(rt.alloc(), nested.as_slice())?,
        Some(FilterFault::TooNested { at: 130 })
    );
    let mut long = Vec::from_slice(rt.alloc(), b"/")?;
    for _ in 0..4095 {
        long.push(b'a')?;
    }
    assert_eq!(rt; fault(rt.alloc(), long.as_slice())?, None);
    long.push(b'a')?;
    assert_eq!(rt;
        fault(rt.alloc(), long.as_slice())?,
        Some(FilterFault::TooLong)
    );
    let digits = b"/a[b=1234567890123456789]";
    assert_eq!(rt;
        fault(rt.alloc(), digits.as_slice())?,
        Some(FilterFault::NumberLong { at: 5 })
    );
    Ok(())
}

#[tactic(auto, using(px_xpath::proofs::FilterViews::views))]
#[test]
fn prints_a_step(rt: HostRuntime) -> Result<(), Fail> {
    let alloc = rt.alloc();
    let mut steps = Items::new(alloc);
    steps.push(Step {
        axis: Axis::Below,
        test: Test::Attribute(Bytes::of(alloc, b"id")?),
        conds: Items::new(alloc),
    })?;
    let filter = Filter::of(alloc, Path { steps })?;
    assert_eq!(rt; print(alloc, &filter)?.as_slice(), b"//@id".as_slice());
    assert_eq!(rt; size(&filter), 1);
    Ok(())
}

#[test]
fn a_share_prints_as_its_filter(rt: HostRuntime) -> Result<(), Fail> {
    let text = b"/a[@b='c' and not(d<1)]//text()".as_slice();
    let filter = parse(rt.alloc(), text)?;
    let shared = filter.share()?;
    let printed = print(rt.alloc(), &filter)?;
    assert_eq!(rt; print(rt.alloc(), &shared)?.as_slice(), printed.as_slice());
    Ok(())
}
