//! A few feeds, read to their ends.

use px_feed::{FeedFault, FeedKind, Item, Items, Taken, generate};
use px_io::{FailSource, MemSource};
use px_reader::DocKind;
use px_text::{Bytes, Words};
use std::test::Fail;

fn adds(taken: &Taken, text: &[u8]) -> bool {
    match taken {
        Taken::Item(Item::Add { text: found }) => found.as_slice() == text,
        _ => false,
    }
}

fn removes(taken: &Taken, text: &[u8]) -> bool {
    match taken {
        Taken::Item(Item::Remove { text: found }) => found.as_slice() == text,
        _ => false,
    }
}

fn replaces(taken: &Taken, id: &[u8], text: &[u8]) -> bool {
    match taken {
        Taken::Item(
            Item::Replace {
                id: named,
                text: found,
            },
        ) => { named.as_slice() == id && found.as_slice() == text }
        _ => false,
    }
}

fn shows(taken: &Taken, bytes: &[u8]) -> bool {
    match taken {
        Taken::Item(Item::Document { doc }) => doc.bytes() == bytes,
        _ => false,
    }
}

fn ends(taken: &Taken) -> bool {
    match taken {
        Taken::End => true,
        _ => false,
    }
}

fn fails(taken: &Taken, line: u64, kind: DocKind) -> bool {
    match taken {
        Taken::Fault(fault) => {
            *fault
                == FeedFault {
                    line,
                    kind: FeedKind::Doc(kind),
                }
        }
        _ => false,
    }
}

#[test]
fn gives_changes_and_documents_in_order(rt: HostRuntime) -> Result<(), Fail> {
    let feed = b"+/a\r\n?x\n\n(a\n-x\r\n)a\n^1 /b c\n~1";
    let mut source = MemSource::new(Bytes::of(rt.alloc(), feed)?);
    let mut items = Items::new(rt.alloc())?;
    assert!(rt; adds(&items.next(&mut source), b"/a"));
    assert!(rt; shows(&items.next(&mut source), b"(a\n-x\r\n)a\n"));
    assert!(rt; replaces(&items.next(&mut source), b"1", b"/b c"));
    assert!(rt; removes(&items.next(&mut source), b"1"));
    assert!(rt; ends(&items.next(&mut source)));
    assert!(rt; ends(&items.next(&mut source)));
    Ok(())
}

#[test]
fn stops_at_the_first_fault(rt: HostRuntime) -> Result<(), Fail> {
    let mut source = MemSource::new(Bytes::of(rt.alloc(), b"+/a\n(a\n#\n+/b\n")?);
    let mut items = Items::new(rt.alloc())?;
    assert!(rt; adds(&items.next(&mut source), b"/a"));
    assert!(rt; fails(&items.next(&mut source), 3, DocKind::NotHere));
    assert!(rt; fails(&items.next(&mut source), 3, DocKind::NotHere));
    Ok(())
}

#[test]
fn an_open_document_is_truncated(rt: HostRuntime) -> Result<(), Fail> {
    let mut source = MemSource::new(Bytes::of(rt.alloc(), b"+/a\n(a\n(b\n")?);
    let mut items = Items::new(rt.alloc())?;
    assert!(rt; adds(&items.next(&mut source), b"/a"));
    assert!(rt; fails(&items.next(&mut source), 3, DocKind::Truncated));
    Ok(())
}

#[test]
fn an_empty_feed_ends(rt: HostRuntime) -> Result<(), Fail> {
    let mut source = MemSource::new(Bytes::of(rt.alloc(), b"")?);
    let mut items = Items::new(rt.alloc())?;
    assert!(rt; ends(&items.next(&mut source)));
    Ok(())
}

fn has_ready(ready: &Option<Taken>, text: &[u8]) -> bool {
    match ready {
        Some(taken) => adds(taken, text),
        None => false,
    }
}

fn is_read_fault(ready: &Option<Taken>) -> bool {
    match ready {
        Some(Taken::ReadFault) => true,
        _ => false,
    }
}

fn has_ended(ready: &Option<Taken>) -> bool {
    match ready {
        Some(taken) => ends(taken),
        None => false,
    }
}

#[test]
fn what_was_read_is_ready(rt: HostRuntime) -> Result<(), Fail> {
    let alloc = rt.alloc();
    let bytes = Bytes::of(alloc, b"+/a\n+/b\n+/c\n~1")?;
    let mut source = FailSource::new(bytes, 10, Words::of(Vec::new(alloc)));
    let mut items = Items::new(alloc)?;
    assert!(rt; items.ready().is_none());
    assert!(rt; adds(&items.next(&mut source), b"/a"));
    assert!(rt; has_ready(&items.ready(), b"/b"));
    assert!(rt; items.ready().is_none());
    assert!(rt; items.ready().is_none());
    assert!(rt; adds(&items.next(&mut source), b"/c"));
    assert!(rt; items.ready().is_none());
    assert!(rt; removes(&items.next(&mut source), b"1"));
    assert!(rt; has_ended(&items.ready()));
    Ok(())
}

#[test]
fn a_read_fault_is_ready_again(rt: HostRuntime) -> Result<(), Fail> {
    let alloc = rt.alloc();
    let bytes = Bytes::of(alloc, b"+/a\n+/b\n")?;
    let mut source = FailSource::new(bytes, 6, Words::of(vec![in alloc; 2]?));
    let mut items = Items::new(alloc)?;
    assert!(rt; adds(&items.next(&mut source), b"/a"));
    assert!(rt; items.ready().is_none());
    assert!(rt; is_read_fault(&Some(items.next(&mut source))));
    assert!(rt; is_read_fault(&items.ready()));
    Ok(())
}

#[test]
fn two_filters_and_a_document(rt: HostRuntime) -> Result<(), Fail> {
    let feed = generate(rt.alloc(), 1, 2, 1)?;
    assert_eq!(rt;
        feed.as_slice(),
        b"+//e6[not(e1)]\n+//e3[text()>7 or .//e2]\n(r\n(e3\nAk 2\n(e6\n-9\n)e6\n)e3\n(e7\nAk 4\n(e4\n-5\n)e4\n)e7\n(e7\nAk 9\n(e7\n-7\n)e7\n)e7\n(e6\nAk 6\n(e2\n-5\n)e2\n)e6\n)r\n".as_slice()
    );
    Ok(())
}
