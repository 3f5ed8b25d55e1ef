//! Runs of `serial` over memory, and over sources and sinks that fail.

use super::{repeated, strings};
use crate::plain::plain;
use px_feed::Status;
use px_io::{FailSink, FailSource, MemSink, MemSource};
use px_text::{Bytes, Words};
use std::alloc::{AllocError, Global};
use std::test::Fail;

/// A feed, and the text and the status that are wanted.
struct Row {
    feed: &'static [u8],
    text: &'static [u8],
    status: Status,
}

/// Two filters, a document, and a filter that is dropped twice.
const CHANGES: &[u8] = b"+/a\n+/a\n(a\n)a\n~1\n(a\n)a\n~1\n";

/// Three filters and an order, in 150 bytes.
const ORDER: &[u8] =
    b"+/order[@id>10]/item\n+//item[@sku='A-1' and text()='Pen']\n+/order[not(item)]\n?xml-stylesheet\n(order\nAid 17\n-\\n  \n(item\nAsku A-1\n-Pen\n)item\n-\\n\n)order\n";

const ROWS: [Row; 16] = [
    Row {
        feed: b"",
        text: b"",
        status: Status::Done,
    },
    Row {
        feed: CHANGES,
        text: b"+1\n+2\n2: 1 2\n~1 3\n3: 2\n! drop unknown\n",
        status: Status::Refused,
    },
    Row {
        feed: ORDER,
        text: b"+1\n+2\n+3\n3: 1 2\n",
        status: Status::Done,
    },
    Row {
        feed: b"+/a\n(a\n#\n",
        text: b"+1\n! line 3 not-here\n",
        status: Status::Refused,
    },
    Row {
        feed: b"(a\n+/b\n)a\n",
        text: b"! line 2 not-here\n",
        status: Status::Refused,
    },
    Row {
        feed: b"+/a[\n(a\n)a\n",
        text: b"! filter not-a-filter 3\n0:\n",
        status: Status::Refused,
    },
    Row {
        feed: b"+/a\n^1 /b\n(a\n)a\n(b\n)b\n^2 /a\n^9 [\n",
        text: b"+1\n^1 2\n2:\n2: 1\n! replace unknown\n! filter not-a-filter 0\n",
        status: Status::Refused,
    },
    // a replaced filter keeps its id, and the next has the next version's
    Row {
        feed: b"+/a\n^1 /b\n+/b\n(b\n)b\n",
        text: b"+1\n^1 2\n+3\n3: 1 3\n",
        status: Status::Done,
    },
    // a replacement without a space names an id and an empty filter
    Row {
        feed: b"+/a\n^1\n",
        text: b"+1\n! filter not-a-filter 0\n",
        status: Status::Refused,
    },
    // a change behind documents is seen by those behind it
    Row {
        feed: b"+/a\n(a\n)a\n(a\n)a\n+//a\n(a\n)a\n(b\n)b\n~1\n(a\n)a\n",
        text: b"+1\n1: 1\n1: 1\n+2\n2: 1 2\n2:\n~1 3\n3: 2\n",
        status: Status::Done,
    },
    // an id of more than nine digits names none
    Row {
        feed: b"+/a\n~0000000001\n~000000001\n~x\n~\n",
        text: b"+1\n! drop unknown\n~1 2\n! drop unknown\n! drop unknown\n",
        status: Status::Refused,
    },
    // lines are counted through the feed
    Row {
        feed: b"+/a\n\n?p\n(a\n)a\n-  \n(a\n)b\n",
        text: b"+1\n1: 1\n! line 8 not-here\n",
        status: Status::Refused,
    },
    // the last line of a feed may lack its line feed
    Row {
        feed: b"+/a\n(a\n)a",
        text: b"+1\n1: 1\n",
        status: Status::Done,
    },
    Row {
        feed: b"+/a\n(a\n(b\n)b",
        text: b"+1\n! line 4 truncated\n",
        status: Status::Refused,
    },
    Row {
        feed: b"+/a\n-x\n",
        text: b"+1\n! line 2 not-here\n",
        status: Status::Refused,
    },
    Row {
        feed: b"+/a\n+\xff\n",
        text: b"+1\n! line 2 not-utf8\n",
        status: Status::Refused,
    },
];

// The words of the command.
fn serial(alloc: Global) -> Result<Vec<String>, AllocError> {
    strings(alloc, &["serial"])
}

// The sink behind a run over a feed, and its status.
fn answered(alloc: Global, feed: Bytes) -> Result<(MemSink, Status), AllocError> {
    let words = serial(alloc)?;
    let mut source = MemSource::new(feed);
    let mut sink = MemSink::new(alloc);
    let status = plain(alloc, words.as_slice(), &mut source, &mut sink);
    Ok((sink, status))
}

#[test]
fn a_feed_is_answered_line_by_line(rt: HostRuntime) -> Result<(), Fail> {
    for row in ROWS.iter() {
        let (sink, status) = answered(rt.alloc(), Bytes::of(rt.alloc(), row.feed)?)?;
        assert_eq!(rt; sink.held(), row.text);
        assert_eq!(rt; status, row.status);
    }
    Ok(())
}

#[test]
fn any_pieces_are_answered_alike(rt: HostRuntime) -> Result<(), Fail> {
    let alloc = rt.alloc();
    let words = serial(alloc)?;
    for piece in [1, 2, 7, 16] {
        for row in ROWS.iter() {
            let mut source = FailSource::new(
                Bytes::of(alloc, row.feed)?,
                piece,
                Words::of(Vec::new(alloc)),
            );
            let mut sink = MemSink::new(alloc);
            let status = plain(alloc, words.as_slice(), &mut source, &mut sink);
            assert_eq!(rt; sink.held(), row.text);
            assert_eq!(rt; status, row.status);
        }
    }
    Ok(())
}

// 250 filters of 2,000 steps, and lines behind them.
fn large(alloc: Global, behind: &[(&[u8], usize)]) -> Result<Bytes, AllocError> {
    let mut feed = Vec::new(alloc);
    for _ in 0..250 {
        let filter = repeated(alloc, &[(b"+", 1), (b"/a", 2_000), (b"\n", 1)])?;
        feed.extend_from_slice(filter.as_slice())?;
    }
    feed.extend_from_slice(repeated(alloc, behind)?.as_slice())?;
    Ok(Bytes::from_vec(feed))
}

// What was written behind the last line of the 250 filters, `+250`.
fn behind_filters(held: &[u8]) -> &[u8] {
    // 9 lines of 3 bytes, 90 of 4 and 151 of 5
    held.get(1_142..).unwrap_or(b"too short")
}

#[test]
fn live_filters_have_a_size_together(rt: HostRuntime) -> Result<(), Fail> {
    let alloc = rt.alloc();
    let feed = large(
        alloc,
        &[
            (b"+/a\n", 1),
            (b"^1 ", 1),
            (b"/a", 2_001),
            (b"\n^1 /a\n+/b/c\n", 1),
        ],
    )?;
    let (sink, status) = answered(alloc, feed)?;
    assert_eq!(rt; status, Status::Refused);
    assert_eq!(rt;
        behind_filters(sink.held()),
        b"! add too-large 500000\n! replace too-large 498000\n^1 251\n+252\n".as_slice()
    );
    Ok(())
}

/// What is written of the order, read in pieces of 16 bytes, where the calls from the first to the
/// last fail.
const WHOLE_ITEMS: [&[u8]; 11] = [
    b"",
    b"",
    b"+1\n",
    b"+1\n",
    b"+1\n+2\n",
    b"+1\n+2\n+3\n",
    b"+1\n+2\n+3\n",
    b"+1\n+2\n+3\n",
    b"+1\n+2\n+3\n",
    b"+1\n+2\n+3\n",
    b"+1\n+2\n+3\n3: 1 2\n",
];

#[test]
fn whole_items_are_answered_before_a_read_fault(rt: HostRuntime) -> Result<(), Fail> {
    let alloc = rt.alloc();
    let words = serial(alloc)?;
    for (call, text) in (1..12).zip(WHOLE_ITEMS) {
        let mut source = FailSource::new(
            Bytes::of(alloc, ORDER)?,
            16,
            Words::of(vec![in alloc; call]?),
        );
        let mut sink = MemSink::new(alloc);
        let status = plain(alloc, words.as_slice(), &mut source, &mut sink);
        assert_eq!(rt; status, Status::ReadFault, "call {call}");
        assert_eq!(rt; sink.held(), text, "call {call}");
    }
    Ok(())
}

#[test]
fn a_read_fault_leaves_what_was_answered(rt: HostRuntime) -> Result<(), Fail> {
    let alloc = rt.alloc();
    let words = serial(alloc)?;
    let mut source = FailSource::new(Bytes::of(alloc, CHANGES)?, 8, Words::of(vec![in alloc; 3]?));
    let mut sink = MemSink::new(alloc);
    let status = plain(alloc, words.as_slice(), &mut source, &mut sink);
    assert_eq!(rt; status, Status::ReadFault);
    assert_eq!(rt; sink.held(), b"+1\n+2\n2: 1 2\n".as_slice());
    Ok(())
}

#[test]
fn a_write_fault_leaves_a_front_of_the_output(rt: HostRuntime) -> Result<(), Fail> {
    let alloc = rt.alloc();
    let words = serial(alloc)?;
    let whole = b"+1\n+2\n+3\n3: 1 2\n";
    for call in 1..5 {
        let mut source = MemSource::new(Bytes::of(alloc, ORDER)?);
        let mut sink = FailSink::new(alloc, 3, Words::of(vec![in alloc; call]?));
        let status = plain(alloc, words.as_slice(), &mut source, &mut sink);
        assert_eq!(rt; status, Status::WriteFault, "call {call}");
        assert!(rt; whole.starts_with(sink.held()), "call {call}");
    }
    Ok(())
}

#[test]
fn nothing_is_written_where_the_first_write_fails(rt: HostRuntime) -> Result<(), Fail> {
    let alloc = rt.alloc();
    let words = serial(alloc)?;
    let mut source = MemSource::new(Bytes::of(alloc, CHANGES)?);
    let mut sink = FailSink::new(alloc, 64, Words::of(vec![in alloc; 1]?));
    let status = plain(alloc, words.as_slice(), &mut source, &mut sink);
    assert_eq!(rt; status, Status::WriteFault);
    assert_eq!(rt; sink.held(), b"".as_slice());
    Ok(())
}

#[test]
fn a_match_writes_nothing_behind_a_read_fault(rt: HostRuntime) -> Result<(), Fail> {
    let alloc = rt.alloc();
    let words = strings(alloc, &["match", "/a"])?;
    let mut source = FailSource::new(
        Bytes::of(alloc, b"(a\n)a\n")?,
        64,
        Words::of(vec![in alloc; 2]?),
    );
    let mut sink = MemSink::new(alloc);
    let status = plain(alloc, words.as_slice(), &mut source, &mut sink);
    assert_eq!(rt; status, Status::ReadFault);
    assert_eq!(rt; sink.held(), b"".as_slice());
    Ok(())
}
