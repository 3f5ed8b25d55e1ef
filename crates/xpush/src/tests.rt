//! Runs of the program over memory and over failing sources and sinks.

mod feeds;
mod waiting;

use crate::plain::plain;
use px_feed::Status;
use px_io::{
    FailSource, MemSink, MemSource, ReadAnswer, Sink, Source, StdSink, StdSource, WriteAnswer,
};
use px_text::{Bytes, Words};
use std::alloc::{AllocError, Global};
use std::io;
use std::io::{ErrorKind, Read, Write};
use std::test::Fail;

/// The words, the bytes of the source, and the text and the status that are wanted.
struct Row {
    words: &'static [&'static str],
    source: &'static [u8],
    text: &'static [u8],
    status: Status,
}

const ROWS: [Row; 53] = [
    Row {
        words: &["match", "/a/b"],
        source: b"(a\n(b\n)b\n)a\n",
        text: b"yes\n",
        status: Status::Done,
    },
    Row {
        words: &["match", "/b"],
        source: b"(a\n(b\n)b\n)a\n",
        text: b"no\n",
        status: Status::Refused,
    },
    Row {
        words: &["match", "/a"],
        source: b"(a\nAx 1\n)a\n",
        text: b"yes\n",
        status: Status::Done,
    },
    Row {
        words: &["match", "//a[b/text()=1 and .//a[@c>2]]"],
        source: b"(a\n(b\n-1\n)b\n(a\nAc 3\n)a\n)a\n",
        text: b"yes\n",
        status: Status::Done,
    },
    Row {
        words: &["match", "/r[@x != 5]"],
        source: b"(r\nAx abc\n)r\n",
        text: b"yes\n",
        status: Status::Done,
    },
    Row {
        words: &["match", "/r[@x != 5]"],
        source: b"(r\n)r\n",
        text: b"no\n",
        status: Status::Refused,
    },
    Row {
        words: &["match", "/r[not(@x = 5)]"],
        source: b"(r\n)r\n",
        text: b"yes\n",
        status: Status::Done,
    },
    Row {
        words: &["match", "/r[text()=12]"],
        source: b"(r\n-1\n-2\n)r\n",
        text: b"yes\n",
        status: Status::Done,
    },
    Row {
        words: &["match", "/r[text()=12]"],
        source: b"(r\n-1\n?p\n-2\n)r\n",
        text: b"no\n",
        status: Status::Refused,
    },
    Row {
        words: &["match", "/r[text()=2]"],
        source: b"(r\n-1\n?p\n-2\n)r\n",
        text: b"yes\n",
        status: Status::Done,
    },
    Row {
        words: &["match", "//@a"],
        source: b"(r\nAa 1\n)r\n",
        text: b"yes\n",
        status: Status::Done,
    },
    Row {
        words: &["match", "/r//@a"],
        source: b"(r\nAa 1\n)r\n",
        text: b"yes\n",
        status: Status::Done,
    },
    Row {
        words: &["match", "/@a"],
        source: b"(r\nAa 1\n)r\n",
        text: b"no\n",
        status: Status::Refused,
    },
    Row {
        words: &["match", "/and[or]"],
        source: b"(and\n(or\n)or\n)and\n",
        text: b"yes\n",
        status: Status::Done,
    },
    Row {
        words: &["match", "/r[@x=.1]"],
        source: b"(r\nAx  0.100 \n)r\n",
        text: b"yes\n",
        status: Status::Done,
    },
    Row {
        words: &["match", "/r[@x=.1]"],
        source: b"(r\nAx +0.1\n)r\n",
        text: b"no\n",
        status: Status::Refused,
    },
    Row {
        words: &["match", "/r[@x=0]"],
        source: b"(r\nAx -0\n)r\n",
        text: b"yes\n",
        status: Status::Done,
    },
    Row {
        words: &["match", "/r[@x>999999999999999999]"],
        source: b"(r\nAx 1000000000000000000000000000000000000000\n)r\n",
        text: b"yes\n",
        status: Status::Done,
    },
    Row {
        words: &["match", "/r[@x=1000000000000000000]"],
        source: b"",
        text: b"! filter number-long 6\n",
        status: Status::Refused,
    },
    Row {
        words: &["match", "/r[(@a or @b) and not(@c)]"],
        source: b"(r\nAb 1\n)r\n",
        text: b"yes\n",
        status: Status::Done,
    },
    Row {
        words: &["match", "/r[(@a or @b) and not(@c)]"],
        source: b"(r\nAb 1\nAc 1\n)r\n",
        text: b"no\n",
        status: Status::Refused,
    },
    Row {
        words: &["match", "/a[b='x']"],
        source: b"(a\n(b\n-x\n)b\n)a\n",
        text: b"yes\n",
        status: Status::Done,
    },
    Row {
        words: &["match", "/a[b='x']"],
        source: b"(a\n(b\n-y\n)b\n)a\n",
        text: b"no\n",
        status: Status::Refused,
    },
    Row {
        words: &["match", "/a[b=12]"],
        source: b"(a\n(b\n-1\n(c\n-2\n)c\n?p\n)b\n)a\n",
        text: b"yes\n",
        status: Status::Done,
    },
    Row {
        words: &["match", "/a[b='']"],
        source: b"(a\n(b\n)b\n)a\n",
        text: b"yes\n",
        status: Status::Done,
    },
    Row {
        words: &["match", "/a[b!=1]"],
        source: b"(a\n(b\n)b\n)a\n",
        text: b"yes\n",
        status: Status::Done,
    },
    Row {
        words: &["match", "/a[b='']"],
        source: b"(a\n)a\n",
        text: b"no\n",
        status: Status::Refused,
    },
    Row {
        words: &["match", "/a[b!=1]"],
        source: b"(a\n)a\n",
        text: b"no\n",
        status: Status::Refused,
    },
    Row {
        words: &["match", "/a[text()=\"x\ty\"]"],
        source: b"(a\r\n-x\\ty\r\n)a",
        text: b"yes\n",
        status: Status::Done,
    },
    Row {
        words: &["match", "/a["],
        source: b"",
        text: b"! filter not-a-filter 3\n",
        status: Status::Refused,
    },
    Row {
        words: &["match", "/"],
        source: b"",
        text: b"! filter not-a-filter 1\n",
        status: Status::Refused,
    },
    Row {
        words: &["match", "/a"],
        source: b"(a\n",
        text: b"! line 1 truncated\n",
        status: Status::Refused,
    },
    Row {
        words: &["match", "/a"],
        source: b"",
        text: b"! line 0 truncated\n",
        status: Status::Refused,
    },
    Row {
        words: &["match", "/a"],
        source: b"(a\n)b\n",
        text: b"! line 2 not-here\n",
        status: Status::Refused,
    },
    Row {
        words: &["match", "/a"],
        source: b"(a\nAx 1\nAx 2\n)a\n",
        text: b"! line 3 not-here\n",
        status: Status::Refused,
    },
    Row {
        words: &["match", "/a"],
        source: b"(a\n-\xff\n",
        text: b"! line 2 not-utf8\n",
        status: Status::Refused,
    },
    Row {
        words: &["show", " /a [ (b) and(c or d) ]/ text( ) "],
        source: b"",
        text: b"/a[b and (c or d)]/text()\n",
        status: Status::Done,
    },
    Row {
        words: &["show", "/a[.//b/@c = \"x\" or not(./text() < -0.50)]"],
        source: b"",
        text: b"/a[.//b/@c=\"x\" or not(text()<-0.5)]\n",
        status: Status::Done,
    },
    Row {
        words: &["show", "/a[ b[@k] = 'x' ]"],
        source: b"",
        text: b"/a[b[@k]=\"x\"]\n",
        status: Status::Done,
    },
    Row {
        words: &["show", "/and[or and not]"],
        source: b"",
        text: b"/and[or and not]\n",
        status: Status::Done,
    },
    Row {
        words: &["show", "/a/.."],
        source: b"",
        text: b"! filter not-a-filter 3\n",
        status: Status::Refused,
    },
    Row {
        words: &["explain", "/a/b"],
        source: b"(a\n(b\n)b\n)a\n",
        text: b"yes\ny 1\ny 1\n",
        status: Status::Done,
    },
    Row {
        words: &["explain", "/a[not(b)]"],
        source: b"(a\n(b\n)b\n)a\n",
        text: b"no\nn 1\nc 1\n!\ny 1\n",
        status: Status::Refused,
    },
    Row {
        words: &["explain", "/a[not(b)]"],
        source: b"(a\n)a\n",
        text: b"yes\ny 1\n!\nn 0\n",
        status: Status::Done,
    },
    Row {
        words: &["explain", "/a["],
        source: b"",
        text: b"! filter not-a-filter 3\n",
        status: Status::Refused,
    },
    Row {
        words: &["explain", "/a"],
        source: b"(a\n)b\n",
        text: b"! line 2 not-here\n",
        status: Status::Refused,
    },
    Row {
        words: &["verify", "/a/b"],
        source: b"y 1\ny 1\n=\n(a\n(b\n)b\n)a\n",
        text: b"yes\n",
        status: Status::Done,
    },
    Row {
        words: &["verify", "/a/b"],
        source: b"y 2\ny 1\n=\n(a\n(b\n)b\n)a\n",
        text: b"! proof wrong 0\n",
        status: Status::Refused,
    },
    Row {
        words: &["verify", "/a/b"],
        source: b"y 1\n=\n(a\n(b\n)b\n)a\n",
        text: b"! proof wrong 1\n",
        status: Status::Refused,
    },
    Row {
        words: &["verify", "/a/b"],
        source: b"q\ny 1\n=\n(a\n(b\n)b\n)a\n",
        text: b"! proof line 1\n",
        status: Status::Refused,
    },
    Row {
        words: &["verify", "/a[not(b)]"],
        source: b"n 1\nc 1\n!\ny 1\n=\n(a\n(b\n)b\n)a\n",
        text: b"no\n",
        status: Status::Refused,
    },
    Row {
        words: &["make", "--seed", "1", "--filters", "2", "--documents", "1"],
        source: b"",
        text: FEED,
        status: Status::Done,
    },
    Row {
        words: &["make", "--documents=1", "--filters", "02", "--seed=1"],
        source: b"",
        text: FEED,
        status: Status::Done,
    },
];

/// The feed of seed 1 with two filters and one document.
const FEED: &[u8] =
    b"+//e6[not(e1)]\n+//e3[text()>7 or .//e2]\n(r\n(e3\nAk 2\n(e6\n-9\n)e6\n)e3\n(e7\nAk 4\n(e4\n-5\n)e4\n)e7\n(e7\nAk 9\n(e7\n-7\n)e7\n)e7\n(e6\nAk 6\n(e2\n-5\n)e2\n)e6\n)r\n";

/// Lists of words that are in no form.
const NO_FORMS: [&[&str]; 21] = [
    &[],
    &["feeds"],
    &["match"],
    &["match", "/a", "/b"],
    &["show"],
    &["explain"],
    &["explain", "/a", "/b"],
    &["verify"],
    &["--help"],
    &["serial", "x"],
    &["make"],
    &["make", "--seed=1", "--filters=2"],
    &["make", "--seed=1", "--filters=2", "--documents"],
    &[
        "make",
        "--seed=1",
        "--filters=2",
        "--documents=1",
        "--seed=1",
    ],
    &["make", "--seed=1", "--filters=2", "--documents=1", "--"],
    &["make", "--seed=1", "--filters=2", "--documents=1", "--help"],
    &["make", "--seed=2147483648", "--filters=2", "--documents=1"],
    &["make", "--seed=1", "--filters=50001", "--documents=1"],
    &["make", "--seed=1", "--filters=2", "--documents=100001"],
    &["make", "--seed=1", "--filters=2", "--documents=00000000001"],
    &["make", "--seed=1", "--filters=2", "--documents", "-1"],
];

fn strings(alloc: Global, words: &[&str]) -> Result<Vec<String>, AllocError> {
    let mut all = Vec::new(alloc);
    for word in words {
        all.push(String::from_str(alloc, word)?)?;
    }
    Ok(all)
}

#[test]
fn a_run_writes_its_line_and_ends_with_its_status(rt: HostRuntime) -> Result<(), Fail> {
    for row in ROWS.iter() {
        let words = strings(rt.alloc(), row.words)?;
        let mut source = MemSource::new(Bytes::of(rt.alloc(), row.source)?);
        let mut sink = MemSink::new(rt.alloc());
        let status = plain(rt.alloc(), words.as_slice(), &mut source, &mut sink);
        assert_eq!(rt; sink.held(), row.text, "{:?}", row.words);
        assert_eq!(rt; status, row.status, "{:?}", row.words);
    }
    Ok(())
}

#[test]
fn words_in_no_form_are_usage(rt: HostRuntime) -> Result<(), Fail> {
    for form in NO_FORMS {
        let words = strings(rt.alloc(), form)?;
        let mut source = MemSource::new(Bytes::of(rt.alloc(), b"(a\n)a\n")?);
        let mut sink = MemSink::new(rt.alloc());
        let status = plain(rt.alloc(), words.as_slice(), &mut source, &mut sink);
        assert_eq!(rt; status, Status::Usage, "{form:?}");
        assert_eq!(rt; sink.held(), b"".as_slice());
    }
    Ok(())
}

// Each text as often as its number says.
fn repeated(alloc: Global, parts: &[(&[u8], usize)]) -> Result<Bytes, AllocError> {
    let mut document = Vec::new(alloc);
    for (text, count) in parts {
        for _ in 0..*count {
            document.extend_from_slice(text)?;
        }
    }
    Ok(Bytes::from_vec(document))
}

// The text that `match` writes for a filter and a document.
fn answer(alloc: Global, filter: &str, document: Bytes) -> Result<MemSink, AllocError> {
    let words = strings(alloc, &["match", filter])?;
    let mut sink = MemSink::new(alloc);
    plain(
        alloc,
        words.as_slice(),
        &mut MemSource::new(document),
        &mut sink,
    );
    Ok(sink)
}

#[test]
fn documents_at_their_limits(rt: HostRuntime) -> Result<(), Fail> {
    let alloc = rt.alloc();
    let deep = repeated(alloc, &[(b"(a\n", 512), (b")a\n", 512)])?;
    assert_eq!(rt; answer(alloc, "//a", deep)?.held(), b"yes\n".as_slice());
    let deeper = repeated(alloc, &[(b"(a\n", 513), (b")a\n", 513)])?;
    assert_eq!(rt;
        answer(alloc, "//a", deeper)?.held(),
        b"! line 513 too-deep\n".as_slice()
    );
    let long = repeated(alloc, &[(b"(a\n-", 1), (b"x", 1_048_575), (b"\n)a\n", 1)])?;
    assert_eq!(rt;
        answer(alloc, "/a/text()", long)?.held(),
        b"yes\n".as_slice()
    );
    let longer = repeated(alloc, &[(b"(a\n-", 1), (b"x", 1_048_576), (b"\n)a\n", 1)])?;
    assert_eq!(rt;
        answer(alloc, "/a/text()", longer)?.held(),
        b"! line 2 line-long\n".as_slice()
    );
    Ok(())
}

// `//b[@k]` would need a line for the count, one for `a`, and two for each `b`.
#[test]
fn too_many_nodes_are_no_proof(rt: HostRuntime) -> Result<(), Fail> {
    let alloc = rt.alloc();
    let document = repeated(alloc, &[(b"(a\n", 1), (b"(b\n)b\n", 100_000), (b")a\n", 1)])?;
    let words = strings(alloc, &["explain", "//b[@k]"])?;
    let mut sink = MemSink::new(alloc);
    let status = plain(
        alloc,
        words.as_slice(),
        &mut MemSource::new(document),
        &mut sink,
    );
    assert_eq!(rt; sink.held(), b"! proof too-many\n".as_slice());
    assert_eq!(rt; status, Status::Refused);
    Ok(())
}

// A source whose call behind the first fails gives nothing to write, whatever the first gave.
#[test]
fn a_read_fault_leaves_nothing_explained(rt: HostRuntime) -> Result<(), Fail> {
    let alloc = rt.alloc();
    for (command, bytes) in [
        ("explain", b"(a\n)a\n".as_slice()),
        ("verify", b"y 1\n=\n(a\n)a\n"),
        ("verify", b"y 1\n"),
    ] {
        let words = strings(alloc, &[command, "/a"])?;
        let fails = Words::of(vec![in alloc; 2]?);
        let mut source = FailSource::new(Bytes::of(alloc, bytes)?, 65_536, fails);
        let mut sink = MemSink::new(alloc);
        let status = plain(alloc, words.as_slice(), &mut source, &mut sink);
        assert_eq!(rt; status, Status::ReadFault, "{command}");
        assert_eq!(rt; sink.held(), b"".as_slice());
    }
    Ok(())
}

/// A reader and writer that meets an error at once.
#[derive(Drop)]
struct Broken;

impl Read for Broken {
    fn read(&mut self, _buf: &mut [u8]) -> io::Result<usize> {
        Err(io::Error::from(ErrorKind::BrokenPipe))
    }
}

impl Write for Broken {
    fn write(&mut self, _buf: &[u8]) -> io::Result<usize> {
        Err(io::Error::from(ErrorKind::BrokenPipe))
    }

    fn flush(&mut self) -> io::Result<()> {
        Ok(())
    }
}

#[test]
fn faults_of_reading_and_writing_end_the_run(rt: HostRuntime) -> Result<(), Fail> {
    let words = strings(rt.alloc(), &["match", "/a"])?;
    let mut sink = MemSink::new(rt.alloc());
    let status = plain(
        rt.alloc(),
        words.as_slice(),
        &mut StdSource::new(Broken),
        &mut sink,
    );
    assert_eq!(rt; status, Status::ReadFault);
    assert_eq!(rt; sink.held(), b"".as_slice());
    let mut source = MemSource::new(Bytes::of(rt.alloc(), b"(a\n)a\n")?);
    let status = plain(
        rt.alloc(),
        words.as_slice(),
        &mut source,
        &mut StdSink::new(Broken),
    );
    assert_eq!(rt; status, Status::WriteFault);
    Ok(())
}
