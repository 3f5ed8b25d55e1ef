//! What is found of small inputs.

use px_document::{Cut, Finding, explanation, text_of, verification};
use px_feed::Status;
use px_io::MemSource;
use px_text::Bytes;
use std::alloc::{AllocError, Global};
use std::test::Fail;

/// The filter, the bytes of the source, and the text and the status that are wanted.
struct Row {
    filter: &'static [u8],
    source: &'static [u8],
    text: &'static [u8],
    status: Status,
}

const EXPLAINED: [Row; 6] = [
    Row {
        filter: b"/a/b",
        source: b"(a\n(b\n)b\n)a\n",
        text: b"yes\ny 1\ny 1\n",
        status: Status::Done,
    },
    Row {
        filter: b"/a[not(b)]",
        source: b"(a\n(b\n)b\n)a\n",
        text: b"no\nn 1\nc 1\n!\ny 1\n",
        status: Status::Refused,
    },
    Row {
        filter: b"/a[not(b)]",
        source: b"(a\n)a\n",
        text: b"yes\ny 1\n!\nn 0\n",
        status: Status::Done,
    },
    Row {
        filter: b"/a[",
        source: b"(a\n)a\n",
        text: b"! filter not-a-filter 3\n",
        status: Status::Refused,
    },
    Row {
        filter: b"/a",
        source: b"(a\n)b\n",
        text: b"! line 2 not-here\n",
        status: Status::Refused,
    },
    Row {
        filter: b"/a",
        source: b"",
        text: b"! line 0 truncated\n",
        status: Status::Refused,
    },
];

const VERIFIED: [Row; 12] = [
    Row {
        filter: b"/a/b",
        source: b"y 1\ny 1\n=\n(a\n(b\n)b\n)a\n",
        text: b"yes\n",
        status: Status::Done,
    },
    Row {
        filter: b"/a/b",
        source: b"y 2\ny 1\n=\n(a\n(b\n)b\n)a\n",
        text: b"! proof wrong 0\n",
        status: Status::Refused,
    },
    Row {
        filter: b"/a/b",
        source: b"y 1\n=\n(a\n(b\n)b\n)a\n",
        text: b"! proof wrong 1\n",
        status: Status::Refused,
    },
    Row {
        filter: b"/a/b",
        source: b"q\ny 1\n=\n(a\n(b\n)b\n)a\n",
        text: b"! proof line 1\n",
        status: Status::Refused,
    },
    Row {
        filter: b"/a[not(b)]",
        source: b"n 1\nc 1\n!\ny 1\n=\n(a\n(b\n)b\n)a\n",
        text: b"no\n",
        status: Status::Refused,
    },
    Row {
        filter: b"/a[",
        source: b"q\n",
        text: b"! filter not-a-filter 3\n",
        status: Status::Refused,
    },
    Row {
        filter: b"/a",
        source: b"y 2\n=\n(a\n)b\n",
        text: b"! line 2 not-here\n",
        status: Status::Refused,
    },
    Row {
        filter: b"/a",
        source: b"y 1\n=\n",
        text: b"! line 0 truncated\n",
        status: Status::Refused,
    },
    Row {
        filter: b"/a",
        source: b"y 1\ny 1\n",
        text: b"! proof line 3\n",
        status: Status::Refused,
    },
    Row {
        filter: b"/a",
        source: b"y 1\n=",
        text: b"! proof line 2\n",
        status: Status::Refused,
    },
    Row {
        filter: b"/a",
        source: b"y 1\nt                \n=\n(a\n)a\n",
        text: b"! proof line 2\n",
        status: Status::Refused,
    },
    Row {
        filter: b"/a",
        source: b"",
        text: b"! proof line 1\n",
        status: Status::Refused,
    },
];

// The text and the status of what was found.
fn written(alloc: Global, found: Result<Finding, Cut>) -> Result<(Bytes, Status), AllocError> {
    match found {
        Ok(finding) => Ok((text_of(alloc, &finding)?, finding.status())),
        Err(_) => Err(AllocError),
    }
}

#[test]
fn a_document_is_explained(rt: HostRuntime) -> Result<(), Fail> {
    let alloc = rt.alloc();
    for row in EXPLAINED.iter() {
        let mut source = MemSource::new(Bytes::of(alloc, row.source)?);
        let (text, status) = written(alloc, explanation(alloc, row.filter, &mut source))?;
        assert_eq!(rt; text.as_slice(), row.text);
        assert_eq!(rt; status, row.status);
    }
    Ok(())
}

#[test]
fn a_proof_is_verified(rt: HostRuntime) -> Result<(), Fail> {
    let alloc = rt.alloc();
    for row in VERIFIED.iter() {
        let mut source = MemSource::new(Bytes::of(alloc, row.source)?);
        let (text, status) = written(alloc, verification(alloc, row.filter, &mut source))?;
        assert_eq!(rt; text.as_slice(), row.text);
        assert_eq!(rt; status, row.status);
    }
    Ok(())
}
