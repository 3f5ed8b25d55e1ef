//! What documents give, whole and in pieces.

ghost use Rattle.std.specs.Prelude.{◌<◌};

use px_reader::{Doc, Event, EventList, Happening, Reader, ReaderFault};
use px_text::Bytes;
use std::alloc::{AllocError, Global};
use std::process::Abort;
use std::test::Fail;

// Feeds the document in pieces of so many bytes.
fn feed_all(
    reader: &mut Reader,
    document: &[u8],
    size: usize,
    events: &mut Vec<Event>,
) -> Result<(), ReaderFault>
    requires { 0 < size }
{
    for piece in document.chunks(size) {
        reader.feed(piece, events)?;
    }
    reader.end(events)
}

// The events as lines, and the fault.
fn outcome(alloc: Global, document: &[u8], size: usize) -> Result<Vec<u8>, AllocError>
    requires { 0 < size }
{
    let mut reader = Reader::new(alloc)?;
    let mut events = Vec::new(alloc);
    let answer = feed_all(&mut reader, document, size, &mut events);
    let mut written = Vec::new(alloc);
    for event in &events {
        write_event(&mut written, event)?;
    }
    if let Err(fault) = answer {
        let text = format!(in alloc; "! {fault}")?;
        written.extend_from_slice(text.as_bytes())?;
    }
    Ok(written)
}

fn write_event(written: &mut Vec<u8>, event: &Event) -> Result<(), AllocError> {
    match event {
        Event::Start { name } => {
            written.push(b'(')?;
            written.extend_from_slice(name.as_slice())?;
        }
        Event::Attr { name, value } => {
            written.push(b'A')?;
            written.extend_from_slice(name.as_slice())?;
            written.push(b' ')?;
            written.extend_from_slice(value.as_slice())?;
        }
        Event::Text { text } => {
            written.push(b'-')?;
            written.extend_from_slice(text.as_slice())?;
        }
        Event::End => written.push(b')')?,
    }
    written.push(b'\n')?;
    Ok(())
}

fn check(rt: &impl Abort, alloc: Global, document: &[u8], want: &[u8]) -> Result<(), AllocError> {
    let whole = outcome(alloc, document, 1 << 30)?;
    assert!(rt; whole.ends_with(want), "{want:?} at the end of {whole:?}");
    let bytes = outcome(alloc, document, 1)?;
    assert!(rt;
        bytes.as_slice() == whole.as_slice(),
        "{want:?} byte by byte"
    );
    let sevens = outcome(alloc, document, 7)?;
    assert!(rt;
        sevens.as_slice() == whole.as_slice(),
        "{want:?} in pieces of seven bytes"
    );
    Ok(())
}

// Each text as often as its number says.
fn repeated(alloc: Global, parts: &[(&[u8], usize)]) -> Result<Vec<u8>, AllocError> {
    let mut document = Vec::new(alloc);
    for (text, count) in parts {
        for _ in 0..*count {
            document.extend_from_slice(text)?;
        }
    }
    Ok(document)
}

#[test]
fn documents_and_first_faults(rt: HostRuntime) -> Result<(), Fail> {
    let rows: [(&[u8], &[u8]); 13] = [
        (b"", b"! line 0: Truncated"),
        (b"(a", b"(a\n! line 1: Truncated"),
        (b"(a\n)b\n", b"(a\n! line 2: NotHere"),
        (b"(a\nAx 1\nAx 2\n)a\n", b"(a\nAx 1\n! line 3: NotHere"),
        (b"(a\n-\xFF\n", b"(a\n! line 2: NotUtf8"),
        (b"(a\n#\xFF\n", b"(a\n! line 2: NotUtf8"),
        (b"(r\n-1\n-2\n)r\n", b"(r\n-12\n)\n"),
        (b"(r\n-1\n?p\n-2\n)r\n", b"(r\n-1\n-2\n)\n"),
        (b"(a\r\n-x\\ty\r\n)a", b"(a\n-x\ty\n)\n"),
        (b"(a\n)a\r", b"(a\n! line 2: NotHere"),
        (b"?x\n\n- \\n\n(a\n-\n\n)a\n-\n", b"(a\n)\n"),
        (b"(a\n)a\n(b\n", b"(a\n)\n! line 3: NotHere"),
        (b"(a\n-x\nAb 1\n", b"(a\n! line 3: NotHere"),
    ];
    for (document, want) in rows {
        check(&rt, rt.alloc(), document, want)?;
    }
    Ok(())
}

#[test]
fn depths_lines_and_sizes(rt: HostRuntime) -> Result<(), Fail> {
    let alloc = rt.alloc();
    let deep = repeated(alloc, &[(b"(a\n", 512), (b")a\n", 512)])?;
    check(&rt, alloc, &deep, b")\n")?;
    let deeper = repeated(alloc, &[(b"(a\n", 513), (b")a\n", 513)])?;
    check(&rt, alloc, &deeper, b"(a\n! line 513: TooDeep")?;
    let long = repeated(alloc, &[(b"(a\n-", 1), (b"x", 1_048_575), (b"\n)a\n", 1)])?;
    check(&rt, alloc, &long, b"x\n)\n")?;
    let longer = repeated(alloc, &[(b"(a\n-", 1), (b"x", 1_048_576), (b"\n)a\n", 1)])?;
    check(&rt, alloc, &longer, b"(a\n! line 2: LineLong")?;
    let line = repeated(alloc, &[(b"-", 1), (b"x", 999_998), (b"\n", 1)])?;
    let big = repeated(alloc, &[(b"(a\n", 1), (&line, 17)])?;
    check(&rt, alloc, &big, b"(a\n! line 18: TooBig")?;
    Ok(())
}

// The first lines of an element with so many attributes.
fn many_attributes(alloc: Global, count: u32) -> Result<Vec<u8>, AllocError> {
    let mut document = repeated(alloc, &[(b"(a\n", 1)])?;
    for number in 0..count {
        let line = format!(in alloc; "Aa{number} v\n")?;
        document.extend_from_slice(line.as_bytes())?;
    }
    document.extend_from_slice(b")a\n")?;
    Ok(document)
}

#[test]
fn attributes(rt: HostRuntime) -> Result<(), Fail> {
    let alloc = rt.alloc();
    check(&rt, alloc, &many_attributes(alloc, 256)?, b"Aa255 v\n)\n")?;
    check(
        &rt,
        alloc,
        &many_attributes(alloc, 257)?,
        b"Aa255 v\n! line 258: TooManyAttributes",
    )?;
    Ok(())
}

#[test]
fn whole_documents(rt: HostRuntime) -> Result<(), Fail> {
    let alloc = rt.alloc();
    let doc = Doc::of(alloc, Bytes::of(alloc, b"(a\n)a\n")?)?;
    assert_eq!(rt; doc.bytes(), b"(a\n)a\n".as_slice());
    assert_eq!(rt; doc.events().len(), 2);
    let refused = Doc::of(alloc, Bytes::of(alloc, b"(a\n")?);
    assert!(rt; refused.is_err());
    Ok(())
}

#[test]
fn lists_of_events(rt: HostRuntime) -> Result<(), Fail> {
    let alloc = rt.alloc();
    let mut events = EventList::new(alloc);
    events.push(Happening::Start { name: b"a" })?;
    events.push(Happening::Attr {
        name: b"b",
        value: b"",
    })?;
    events.push(Happening::Text { text: b"cd" })?;
    events.push(Happening::End)?;
    assert_eq!(rt; events.len(), 4);
    assert!(rt; matches!(events.get(0), Happening::Start { name } if name == b"a".as_slice()));
    assert!(rt;
        matches!(
            events.get(1),
            Happening::Attr { name, value } if name == b"b".as_slice() && value.is_empty()
        )
    );
    assert!(rt; matches!(events.get(2), Happening::Text { text } if text == b"cd".as_slice()));
    assert!(rt; matches!(events.get(3), Happening::End));
    events.clear();
    assert_eq!(rt; events.len(), 0);
    Ok(())
}

#[test]
fn faults_stay_and_readers_go_on(rt: HostRuntime) -> Result<(), Fail> {
    let mut reader = Reader::new(rt.alloc())?;
    let mut events = Vec::new(rt.alloc());
    for _ in 0..2 {
        reader.feed(b"(a\n)a\n", &mut events)?;
        reader.end(&mut events)?;
    }
    assert_eq!(rt; events.len(), 4);
    let fault = reader.feed(b"#\n", &mut events);
    assert!(rt; fault.is_err());
    assert_eq!(rt; reader.feed(b"(a\n", &mut events), fault);
    assert_eq!(rt; reader.end(&mut events), fault);
    Ok(())
}
