//! Texts from outside, and a proof that is made, written, read and checked.

use px_explain::{
    Checked, ExplainFault, ProofFault, ProofReader, check, explain, read_proof, write_proof,
};
use px_text::Bytes;
use px_tree::{Element, Node, Tree};
use px_xpath::parse;
use sqlite_items::Items;
use std::alloc::{AllocError, Global};
use std::test::Fail;

fn element(alloc: Global, name: &[u8], children: Items<Node>) -> Result<Element, AllocError> {
    Ok(Element {
        name: Bytes::of(alloc, name)?,
        attributes: Items::new(alloc),
        children,
    })
}

// An `a` with so many empty elements `b` in it.
fn a_with_bs(alloc: Global, count: u32) -> Result<Tree, AllocError> {
    let mut children = Items::new(alloc);
    for _ in 0..count {
        children.push(Node::Elem(element(alloc, b"b", Items::new(alloc))?))?;
    }
    let root = element(alloc, b"a", children)?;
    Ok(Tree { root })
}

// So many lines `t`.
fn lines_t(alloc: Global, count: u32) -> Result<Vec<u8>, AllocError> {
    let mut text = Vec::new(alloc);
    for _ in 0..count {
        text.extend_from_slice(b"t\n")?;
    }
    Ok(text)
}

#[test]
fn explains_and_checks(rt: HostRuntime) -> Result<(), Fail> {
    let alloc = rt.alloc();
    let tree = a_with_bs(alloc, 1)?;
    for (text, expected, answer) in [
        (b"/a/b".as_slice(), b"y 1\ny 1\n".as_slice(), Checked::Yes),
        (b"/a[not(b)]", b"n 1\nc 1\n!\ny 1\n", Checked::No),
    ] {
        let Ok(filter) = parse(alloc, text) else {
            assert!(rt; false);
            continue;
        };
        let Ok(proof) = explain(alloc, &filter, &tree) else {
            assert!(rt; false);
            continue;
        };
        let written = write_proof(alloc, &proof)?;
        assert!(rt; written.as_slice() == expected);
        let Ok(again) = read_proof(alloc, written.as_slice()) else {
            assert!(rt; false);
            continue;
        };
        assert_eq!(rt; check(&filter, &tree, &again), answer);
    }
    Ok(())
}

#[test]
fn names_the_first_wrong_node_and_line(rt: HostRuntime) -> Result<(), Fail> {
    let alloc = rt.alloc();
    let tree = a_with_bs(alloc, 1)?;
    let Ok(filter) = parse(alloc, b"/a/b") else {
        assert!(rt; false);
        return Ok(());
    };
    for (text, at) in [
        (b"y 2\ny 1\n".as_slice(), 0),
        (b"y 1\n", 1),
        (b"y 1\ny 1\nt\n", 2),
        (b"", 0),
    ] {
        let Ok(proof) = read_proof(alloc, text) else {
            assert!(rt; false);
            continue;
        };
        assert_eq!(rt; check(&filter, &tree, &proof), Checked::Wrong { at });
    }
    Ok(())
}

#[test]
fn names_the_first_line_that_is_none(rt: HostRuntime) -> Result<(), Fail> {
    let alloc = rt.alloc();
    for (text, line) in [
        (b"q\n".as_slice(), 1),
        (b"t\nt", 2),
        (b"y 01\n", 1),
        (b"y 4294967296\n", 1),
        (b"t\n\n", 2),
        (b"t\n=\n", 2),
        (b"t\r\n", 1),
        (b"t 1\n", 1),
        (b"y\n", 1),
    ] {
        match read_proof(alloc, text) {
            Err(ProofFault::NotAProof { line: found }) => assert_eq!(rt; found, line),
            _ => assert!(rt; false),
        }
    }
    Ok(())
}

// `//b[@k]` needs one line for the count, one for `a`, and two for each `b`.
#[test]
fn explains_by_at_most_a_hundred_thousand_nodes(rt: HostRuntime) -> Result<(), Fail> {
    let alloc = rt.alloc();
    let Ok(filter) = parse(alloc, b"//b[@k]") else {
        assert!(rt; false);
        return Ok(());
    };
    match explain(alloc, &filter, &a_with_bs(alloc, 49_999)?) {
        Ok(proof) => assert_eq!(rt; proof.as_slice().len(), 100_000),
        Err(_) => assert!(rt; false),
    }
    for count in [50_000, 100_000] {
        match explain(alloc, &filter, &a_with_bs(alloc, count)?) {
            Err(ExplainFault::TooMany) => {}
            _ => assert!(rt; false),
        }
    }
    Ok(())
}

#[test]
fn reads_at_most_a_hundred_thousand_lines(rt: HostRuntime) -> Result<(), Fail> {
    let alloc = rt.alloc();
    let mut text = lines_t(alloc, 99_999)?;
    text.extend_from_slice(b"q\n")?;
    match read_proof(alloc, text.as_slice()) {
        Err(ProofFault::NotAProof { line }) => assert_eq!(rt; line, 100_000),
        _ => assert!(rt; false),
    }
    let mut text = lines_t(alloc, 100_000)?;
    match read_proof(alloc, text.as_slice()) {
        Ok(proof) => assert_eq!(rt; proof.as_slice().len(), 100_000),
        Err(_) => assert!(rt; false),
    }
    text.push(b'q')?;
    match read_proof(alloc, text.as_slice()) {
        Err(ProofFault::TooMany) => {}
        _ => assert!(rt; false),
    }
    Ok(())
}

/// How a proof in front of a document is read.
#[derive(Clone, Copy, Debug, Drop, PartialEq, Eq)]
enum Read {
    /// So many nodes, and so many bytes of the document.
    Whole(usize, usize),
    Fault(ProofFault),
}

// Reads the text in pieces of so many bytes.
fn read_pieces(alloc: Global, text: &[u8], size: usize) -> Read {
    let mut reader = ProofReader::new(alloc);
    let mut taken = 0usize;
    for piece in text.chunks(size.max(1)) {
        taken = taken.saturating_add(piece.len());
        match reader.feed(piece) {
            Ok(Some(document)) => {
                let behind = text.len().saturating_sub(taken);
                let count = document.len().saturating_add(behind);
                return Read::Whole(reader.finish().as_slice().len(), count);
            }
            Ok(None) => {}
            Err(fault) => return Read::Fault(fault),
        }
    }
    Read::Fault(reader.end())
}

#[test]
fn reads_a_proof_up_to_its_end_line(rt: HostRuntime) -> Result<(), Fail> {
    let alloc = rt.alloc();
    let not_at = |line| Read::Fault(ProofFault::NotAProof { line });
    for (text, wanted) in [
        (b"y 1\ny 1\n=\n(a\n".as_slice(), Read::Whole(2, 3)),
        (b"=\n", Read::Whole(0, 0)),
        (b"=\n=\n", Read::Whole(0, 2)),
        (b"y 1\nq\n=\n", not_at(2)),
        (b"y 1\n=", not_at(2)),
        (b"y 1\n=\r\n", not_at(2)),
        (b"y 1\n", not_at(2)),
        (b"", not_at(1)),
        (b"\n=\n", not_at(1)),
        (b"y 4294967295\n=\n", Read::Whole(1, 0)),
        (b"y 123456789012345", not_at(1)),
    ] {
        for size in [1, 3, 100] {
            assert_eq!(rt; read_pieces(alloc, text, size), wanted);
        }
    }
    Ok(())
}

#[test]
fn reads_at_most_a_hundred_thousand_lines_before_a_document(rt: HostRuntime) -> Result<(), Fail> {
    let alloc = rt.alloc();
    for (last, wanted) in [
        (b"=\n(a\n".as_slice(), Read::Whole(100_000, 3)),
        (b"t\n=\n", Read::Fault(ProofFault::TooMany)),
        (b"=", Read::Fault(ProofFault::TooMany)),
        (b"", Read::Fault(ProofFault::NotAProof { line: 100_001 })),
    ] {
        let mut text = lines_t(alloc, 100_000)?;
        text.extend_from_slice(last)?;
        assert_eq!(rt; read_pieces(alloc, text.as_slice(), 65_536), wanted);
    }
    Ok(())
}

#[test]
fn a_proof_says_its_answer(rt: HostRuntime) -> Result<(), Fail> {
    let alloc = rt.alloc();
    for (text, yes) in [(b"y 1\n".as_slice(), true), (b"n 0\n", false), (b"", false)] {
        match read_proof(alloc, text) {
            Ok(proof) => assert_eq!(rt; proof.says_yes(), yes),
            Err(_) => assert!(rt; false),
        }
    }
    Ok(())
}
