//! The tree of a few events.

use px_reader::Event;
use px_text::Bytes;
use px_tree::build;
use std::test::Fail;

#[test]
fn builds_elements_attributes_and_texts(rt: HostRuntime) -> Result<(), Fail> {
    let alloc = rt.alloc();
    let events = [
        Event::Start {
            name: Bytes::of(alloc, b"a")?,
        },
        Event::Attr {
            name: Bytes::of(alloc, b"k")?,
            value: Bytes::of(alloc, b"v")?,
        },
        Event::Text {
            text: Bytes::of(alloc, b"x")?,
        },
        Event::Start {
            name: Bytes::of(alloc, b"b")?,
        },
        Event::End,
        Event::End,
    ];
    let tree = build(alloc, &events)?;
    assert_eq!(rt; tree.root.attributes.len(), 1);
    assert_eq!(rt; tree.root.children.len(), 2);
    Ok(())
}
