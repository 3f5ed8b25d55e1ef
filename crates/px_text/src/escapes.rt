//! The text that a line's bytes stand for.

ghost use Rattle.std.specs.Prelude.{◌≡◌, ◌≤◌, ◌++◌, is_ok, if◌then◌else◌, length, slice_index};
ghost use Rattle.px_text.specs.Escapes.{unescaped};

use memchr::memchr;
use std::alloc::AllocError;

/// Appends a text with its escapes read. It fails only for want of memory, and then the vector is
/// unchanged.
pub fn unescape(text: &[u8], out: &mut Vec<u8>) -> Result<(), AllocError>
    ensures items { out.new.items ≡ (if is_ok result then out.old.items ++
        unescaped text.now else out.old.items) }
{
    out.reserve(text.len())?;
    let mut rest = text;
    while let Some(at) = memchr(b'\\', rest) {
        let (plain, escaped) = rest.split_at(at);
        let (escape, behind) = escaped.split_at(escaped.len().min(2));
        out.extend_from_slice(plain)?;
        out.extend_from_slice(read_escape(escape))?;
        rest = behind;
    }
    out.extend_from_slice(rest)
}

// What a backslash stands for, alone at the end of a text or with the byte behind it.
fn read_escape(escape: &[u8]) -> &[u8]
    requires backslash { slice_index escape.now 0 ≡ 92 }
    requires short { length escape.now ≤ 2 }
    ensures value { result.now ≡ unescaped escape.now }
    ensures short { length result.now ≤ length escape.now }
{
    match escape {
        [_, b'n'] => b"\n",
        [_, b't'] => b"\t",
        [_, b'r'] => b"\r",
        [_, b'\\'] => b"\\",
        _ => escape,
    }
}
