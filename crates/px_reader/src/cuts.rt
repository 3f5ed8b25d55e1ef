//! The parts of a line.

ghost use Rattle.std.specs.Prelude.{◌≡◌, ◌++◌, ◌∷◌, []};
ghost use Rattle.px_reader.specs.Lines.{until_space, behind_space, without_end};

use memchr::memchr;

/// What stands before the first space, and what stands behind it.
pub fn split_at_space(line: &[u8]) -> (&[u8], &[u8])
    ensures name { result.0.now ≡ until_space line.now }
    ensures value { result.1.now ≡ behind_space line.now }
{
    match memchr(b' ', line) {
        Some(space) => (&line[..space], &line[space + 1..]),
        None => (line, &line[line.len()..]),
    }
}

/// A line without its end: a line feed, or a carriage return and a line feed.
pub fn without_end(line: &[u8]) -> &[u8]
    ensures { result.now ≡ without_end line.now }
{
    match line {
        [content @ .., b'\n'] => without_return(content),
        _ => line,
    }
}

// What stands before a line feed, without a carriage return at its end.
fn without_return(content: &[u8]) -> &[u8]
    ensures { result.now ≡ without_end (content.now ++ 10 ∷ []) }
{
    match content {
        [front @ .., b'\r'] => front,
        _ => content,
    }
}
