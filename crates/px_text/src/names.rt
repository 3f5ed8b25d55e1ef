//! Which bytes are letters, digits and white space, and which texts are names.

ghost use Rattle.std.specs.Prelude.{◌≡◌};
ghost use Rattle.std.specs.List.{list_all};
ghost use Rattle.px_text.specs.Names as names;

/// Space, tab, CR or LF.
pub fn is_white(byte: u8) -> bool
    ensures { result ≡ names.is_white byte }
{
    byte == b' ' || byte == b'\t' || byte == b'\r' || byte == b'\n'
}

pub fn is_digit(byte: u8) -> bool
    ensures { result ≡ names.is_digit byte }
{
    b'0' <= byte && byte <= b'9'
}

/// An ASCII letter.
pub fn is_letter(byte: u8) -> bool
    ensures { result ≡ names.is_letter byte }
{
    b'A' <= byte && byte <= b'Z' || b'a' <= byte && byte <= b'z'
}

/// A letter, `_` or a byte from 0x80 upward: what a part of a name begins with.
pub fn begins_part(byte: u8) -> bool
    ensures { result ≡ names.begins_part byte }
{
    is_letter(byte) || byte == b'_' || byte >= 0x80
}

/// What a part of a name goes on with: what it may begin with, a digit, `-` or `.`.
pub fn continues_part(byte: u8) -> bool
    ensures { result ≡ names.continues_part byte }
{
    begins_part(byte) || is_digit(byte) || byte == b'-' || byte == b'.'
}

/// Whether a text is a name as documents write them, where `:` is as good as a letter.
#[tactic(auto, using(crate::proofs::NameParts::pyx_name_by_first))]
pub fn is_pyx_name(text: &[u8]) -> bool
    ensures { result ≡ names.is_pyx_name text.now }
{
    match text {
        [] => false,
        [first, rest @ ..] => begins_name(*first) && all_continue_name(rest),
    }
}

/// Whether a text is a name as filters write them: a part, or two parts joined by one `:`.
#[tactic(auto, using(crate::proofs::NameParts::filter_name_by_first))]
pub fn is_filter_name(text: &[u8]) -> bool
    ensures { result ≡ names.is_filter_name text.now }
{
    match text {
        [] => false,
        [first, rest @ ..] => begins_part(*first) && ends_filter_name(rest),
    }
}

fn begins_name(byte: u8) -> bool
    ensures { result ≡ names.begins_name byte }
{
    begins_part(byte) || byte == b':'
}

fn continues_name(byte: u8) -> bool
    ensures { result ≡ names.continues_name byte }
{
    continues_part(byte) || byte == b':'
}

fn all_continue_name(bytes: &[u8]) -> bool
    ensures { result ≡ list_all names.continues_name bytes.now }
{
    bytes.iter().all(|byte| continues_name(*byte))
}

#[tactic(auto, using(crate::proofs::NameParts::part_by_first))]
fn is_part(text: &[u8]) -> bool
    ensures { result ≡ names.is_part text.now }
{
    match text {
        [] => false,
        [first, rest @ ..] => begins_part(*first) && all_continue_part(rest),
    }
}

fn all_continue_part(bytes: &[u8]) -> bool
    ensures { result ≡ list_all names.continues_part bytes.now }
{
    bytes.iter().all(|byte| continues_part(*byte))
}

// Whether bytes behind the first one of a part end a filter's name.
#[tactic(auto, using(crate::proofs::NameParts::end_at))]
fn ends_filter_name(text: &[u8]) -> bool
    ensures { result ≡ names.ends_filter_name text.now }
{
    for (at, byte) in text.iter().enumerate() {
        if *byte == b':' {
            return is_part(&text[at + 1..]);
        }
        if !continues_part(*byte) {
            return false;
        }
    }
    true
}
