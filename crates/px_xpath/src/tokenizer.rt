//! How the tokens of a text are found.

ghost use Rattle.std.specs.Prelude.{◌≡◌, ◌-◌, ◌+◌, ◌<◌, ◌==◌, not, true, Bool, ◌≤◌, length, drop, take_while, IsTrue, IfOk, List};
ghost use Rattle.std.specs.List.{list_all};
ghost use Rattle.px_text.specs.Names as names;
ghost use Rattle.px_text.specs.Numbers as numbers;
ghost use Rattle.px_xpath.specs.Tokens as tokens;
ghost use Rattle.px_xpath.specs.TokenViews.{IsNext, all_placed, sized, token as view};

use crate::filter::Relation;
use crate::token::{Numeral, Placed, Sized, Token};
use px_text::{begins_part, continues_part, is_digit, is_white};
use std::alloc::{AllocError, Global};

// How many digits stand at the front.
fn digit_count(text: &[u8]) -> usize
    ensures { result ≡ length (take_while names.is_digit text.now) }
{
    text.iter().take_while(|byte| is_digit(**byte)).count()
}

// How many bytes of white space stand at the front.
fn white_count(text: &[u8]) -> usize
    ensures { result ≡ length (take_while names.is_white text.now) }
{
    text.iter().take_while(|byte| is_white(**byte)).count()
}

// What is left behind the white space at the front.
fn behind_white(text: &[u8]) -> &[u8]
    ensures same { result.now ≡ numbers.past names.is_white text.now }
    ensures within { length result.now ≤ length text.now }
{
    let count = white_count(text);
    &text[count..]
}

// How many bytes at the front go on with a name.
fn name_count(text: &[u8]) -> usize
    ensures { result ≡ length (take_while names.continues_part text.now) }
{
    text.iter()
        .take_while(|byte| continues_part(**byte))
        .count()
}

// How many bytes stand before the first quote.
fn unquoted_count(quote: u8, text: &[u8]) -> usize
    ensures { result ≡ length (take_while (λ byte. not (byte == quote)) text.now) }
{
    text.iter().take_while(|byte| !(**byte == quote)).count()
}

// The digits at the front.
fn digits(text: &[u8]) -> &[u8]
    ensures same { result.now ≡ take_while names.is_digit text.now }
    ensures digits { IsTrue (list_all names.is_digit result.now) }
    ensures within { length result.now ≤ length text.now }
{
    let count = digit_count(text);
    &text[..count]
}

fn starts_with_byte(byte: u8, text: &[u8]) -> bool
    ensures same { result ≡ numbers.starts_with_byte byte text.now }
    ensures some { result ≡ true → 0 < length text.now }
{
    match text.first() {
        Some(first) => *first == byte,
        None => false,
    }
}

// What is left behind the first byte.
fn behind_first(text: &[u8]) -> &[u8]
    ensures { result.now ≡ drop 1 text.now }
{
    match text.split_first() {
        Some((_, behind)) => behind,
        None => text,
    }
}

// The number at the front, which has no bytes where there is none.
fn number_at<'a>(text: &'a [u8]) -> Sized<'a>
    ensures same { sized result ≡ tokens.number_at text.now }
    ensures within { result.bytes ≤ length text.now }
{
    let whole = digits(text);
    let rest = &text[whole.len()..];
    let fraction = digits(behind_first(rest));
    if starts_with_byte(b'.', rest) && !(whole.is_empty() && fraction.is_empty()) {
        return Sized {
            token: Token::Numeric(Numeral { whole, fraction }),
            bytes: whole.len() + 1 + fraction.len(),
        };
    }
    Sized {
        token: Token::Numeric(Numeral {
            whole,
            fraction: &text[..0],
        }),
        bytes: whole.len(),
    }
}

// The part of a name at the front.
fn part(text: &[u8]) -> &[u8]
    ensures same { result.now ≡ tokens.part text.now }
    ensures within { length result.now ≤ length text.now }
{
    match text.split_first() {
        Some((first, rest)) => {
            if begins_part(*first) {
                &text[..name_count(rest) + 1]
            } else {
                &text[..0]
            }
        }
        None => text,
    }
}

// The longest name at the front: a part, or two parts joined by a colon.
fn name_at(text: &[u8]) -> &[u8]
    ensures same { result.now ≡ tokens.name_at text.now }
    ensures within { length result.now ≤ length text.now }
{
    let first = part(text);
    if first.is_empty() {
        return first;
    }
    let rest = &text[first.len()..];
    if !starts_with_byte(b':', rest) {
        return first;
    }
    let second = part(behind_first(rest));
    if second.is_empty() {
        return first;
    }
    &text[..first.len() + 1 + second.len()]
}

// A quoted text up to its second quote, where it has one.
fn quoted_at<'a>(quote: u8, rest: &'a [u8]) -> Sized<'a>
    ensures same { sized result ≡ tokens.quoted_at quote rest.now }
    ensures within { result.bytes ≤ length rest.now + 1 }
{
    let count = unquoted_count(quote, rest);
    let behind = &rest[count..];
    if behind.is_empty() {
        return Sized {
            token: Token::Strange,
            bytes: 1,
        };
    }
    Sized {
        token: Token::Quoted(&rest[..count]),
        bytes: count + 2,
    }
}

// A token of one byte, or another of two where this byte stands behind it.
fn one_or_two<'a>(short: Token<'a>, byte: u8, long: Token<'a>, rest: &'a [u8]) -> Sized<'a>
    ensures same { sized result ≡ tokens.one_or_two (view short.entry) byte (view long.entry)
        rest.now }
    ensures within { result.bytes ≤ length rest.now + 1 }
{
    if starts_with_byte(byte, rest) {
        Sized {
            token: long,
            bytes: 2,
        }
    } else {
        Sized {
            token: short,
            bytes: 1,
        }
    }
}

// What a word is: an operator behind a whole operand, a function before a bracket, and else a
// name test.
fn word<'a>(is_behind_operand: bool, is_before_bracket: bool, name: &'a [u8]) -> Token<'a>
    ensures { view result ≡ tokens.word is_behind_operand is_before_bracket name.now }
{
    if is_behind_operand {
        if name == b"and".as_slice() {
            Token::AndWord
        } else if name == b"or".as_slice() {
            Token::OrWord
        } else {
            Token::Strange
        }
    } else if is_before_bracket {
        if name == b"not".as_slice() {
            Token::NotWord
        } else if name == b"text".as_slice() {
            Token::TextWord
        } else {
            Token::Strange
        }
    } else {
        Token::NameTest(name)
    }
}

// The word at the front, or a byte that no filter has there.
fn word_at<'a>(is_behind_operand: bool, text: &'a [u8]) -> Sized<'a>
    ensures same { sized result ≡ tokens.word_at is_behind_operand text.now }
    ensures within { result.bytes ≤ length text.now + 1 }
    ensures within_some { 0 < length text.now → result.bytes ≤ length text.now }
{
    let name = name_at(text);
    if name.is_empty() {
        return Sized {
            token: Token::Strange,
            bytes: 1,
        };
    }
    let rest = &text[name.len()..];
    let is_before_bracket = starts_with_byte(b'(', behind_white(rest));
    Sized {
        token: word(is_behind_operand, is_before_bracket, name),
        bytes: name.len(),
    }
}

// The token at the front of a text that begins with no white space.
fn token_at<'a>(is_behind_operand: bool, text: &'a [u8]) -> Sized<'a>
    ensures same { sized result ≡ tokens.token_at is_behind_operand text.now }
    ensures within { 0 < length text.now → result.bytes ≤ length text.now }
{
    let Some((first, rest)) = text.split_first() else {
        return Sized {
            token: Token::Strange,
            bytes: 1,
        };
    };
    let number = number_at(text);
    if number.bytes != 0 {
        return number;
    }
    let token = match *first {
        b'/' => return one_or_two(Token::Slash, b'/', Token::Slashes, rest),
        b'[' => Token::OpenSquare,
        b']' => Token::CloseSquare,
        b'(' => Token::Open,
        b')' => Token::Close,
        b'@' => Token::At,
        b'*' => Token::Star,
        b'.' => return one_or_two(Token::Dot, b'.', Token::Strange, rest),
        b'-' => Token::Minus,
        b'=' => Token::Related(Relation::Equal),
        b'!' => return one_or_two(
            Token::Strange,
            b'=',
            Token::Related(Relation::NotEqual),
            rest,
        ),
        b'<' => {
            return one_or_two(
                Token::Related(Relation::Less),
                b'=',
                Token::Related(Relation::AtMost),
                rest,
            );
        }
        b'>' => {
            return one_or_two(
                Token::Related(Relation::Greater),
                b'=',
                Token::Related(Relation::AtLeast),
                rest,
            );
        }
        b'"' | b'\'' => return quoted_at(*first, rest),
        _ => return word_at(is_behind_operand, text),
    };
    Sized { token, bytes: 1 }
}

// Whether a condition, a path or a value may end with this token.
fn ends_operand(token: &Token<'_>) -> bool
    ensures { result ≡ tokens.ends_operand (view token.now) }
{
    matches!(
        token,
        Token::NameTest(_)
            | Token::Star
            | Token::Close
            | Token::CloseSquare
            | Token::Quoted(_)
            | Token::Numeric(_)
    )
}

// What is left of a text behind so many bytes.
fn behind(text: &[u8], bytes: usize) -> &[u8]
    ensures { result.now ≡ drop bytes text.now }
{
    text.get(bytes..).unwrap_or(&text[..0])
}

// The token behind the white space at the front, and what is left behind it. None where only white
// space is left.
fn next_token<'a>(
    place: usize,
    is_behind_operand: bool,
    text: &'a [u8],
) -> Option<(Placed<'a>, &'a [u8])>
    requires { place + length text.now ≤ 4096 }
    ensures { IsNext place is_behind_operand text.now result }
{
    let start = behind_white(text);
    if start.is_empty() {
        return None;
    }
    let found = token_at(is_behind_operand, start);
    let at = (place + (text.len() - start.len())) as u32;
    let placed = Placed {
        at,
        token: found.token,
    };
    Some((placed, behind(start, found.bytes)))
}

/// The tokens of a text, from the left. Each takes a byte at least, so there are at most as many
/// as the text has bytes. It takes memory for them, and its only failure is want of memory.
pub fn tokens_of<'a>(alloc: Global, text: &'a [u8]) -> Result<Vec<Placed<'a>>, AllocError>
    requires { length text.now ≤ 4096 }
    ensures { IfOk result (λ found. all_placed found.items ≡ tokens.tokens text.now) }
{
    let mut found = Vec::new(alloc);
    let mut is_behind_operand = false;
    let mut rest = text;
    for _ in text {
        let Some((next, behind)) = next_token(text.len() - rest.len(), is_behind_operand, rest)
        else {
            return Ok(found);
        };
        is_behind_operand = ends_operand(&next.token);
        rest = behind;
        found.push(next)?;
    }
    Ok(found)
}
