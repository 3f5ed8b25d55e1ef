//! The lines of a proof's text.

ghost use Rattle.std.specs.Prelude.{◌≡◌, ◌≤◌, ◌<◌, ◌^◌, ◌∷◌, ◌++◌, true, false, length, IsTrue, MatchOption};
ghost use Rattle.std.specs.List.{list_all};
ghost use Rattle.px_text.specs.Names.{is_digit as tests_digit};
ghost use Rattle.px_text.specs.Numbers.{value};
ghost use Rattle.px_explain.specs.Lines as lines;
ghost use Rattle.px_explain.specs.Lines.{letters, numbered_letters, at_letter};
ghost use Rattle.px_explain.specs.Texts.{line, BeginsWithLine};
ghost use Rattle.px_explain.specs.Bounds.{has_above};

use crate::node::ProofNode;
use memchr::memchr;
use px_text::is_digit;

/// The most digits of a number in a proof.
const MOST_DIGITS: usize = 10;

/// The node whose line the text begins with, and what is behind that line.
pub fn line_at(text: &[u8]) -> Option<(ProofNode, &[u8])>
    ensures { MatchOption result (BeginsWithLine text.now →
        ⊥) (λ r. (text.now ≡ line r.0 ++ r.1.now) × (has_above 4_294_967_295 r.0 ≡ false)) }
{
    match memchr(b'\n', text) {
        Some(at) => match node_of(&text[..at]) {
            Some(node) => Some((node, &text[at + 1..])),
            None => None,
        },
        None => None,
    }
}

/// The node whose words these are.
pub fn node_of(words: &[u8]) -> Option<ProofNode>
    ensures { result ≡ lines.node_of words.now }
{
    match words.split_first() {
        Some((letter, behind)) => match behind.split_first() {
            Some((space, digits)) => {
                if *space == b' ' {
                    with_number(*letter, digits)
                } else {
                    None
                }
            }
            None => by_itself(*letter),
        },
        None => None,
    }
}

// The node that a letter is by itself.
fn by_itself(letter: u8) -> Option<ProofNode>
    ensures { result ≡ at_letter letter letters }
{
    match letter {
        b't' => Some(ProofNode::T),
        b'r' => Some(ProofNode::R),
        b'v' => Some(ProofNode::V),
        b'a' => Some(ProofNode::A),
        b'p' => Some(ProofNode::P),
        b'!' => Some(ProofNode::Bang),
        _ => None,
    }
}

// The node that a letter is with the number that the digits write.
fn with_number(letter: u8, digits: &[u8]) -> Option<ProofNode>
    ensures { result ≡ lines.node_of (letter ∷ 32 ∷ digits.now) }
{
    match number_of(digits) {
        Some(number) => numbered(letter, number),
        None => None,
    }
}

// The node that a letter is with a number.
fn numbered(letter: u8, number: u32) -> Option<ProofNode>
    ensures { result ≡ at_letter letter (numbered_letters number) }
{
    match letter {
        b'y' => Some(ProofNode::Y(number)),
        b'n' => Some(ProofNode::N(number)),
        b'c' => Some(ProofNode::C(number)),
        b'b' => Some(ProofNode::B(number)),
        b'o' => Some(ProofNode::O(number)),
        _ => None,
    }
}

// The number that digits write, if it has no leading zero and fits 32 bits.
fn number_of(digits: &[u8]) -> Option<u32>
    ensures { result ≡ lines.number_of digits.now }
{
    if !is_numeral(digits) {
        return None;
    }
    match u32::try_from(value_of(digits)) {
        Ok(number) => Some(number),
        Err(_) => None,
    }
}

// Whether the text is one to ten digits without a leading zero.
fn is_numeral(text: &[u8]) -> bool
    ensures same { result ≡ lines.is_numeral text.now }
    ensures short { IsTrue result → length text.now ≤ 10 }
    ensures digits { IsTrue result → IsTrue (list_all tests_digit text.now) }
{
    if !are_digits(text) || text.len() > MOST_DIGITS {
        return false;
    }
    match text.split_first() {
        Some((first, rest)) => rest.is_empty() || *first != b'0',
        None => false,
    }
}

fn are_digits(text: &[u8]) -> bool
    ensures { result ≡ list_all tests_digit text.now }
{
    text.iter().all(|byte| is_digit(*byte))
}

// The number that at most ten digits write.
fn value_of(digits: &[u8]) -> u64
    requires digits { IsTrue (list_all tests_digit digits.now) }
    requires short { length digits.now ≤ 10 }
    ensures value { result ≡ value digits.now }
{
    let mut value = 0;
    for digit in digits {
        value = value * 10 + u64::from(*digit - b'0');
    }
    value
}
