//! The ids that texts name.

ghost use Rattle.std.specs.Prelude.{◌≡◌, ◌<◌, ◌≤◌, ◌^◌, IsTrue, length};
ghost use Rattle.std.specs.List.{list_all};
ghost use Rattle.px_text.specs.Names.{is_digit as tests_digit};
ghost use Rattle.px_text.specs.Numbers.{value};
ghost use Rattle.px_feed.specs.Outputs.{id_of as named_id, names_id as tests_id};

use px_text::is_digit;

/// The most digits of a text that names an id.
const MOST_DIGITS: usize = 9;

/// The id that a text names. It is `None` exactly where the text is not one to nine ASCII digits.
/// It takes no memory.
pub fn id_of(text: &[u8]) -> Option<u32>
    ensures id { result ≡ named_id text.now }
{
    if names_id(text) {
        return Some(value_of(text));
    }
    None
}

// Whether the text is one to nine digits.
fn names_id(text: &[u8]) -> bool
    ensures same { result ≡ tests_id text.now }
    ensures short { IsTrue result → length text.now ≤ 9 }
    ensures digits { IsTrue result → IsTrue (list_all tests_digit text.now) }
{
    if text.is_empty() || text.len() > MOST_DIGITS {
        return false;
    }
    are_digits(text)
}

fn are_digits(text: &[u8]) -> bool
    ensures { result ≡ list_all tests_digit text.now }
{
    text.iter().all(|byte| is_digit(*byte))
}

// The number that at most nine digits write.
fn value_of(digits: &[u8]) -> u32
    requires digits { IsTrue (list_all tests_digit digits.now) }
    requires short { length digits.now ≤ 9 }
    ensures value { result ≡ value digits.now }
    ensures bounded { result < 10 ^ length digits.now }
{
    let mut value = 0;
    for digit in digits {
        value = value * 10 + u32::from(*digit - b'0');
    }
    value
}
