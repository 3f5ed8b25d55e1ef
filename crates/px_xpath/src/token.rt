//! The tokens that a filter's text is made of.

ghost use Rattle.std.specs.Prelude.{IsTrue};
ghost use Rattle.std.specs.List.{list_all};
ghost use Rattle.px_text.specs.Names as names;

use crate::filter::Relation;

/// The digits of a number, before its point and behind it.
#[derive(Clone, Copy, Drop)]
pub struct Numeral<'a> {
    pub whole: &'a [u8],
    pub fraction: &'a [u8],
    ghost whole_digits: { IsTrue (list_all names.is_digit whole.now) },
    ghost fraction_digits: { IsTrue (list_all names.is_digit fraction.now) },
}

/// A token, with what it takes from the text.
#[derive(Clone, Copy, Drop)]
pub enum Token<'a> {
    Slash,
    Slashes,
    OpenSquare,
    CloseSquare,
    Open,
    Close,
    At,
    Star,
    Dot,
    Minus,
    Related(Relation),
    Quoted(&'a [u8]),
    Numeric(Numeral<'a>),
    NameTest(&'a [u8]),
    AndWord,
    OrWord,
    NotWord,
    TextWord,
    /// What no filter has.
    Strange,
}

/// A token and the number of its bytes.
#[derive(Clone, Copy, Drop)]
pub struct Sized<'a> {
    pub token: Token<'a>,
    pub bytes: usize,
}

/// A token and the place of its first byte.
#[derive(Clone, Copy, Drop)]
pub struct Placed<'a> {
    pub at: u32,
    pub token: Token<'a>,
}
