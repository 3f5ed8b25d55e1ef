//! Reading the text of a filter.

ghost use Rattle.std.specs.Prelude.{◌≡◌, MatchResult};
ghost use Rattle.px_xpath.specs.Faults.{IsText};
ghost use Rattle.px_xpath.specs.Parses.{IsRefused, fault_of, place_of};
ghost use Rattle.px_xpath.specs.TokenViews.{all_placed};
ghost use Rattle.px_xpath.specs.Whole.{filter};

use crate::descent::{Reason, Stop, filter_path};
use crate::fault::{FilterFault, ParseFault};
use crate::filter::Filter;
use crate::token::Placed;
use crate::tokenizer::tokens_of;
use std::alloc::Global;

/// How many bytes the text of a filter may have.
const MOST_BYTES: usize = 4096;

/// The filter that a text writes. A text that writes none is refused for the first fault in it;
/// want of memory is an error of its own. Nothing stays behind an error.
pub fn parse(alloc: Global, text: &[u8]) -> Result<Filter, ParseFault>
    ensures { MatchResult result (λ found. IsText text.now (filter found))
        (λ fault. IsRefused text.now fault) }
{
    if text.len() > MOST_BYTES {
        return Err(ParseFault::Filter(FilterFault::TooLong));
    }
    let tokens = tokens_of(alloc, text)?;
    match filter_path(alloc, tokens.as_slice()) {
        Ok(path) => Ok(Filter::of(alloc, path)?),
        Err(stop) => Err(refusal(text.len() as u32, stop)),
    }
}

// The place of the first of these tokens, or the text's end where there is none.
fn place(end: u32, tokens: &[Placed<'_>]) -> u32
    ensures { result ≡ place_of end (all_placed tokens.now) }
{
    match tokens.first() {
        Some(first) => first.at,
        None => end,
    }
}

// The fault of a text that stops the parse so.
fn refusal(end: u32, stop: Stop<'_>) -> ParseFault
    ensures { result ≡ fault_of end stop.entry }
{
    match stop {
        Stop::Memory => ParseFault::Memory,
        Stop::At(reason, rest) => {
            let at = place(end, rest);
            ParseFault::Filter(match reason {
                Reason::NotAFilter => FilterFault::NotAFilter { at },
                Reason::TooNested => FilterFault::TooNested { at },
                Reason::NumberLong => FilterFault::NumberLong { at },
            })
        }
    }
}
