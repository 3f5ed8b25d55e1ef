//! What number a text is.

ghost use Rattle.std.specs.Prelude.{◌≡◌, None, Some, option_map};
ghost use Rattle.px_text.specs.Numbers.{Number, Numeral, Reads, Spells, decimal_of, numeral, order, read};

use crate::decimal::Decimal;
use crate::scan::NumberScan;
use std::cmp::Ordering;

/// A text, read as a decimal.
#[derive(Clone, Copy, Debug, PartialEq, Eq)]
pub enum Reading {
    Value(Decimal),
    /// A number with more than 18 digits before or after its point.
    Long,
    NotANumber,
}

impl Decimal {
    ghost use Rattle.px_text.specs.declared.reading.Reading.TheVariants.{NotANumber};
    ghost use Rattle.px_text.specs.Readings.{reading_of};

    /// Reads a whole text. It takes no memory.
    pub fn read(text: &[u8]) -> Reading
        ensures value { result ≡ reading_of (numeral text.now) }
        ensures number { (n : Numeral) → Spells text.now n → result ≡ reading_of (Some n) }
        ensures no_number { ((n : Numeral) → Spells text.now n → ⊥) → result ≡ NotANumber }
    {
        let mut scan = NumberScan::start();
        scan.take(text);
        scan.reading()
    }

    /// How the number that a text is stands to this one, `Less` where the text's is less, or
    /// nothing where the text is no number. Digits count however many there are. It takes no
    /// memory.
    pub fn cmp_text(&self, text: &[u8]) -> Option<Ordering>
        ensures value { result ≡ option_map (λ n. order n (decimal_of self.now)) (read text.now) }
        ensures number { (n : Number) → Reads text.now n →
            result ≡ Some (order n (decimal_of self.now)) }
        ensures no_number { ((n : Number) → Reads text.now n → ⊥) → result ≡ None }
    {
        let mut scan = NumberScan::start();
        scan.take(text);
        scan.cmp(self)
    }
}
