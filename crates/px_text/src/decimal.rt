//! Exact decimals.

ghost use Rattle.std.specs.Prelude.{◌≡◌, ◌<◌, ◌≤◌, ◌^◌, IsTrue, Some, length, unsigned_abs};
ghost use Rattle.std.specs.Cmp.Rules.{comparing};
ghost use Rattle.std.specs.List.{list_all};
ghost use Rattle.std.specs.Ordering.{int_cmp, int_eq};
ghost use Rattle.std.proofs.Common.{rules};
ghost use Rattle.px_text.specs.Names as names;
ghost use Rattle.px_text.specs.Numbers.{signed, units_of, value};

use std::cmp::Ordering;
use std::marker::Model;

/// A whole number of units of 10^-18, of absolute value below 10^36.
#[derive(Clone, Copy, Debug)]
pub struct Decimal {
    units: i128,
}

impl Model for Decimal {
    ghost use Rattle.std.specs.Prelude.{ℤ, ◌<◌, ◌^◌, unsigned_abs};

    ghost Value = { ℤ };

    ghost view = { λ decimal. decimal.units };

    ghost invariant = { λ decimal. unsigned_abs decimal.units < 10 ^ 36 };

    ghost inverse = { λ units. record { units = units } };
}

impl Decimal {
    /// The number of units of 10^-18.
    pub fn units(&self) -> i128
        ensures same { result ≡ self.now }
        ensures bounded { unsigned_abs result < 10 ^ 36 }
    {
        self.units
    }

    /// The number that digits before and after a point write, of which there are at most 18 each.
    pub fn of_digits(is_negative: bool, whole: &[u8], fraction: &[u8]) -> Decimal
        requires whole_digits { IsTrue (list_all names.is_digit whole.now) }
        requires fraction_digits { IsTrue (list_all names.is_digit fraction.now) }
        requires short_whole { length whole.now ≤ 18 }
        requires short_fraction { length fraction.now ≤ 18 }
        ensures { result ≡ units_of is_negative whole.now fraction.now }
    {
        let before = u128::from(value_of(whole));
        let after = u128::from(value_of(fraction)) * 10u128.pow((18 - fraction.len()) as u32);
        Decimal {
            units: signed(is_negative, before * UNITS_OF_ONE + after),
        }
    }

    /// The number of a sign and so many units of 10^-18.
    pub(crate) fn of_units(is_negative: bool, size: u128) -> Decimal
        requires { size < 10 ^ 36 }
        ensures { result ≡ signed is_negative size }
    {
        Decimal {
            units: signed(is_negative, size),
        }
    }
}

impl PartialEq for Decimal {
    ghost eq = { int_eq };

    ghost laws = { Prim.search (comparing, rules) };

    fn eq(&self, other: &Decimal) -> bool {
        self.units == other.units
    }
}

impl Eq for Decimal {
    ghost laws = { Prim.search rules };
}

impl PartialOrd for Decimal {
    ghost partial_cmp = { λ x y. Some (int_cmp x y) };

    ghost laws = { Prim.search (comparing, rules) };

    fn partial_cmp(&self, other: &Decimal) -> Option<Ordering> {
        Some(self.cmp(other))
    }
}

impl Ord for Decimal {
    ghost cmp = { int_cmp };

    ghost total = { Prim.search rules };

    ghost matches_partial_cmp = { Prim.search rules };

    ghost matches_eq = { Prim.search rules };

    fn cmp(&self, other: &Decimal) -> Ordering {
        self.units.cmp(&other.units)
    }
}

/// One as a number of units.
const UNITS_OF_ONE: u128 = 1_000_000_000_000_000_000;

// The number that at most 18 digits write.
fn value_of(digits: &[u8]) -> u64
    requires digits { IsTrue (list_all names.is_digit digits.now) }
    requires short { length digits.now ≤ 18 }
    ensures value { result ≡ value digits.now }
    ensures bounded { result < 10 ^ length digits.now }
{
    let mut value = 0;
    for digit in digits {
        value = value * 10 + u64::from(*digit - b'0');
    }
    value
}

// A number with a sign.
fn signed(is_negative: bool, magnitude: u128) -> i128
    requires { magnitude < 10 ^ 36 }
    ensures value { result ≡ signed is_negative magnitude }
    ensures bounded { unsigned_abs result < 10 ^ 36 }
{
    let number = magnitude as i128;
    if is_negative { -number } else { number }
}
