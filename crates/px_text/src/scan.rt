//! The number that a text is, which comes in pieces.

ghost use Rattle.std.specs.Prelude.{◌≡◌, ◌∷◌, [], ◌<◌, ◌+◌, ◌-◌, ◌*◌, ◌^◌, ◌++◌, None, Some, List, ℕ, true, length, if◌then◌else◌, int_lt, option_map, pos};
ghost use Rattle.std.specs.List.{list_all};
ghost use Rattle.std.specs.Ordering.{nat_cmp, ordering_reverse};
ghost use Rattle.std.specs.declared.cmp.Ordering.TheVariants.{Less, Greater};
ghost use Rattle.px_text.specs.Names.{is_digit};
ghost use Rattle.px_text.specs.Numbers.{decimal_of, numeral, order, read, value};
ghost use Rattle.px_text.specs.declared.scan.Stage.TheVariants.{Before, InWhole, InFraction, Behind};

use crate::decimal::Decimal;
use crate::digit_runs::{FractionDigits, ONE, PLACES, WholeDigits};
use crate::names::{is_digit, is_white};
use crate::reading::Reading;
use std::cmp::Ordering;

/// How far a text is that may be a number.
#[derive(Clone, Copy, Debug)]
enum Stage {
    /// All so far is white space.
    Before,
    /// Behind the sign or a digit before the point.
    InWhole,
    /// Behind the point.
    InFraction,
    /// In white space behind the digits.
    Behind,
    NotANumber,
}

/// Reads a text in pieces as a number. It keeps of the digits what matters beside a decimal,
/// however many they are.
#[derive(Clone, Copy, Debug)]
pub struct NumberScan {
    stage: Stage,
    is_negative: bool,
    whole: WholeDigits,
    fraction: FractionDigits,
}

impl NumberScan {
    ghost use Rattle.px_text.specs.Readings.{reading_of};
    ghost use Rattle.px_text.specs.Scans.{IsWhole, IsFraction, HasTaken, numeral_of};

    /// A scan that has taken nothing.
    pub fn start() -> NumberScan
        ensures { HasTaken result [] }
    {
        NumberScan {
            stage: Stage::Before,
            is_negative: false,
            whole: WholeDigits::none(),
            fraction: FractionDigits::none(),
        }
    }

    /// Takes the next piece of the text.
    pub fn take(&mut self, piece: &[u8])
        ensures { (text : List ℕ) → HasTaken self.old text → HasTaken self.new (text ++ piece.now) }
    {
        for byte in piece {
            if let Stage::NotANumber = self.stage {
                return;
            }
            self.take_byte(*byte);
        }
    }

    /// How the number that the text is stands to a decimal, or nothing where the text is no number.
    pub fn cmp(&self, decimal: &Decimal) -> Option<Ordering>
        ensures { (text : List ℕ) → HasTaken self.now text →
            result ≡ option_map (λ n. order n (decimal_of decimal.now)) (read text) }
    {
        if !self.is_number() {
            return None;
        }
        let units = decimal.units();
        let size = self.cmp_size(units.unsigned_abs());
        Some(with_signs(self.is_negative, units, size))
    }

    /// Whether the text is a number.
    pub(crate) fn is_number(&self) -> bool
        ensures { (text : List ℕ) → (h : HasTaken self.now text) →
            numeral text ≡ (if result then Some (numeral_of self.now h.whole h.fraction) else
            None) }
    {
        match self.stage {
            Stage::Before | Stage::NotANumber => false,
            Stage::InWhole | Stage::InFraction | Stage::Behind => self.whole.count > 0
                || self.fraction.count > 0,
        }
    }

    /// The decimal that the text is, if it is one.
    pub(crate) fn reading(&self) -> Reading
        ensures { (text : List ℕ) → HasTaken self.now text → result ≡ reading_of (numeral text) }
    {
        if !self.is_number() {
            return Reading::NotANumber;
        }
        if self.whole.count > PLACES {
            return Reading::Long;
        }
        if self.fraction.count > PLACES {
            return Reading::Long;
        }
        Reading::Value(Decimal::of_units(self.is_negative, self.size()))
    }

    // How the digits stand to a size in units of 10^-18.
    fn cmp_size(&self, size: u128) -> Ordering
        requires { size < 10 ^ 36 }
        ensures { (whole fraction : List ℕ) → IsWhole self.now.whole whole →
            IsFraction self.now.fraction fraction → list_all is_digit fraction ≡ true →
            result ≡ nat_cmp (value (whole ++ fraction) * 10 ^ 18) (size * 10 ^ length fraction) }
    {
        let below = if self.fraction.goes_below {
            Ordering::Greater
        } else {
            Ordering::Equal
        };
        self.size().cmp(&size).then(below)
    }

    // What is kept of the digits, in units of 10^-18.
    fn size(&self) -> u128
        ensures value { result ≡ self.now.whole.value * 10 ^ 18 + self.now.fraction.value * 10 ^
            (18 - self.now.fraction.count) }
        ensures bounded { result < (self.now.whole.value + 1) * 10 ^ 18 }
    {
        let missing = u32::from(PLACES.saturating_sub(self.fraction.count));
        u128::from(self.whole.value) * u128::from(ONE)
            + u128::from(self.fraction.value) * 10u128.pow(missing)
    }

    fn take_byte(&mut self, byte: u8)
        ensures { (text : List ℕ) → HasTaken self.old text → HasTaken self.new (text ++ byte ∷ []) }
    {
        match self.stage {
            Stage::Before => self.take_first(byte),
            Stage::InWhole => self.take_in_whole(byte),
            Stage::InFraction => self.take_in_fraction(byte),
            Stage::Behind => self.take_behind(byte),
            Stage::NotANumber => {}
        }
    }

    // White space before a number, or its first byte.
    fn take_first(&mut self, byte: u8)
        requires { self.old.stage ≡ Before }
        ensures { (text : List ℕ) → HasTaken self.old text → HasTaken self.new (text ++ byte ∷ []) }
    {
        if is_digit(byte) {
            self.stage = Stage::InWhole;
            self.whole = self.whole.and(byte);
        } else if byte == b'-' {
            self.stage = Stage::InWhole;
            self.is_negative = true;
        } else if byte == b'.' {
            self.stage = Stage::InFraction;
        } else if !is_white(byte) {
            self.stage = Stage::NotANumber;
        }
    }

    fn take_in_whole(&mut self, byte: u8)
        requires { self.old.stage ≡ InWhole }
        ensures { (text : List ℕ) → HasTaken self.old text → HasTaken self.new (text ++ byte ∷ []) }
    {
        if is_digit(byte) {
            self.whole = self.whole.and(byte);
        } else if byte == b'.' {
            self.stage = Stage::InFraction;
        } else if is_white(byte) {
            self.stage = Stage::Behind;
        } else {
            self.stage = Stage::NotANumber;
        }
    }

    fn take_in_fraction(&mut self, byte: u8)
        requires { self.old.stage ≡ InFraction }
        ensures { (text : List ℕ) → HasTaken self.old text → HasTaken self.new (text ++ byte ∷ []) }
    {
        if is_digit(byte) {
            self.fraction = self.fraction.and(byte);
        } else if is_white(byte) {
            self.stage = Stage::Behind;
        } else {
            self.stage = Stage::NotANumber;
        }
    }

    fn take_behind(&mut self, byte: u8)
        requires { self.old.stage ≡ Behind }
        ensures { (text : List ℕ) → HasTaken self.old text → HasTaken self.new (text ++ byte ∷ []) }
    {
        if !is_white(byte) {
            self.stage = Stage::NotANumber;
        }
    }
}

// How a number stands to a decimal, by its sign, the decimal's, and how its size stands to the
// decimal's.
fn with_signs(is_negative: bool, units: i128, size: Ordering) -> Ordering
    ensures { result ≡ (if is_negative then
        (if int_lt (pos 0) units then Less else ordering_reverse size) else
        (if int_lt units (pos 0) then Greater else size)) }
{
    if is_negative {
        if units > 0 {
            Ordering::Less
        } else {
            size.reverse()
        }
    } else {
        if units < 0 { Ordering::Greater } else { size }
    }
}
