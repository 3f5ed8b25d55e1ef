//! What matters of the digits before and after a point, however many there are, beside a decimal.

ghost use Rattle.std.specs.Prelude.{IsTrue, ◌∷◌, [], ◌<◌, ◌≤◌, ◌++◌, ◌^◌, List, ℕ};
ghost use Rattle.px_text.specs.Names.{is_digit};

/// Ten to the power of the most digits that a decimal has on either side of its point.
pub(crate) const ONE: u64 = 1_000_000_000_000_000_000;

/// The most digits that a decimal has on either side of its point.
pub(crate) const PLACES: u8 = 18;

/// The digits before a point: their value, cut to 10^18, and their number, cut to 19.
#[derive(Clone, Copy, Debug)]
pub(crate) struct WholeDigits {
    pub(crate) value: u64,
    pub(crate) count: u8,
    pub(crate) ghost capped: { value ≤ 10 ^ 18 },
    pub(crate) ghost bounded: { value < 10 ^ count },
}

/// The digits after a point: the value of the first 18, their number, cut to 19, and whether one
/// behind the first 18 is not 0.
#[derive(Clone, Copy, Debug)]
pub(crate) struct FractionDigits {
    pub(crate) value: u64,
    pub(crate) count: u8,
    pub(crate) goes_below: bool,
    pub(crate) ghost capped: { value < 10 ^ 18 },
    pub(crate) ghost bounded: { value < 10 ^ count },
}

impl WholeDigits {
    ghost use Rattle.px_text.specs.Scans.{IsWhole};

    pub(crate) fn none() -> WholeDigits
        ensures { IsWhole result [] }
    {
        WholeDigits { value: 0, count: 0 }
    }

    /// These digits and one more.
    pub(crate) fn and(self, digit: u8) -> WholeDigits
        requires { IsTrue (is_digit digit) }
        ensures { (digits : List ℕ) → IsWhole self digits → IsWhole result (digits ++ digit ∷ []) }
    {
        let value = self.value * 10 + u64::from(digit - b'0');
        WholeDigits {
            value: value.min(ONE),
            count: self.count.saturating_add(1).min(PLACES + 1),
        }
    }
}

impl FractionDigits {
    ghost use Rattle.px_text.specs.Scans.{IsFraction};

    pub(crate) fn none() -> FractionDigits
        ensures { IsFraction result [] }
    {
        FractionDigits {
            value: 0,
            count: 0,
            goes_below: false,
        }
    }

    /// These digits and one more.
    pub(crate) fn and(self, digit: u8) -> FractionDigits
        requires { IsTrue (is_digit digit) }
        ensures { (digits : List ℕ) → IsFraction self digits →
            IsFraction result (digits ++ digit ∷ []) }
    {
        if self.count < PLACES {
            return FractionDigits {
                value: self.value * 10 + u64::from(digit - b'0'),
                count: self.count + 1,
                goes_below: self.goes_below,
            };
        }
        FractionDigits {
            value: self.value,
            count: PLACES + 1,
            goes_below: self.goes_below | (digit != b'0'),
        }
    }
}
