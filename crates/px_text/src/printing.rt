//! A decimal as text.

ghost use Rattle.std.specs.Prelude.{◌≡◌, ◌∷◌, [], ◌<◌, ◌+◌, ◌≤◌, ◌^◌, ◌++◌, ◌==◌, is_ok, if◌then◌else◌, length, vec_capacity, vec_len};
ghost use Rattle.px_text.specs.Printing.{digits_text, fraction_text, printed, whole_text};

use crate::decimal::Decimal;
use crate::digit_runs::ONE;
use std::alloc::AllocError;

/// The most bytes that a decimal is printed with: a sign, a point and 18 digits on either side.
const MOST_BYTES: usize = 38;

impl Decimal {
    /// Appends the decimal as it is printed. It fails only for want of memory, and then the vector
    /// is unchanged.
    pub fn write(&self, out: &mut Vec<u8>) -> Result<(), AllocError>
        ensures items { out.new.items ≡ (if is_ok result then out.old.items ++
            printed self.now else out.old.items) }
    {
        out.reserve(MOST_BYTES)?;
        let units = self.units();
        let size = units.unsigned_abs();
        if units < 0 {
            push_within(b'-', out);
        }
        push_whole((size / u128::from(ONE)) as u64, out);
        push_fraction((size % u128::from(ONE)) as u64, out);
        Ok(())
    }
}

// Appends a byte where there is room.
fn push_within(byte: u8, out: &mut Vec<u8>)
    requires room { vec_len out.old < vec_capacity out.old }
    ensures items { out.new.items ≡ out.old.items ++ byte ∷ [] }
    ensures len { vec_len out.new ≡ vec_len out.old + 1 }
    ensures capacity { vec_capacity out.old ≤ vec_capacity out.new }
{
    let _ = out.push(byte);
}

// Appends the digits before the point.
fn push_whole(whole: u64, out: &mut Vec<u8>)
    requires below { whole < 10 ^ 18 }
    requires room { vec_len out.old + 18 ≤ vec_capacity out.old }
    ensures items { out.new.items ≡ out.old.items ++ whole_text whole }
    ensures len { vec_len out.new ≤ vec_len out.old + 18 }
    ensures capacity { vec_capacity out.old ≤ vec_capacity out.new }
{
    if whole == 0 {
        push_within(b'0', out);
    } else {
        push_digits(whole, out);
    }
}

// Appends the digits of a number, the last one last; none for 0.
fn push_digits(number: u64, out: &mut Vec<u8>)
    requires room { vec_len out.old + length (digits_text number) ≤ vec_capacity out.old }
    ensures items { out.new.items ≡ out.old.items ++ digits_text number }
    ensures len { vec_len out.new ≡ vec_len out.old + length (digits_text number) }
    ensures capacity { vec_capacity out.old ≤ vec_capacity out.new }
{
    if number > 0 {
        push_digits(number / 10, out);
        push_within(b'0' + (number % 10) as u8, out);
    }
}

// Appends a point and the digits after it, where there is a fraction.
fn push_fraction(fraction: u64, out: &mut Vec<u8>)
    requires below { fraction < 10 ^ 18 }
    requires room { vec_len out.old + 19 ≤ vec_capacity out.old }
    ensures items { out.new.items ≡ out.old.items ++
        (if fraction == 0 then [] else 46 ∷ fraction_text 18 fraction) }
{
    if fraction > 0 {
        push_within(b'.', out);
        push_places(fraction, out);
    }
}

// Appends the digits of eighteen places, up to the last that is not 0.
fn push_places(fraction: u64, out: &mut Vec<u8>)
    requires below { fraction < 10 ^ 18 }
    requires room { vec_len out.old + 18 ≤ vec_capacity out.old }
    ensures items { out.new.items ≡ out.old.items ++ fraction_text 18 fraction }
{
    let mut rest = fraction;
    let mut places: u32 = 18;
    while rest > 0 {
        places -= 1;
        let unit = 10u64.pow(places);
        push_within(b'0' + (rest / unit) as u8, out);
        rest %= unit;
    }
}
