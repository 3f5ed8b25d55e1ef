//! Bytes, sets, escapes, names and decimals.

ghost use Rattle.std.specs.Prelude.{◌<◌};

use px_text::{Bytes, Decimal, NumberScan, Reading, Set, is_filter_name, is_pyx_name, unescape};
use std::alloc::{AllocError, Global};
use std::cmp::Ordering;
use std::test::Fail;

#[test]
fn orders_bytes_as_texts(rt: HostRuntime) -> Result<(), Fail> {
    let short = Bytes::of(rt.alloc(), b"ab")?;
    let long = Bytes::of(rt.alloc(), b"abc")?;
    assert_eq!(rt; short.cmp(&long), Ordering::Less);
    assert_eq!(rt; long.clone()?, long);
    Ok(())
}

#[test]
fn reads_escapes_behind_what_is_there(rt: HostRuntime) -> Result<(), Fail> {
    let mut out = Vec::from_slice(rt.alloc(), b"<")?;
    unescape(b"x\\ty\\n\\\\r\\r\\q\\", &mut out)?;
    assert_eq!(rt; out.as_slice(), b"<x\ty\n\\r\r\\q\\".as_slice());
    Ok(())
}

#[test]
fn tells_names(rt: HostRuntime) {
    let rows = [
        ("a", true, true),
        ("é", true, true),
        ("_a.b-c1", true, true),
        ("a:b", true, true),
        ("a:b:c", true, false),
        ("a:", true, false),
        (":a", true, false),
        ("a:1", true, false),
        ("1a", false, false),
        ("-a", false, false),
        ("a b", false, false),
        ("", false, false),
    ];
    for (text, in_document, in_filter) in rows {
        assert_eq!(rt; is_pyx_name(text.as_bytes()), in_document, "at {text}");
        assert_eq!(rt; is_filter_name(text.as_bytes()), in_filter, "at {text}");
    }
}

#[test]
fn compares_texts_with_a_tenth(rt: HostRuntime) {
    let tenth = Decimal::of_digits(false, b"", b"1");
    let rows = [
        (" 0.100 ", Some(Ordering::Equal)),
        (".1", Some(Ordering::Equal)),
        ("\t\r\n0.1", Some(Ordering::Equal)),
        ("+0.1", None),
        ("0.099999999999999999999", Some(Ordering::Less)),
        ("0.1000000000000000000001", Some(Ordering::Greater)),
        ("9", Some(Ordering::Greater)),
        ("-9", Some(Ordering::Less)),
        (".", None),
        ("", None),
        ("0. 1", None),
        ("- 1", None),
        ("1e1", None),
    ];
    for (text, order) in rows {
        assert_eq!(rt; tenth.cmp_text(text.as_bytes()), order, "at {text}");
    }
}

#[test]
fn compares_texts_with_zero_and_large_decimals(rt: HostRuntime) {
    let zero = Decimal::of_digits(false, b"0", b"");
    assert_eq!(rt; zero.cmp_text(b"-0"), Some(Ordering::Equal));
    assert_eq!(rt;
        zero.cmp_text(b"-.0000000000000000000000001"),
        Some(Ordering::Less)
    );
    let nines = Decimal::of_digits(false, b"999999999999999999", b"");
    assert_eq!(rt;
        nines.cmp_text(b"1000000000000000000000000000000000000000"),
        Some(Ordering::Greater)
    );
}

#[test]
fn reads_short_numbers(rt: HostRuntime) {
    let five = Decimal::of_digits(false, b"5", b"");
    assert_eq!(rt; Decimal::read(b" 5. "), Reading::Value(five));
    assert_eq!(rt; Decimal::read(b"000000000000000005"), Reading::Value(five));
    assert_eq!(rt; Decimal::read(b"0000000000000000005"), Reading::Long);
    assert_eq!(rt; Decimal::read(b"5.0000000000000000000"), Reading::Long);
    assert_eq!(rt; Decimal::read(b"5,0"), Reading::NotANumber);
}

#[test]
fn prints_what_it_read(rt: HostRuntime) -> Result<(), Fail> {
    let rows = [
        ("-0.50", "-0.5"),
        (".50", "0.5"),
        ("-0", "0"),
        ("5.", "5"),
        ("-0070", "-70"),
        ("0.000000000000000001", "0.000000000000000001"),
        (
            "999999999999999999.999999999999999999",
            "999999999999999999.999999999999999999",
        ),
    ];
    for (text, printed) in rows {
        let mut out = Vec::new(rt.alloc());
        if let Reading::Value(decimal) = Decimal::read(text.as_bytes()) {
            decimal.write(&mut out)?;
        }
        assert_eq!(rt; out.as_slice(), printed.as_bytes(), "at {text}");
    }
    Ok(())
}

// A one among zeros: so many before it, behind it, and between the point and a last digit.
fn one_among_zeros(
    alloc: Global,
    before: usize,
    behind: usize,
    places: usize,
    last: u8,
) -> Result<Vec<u8>, AllocError> {
    let mut text = Vec::new(alloc);
    for _ in 0..before {
        text.push(b'0')?;
    }
    text.push(b'1')?;
    for _ in 0..behind {
        text.push(b'0')?;
    }
    text.push(b'.')?;
    for _ in 0..places {
        text.push(b'0')?;
    }
    text.push(last)?;
    Ok(text)
}

fn scan_in_pieces(text: &[u8], size: usize) -> NumberScan
    requires { 0 < size }
{
    let mut scan = NumberScan::start();
    for piece in text.chunks(size) {
        scan.take(piece);
    }
    scan
}

#[test]
fn compares_any_number_of_digits_in_any_pieces(rt: HostRuntime) -> Result<(), Fail> {
    let one = Decimal::of_digits(false, b"1", b"");
    let most = Decimal::of_digits(false, b"999999999999999999", b"999999999999999999");
    for whole in [0, 17, 18, 39, 99_999] {
        let against_most = if whole < 18 {
            Ordering::Less
        } else {
            Ordering::Greater
        };
        for fraction in [0, 17, 18, 39, 99_999] {
            let equal = one_among_zeros(rt.alloc(), whole, 0, fraction, b'0')?;
            let above = one_among_zeros(rt.alloc(), whole, 0, fraction, b'1')?;
            let large = one_among_zeros(rt.alloc(), 0, whole, fraction, b'0')?;
            for size in [1, 7, 4_096] {
                assert_eq!(rt;
                    scan_in_pieces(&equal, size).cmp(&one),
                    Some(Ordering::Equal),
                    "{whole} {fraction} {size}"
                );
                assert_eq!(rt;
                    scan_in_pieces(&above, size).cmp(&one),
                    Some(Ordering::Greater),
                    "{whole} {fraction} {size}"
                );
                assert_eq!(rt;
                    scan_in_pieces(&large, size).cmp(&most),
                    Some(against_most),
                    "{whole} {fraction} {size}"
                );
            }
        }
    }
    Ok(())
}

#[test]
fn has_its_numbers_and_no_others(rt: HostRuntime) -> Result<(), Fail> {
    let set = Set::of(rt.alloc(), &[3, 5, 1_048_575])?;
    assert!(rt; set.has(5));
    assert!(rt; !set.has(4));
    assert_eq!(rt; set.clone()?, set);
    Ok(())
}
