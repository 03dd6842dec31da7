//! Digests and digits: of FIPS 180's examples and by hand.

use crate::same::{same, same_of};
use base_text::{Sum, decimal, read_decimal, text_of};
use std::test::Fail;

const SUMS: &[(&str, &str)] = &[
    ("", "da39a3ee5e6b4b0d3255bfef95601890afd80709"),
    ("abc", "a9993e364706816aba3e25717850c26c9cd0d89d"),
];

#[test]
fn sums(rt: HostRuntime) -> Result<(), Fail> {
    for &(text, digits) in SUMS {
        let sum = Sum::of(text.as_bytes());
        same_of(&rt, text, sum.hex(rt.alloc())?.as_str(), digits);
        same_of(&rt, text, Sum::read(digits.as_bytes()), Some(sum));
    }
    Ok(())
}

const NO_SUMS: &[&str] = &[
    "A9993E364706816ABA3E25717850C26C9CD0D89D",
    "a9993e364706816aba3e25717850c26c9cd0d8",
    "a9993e364706816aba3e25717850c26c9cd0d89d00",
    "a9993e364706816aba3e25717850c26c9cd0d89g",
    "",
];

#[test]
fn refuses_other_sums(rt: HostRuntime) {
    for &text in NO_SUMS {
        same_of(&rt, text, Sum::read(text.as_bytes()), None);
    }
}

const DIGITS: &[(&str, Option<u64>)] = &[
    ("0", Some(0)),
    ("7", Some(7)),
    ("18446744073709551615", Some(u64::MAX)),
    ("18446744073709551616", None),
    ("007", None),
    ("00", None),
    ("+7", None),
    ("-7", None),
    ("7 ", None),
    ("", None),
];

#[test]
fn reads_digits(rt: HostRuntime) {
    for &(text, number) in DIGITS {
        same_of(&rt, text, read_decimal(text.as_bytes()), number);
    }
}

const NUMBERS: &[(u64, &str)] = &[(0, "0"), (7, "7"), (u64::MAX, "18446744073709551615")];

#[test]
fn writes_digits(rt: HostRuntime) -> Result<(), Fail> {
    for &(number, text) in NUMBERS {
        same(&rt, decimal(rt.alloc(), number)?.as_str(), text);
    }
    Ok(())
}

const BYTES: &[(&[u8], Option<&str>)] = &[
    (b"", Some("")),
    (b"a\xc3\xa9", Some("a\u{e9}")),
    (b"a\xc3", None),
    (b"\xed\xa0\x80", None),
];

#[test]
fn shows_texts(rt: HostRuntime) {
    for &(bytes, text) in BYTES {
        same(&rt, text_of(bytes), text);
    }
}
