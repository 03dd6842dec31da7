//! Whole numbers, sizes and times.

ghost use Rattle.std.specs.Prelude.{◌≡◌, ◌≤◌, ◌<◌, ◌^◌, not, unwrap_or, position, length, take, drop, IfSome};
ghost use Rattle.options_table.specs.Amounts.{is_digit, digits_end, value_from, no_more_than, is_letter, is_byte_end, power, size_unit, time_unit, unit, within, scaled, amount};

#[derive(Clone, Copy)]
pub(crate) enum Units {
    Plain,
    Sizes,
    Times,
}

fn is_digit(b: u8) -> bool
    ensures { result ≡ is_digit b }
{
    48 <= b && b <= 57
}

fn first_other(text: &[u8]) -> Option<usize>
    ensures value { result ≡ position (λ b. not (is_digit b)) text.now }
    ensures bound { IfSome result (λ i. i ≤ length text.now) }
{
    text.iter().position(|b| !is_digit(*b))
}

fn digits_end(text: &[u8]) -> usize
    ensures value { result ≡ digits_end text.now }
    ensures bound { result ≤ length text.now }
{
    match first_other(text) {
        Some(place) => place,
        None => text.len(),
    }
}

// The number, where it isn't above 2^64 - 1.
fn value_of(digits: &[u8]) -> Option<u64>
    ensures { result ≡ no_more_than 18446744073709551615 (value_from 0 digits.now) }
{
    let mut n: u64 = 0;
    for d in digits {
        let next = u128::from(n) * 10 + u128::from(d.saturating_sub(48));
        if next > 18446744073709551615 {
            return None;
        }
        n = next as u64;
    }
    Some(n)
}

fn is_letter(upper: u8, lower: u8, b: u8) -> bool
    ensures { result ≡ is_letter upper lower b }
{
    b == upper || b == lower
}

fn is_byte_end(text: &[u8]) -> bool
    ensures { result ≡ is_byte_end text.now }
{
    match text {
        [] => true,
        [b] => is_letter(66, 98, *b),
        [i, b] => is_letter(73, 105, *i) && is_letter(66, 98, *b),
        _ => false,
    }
}

fn power(b: u8) -> Option<u64>
    ensures value { result ≡ power b }
    ensures factor { IfSome result (λ f. (0 < f) × (f < 2 ^ 32)) }
{
    if is_letter(75, 107, b) {
        return Some(1024);
    }
    if is_letter(77, 109, b) {
        return Some(1048576);
    }
    if is_letter(71, 103, b) {
        return Some(1073741824);
    }
    None
}

fn size_unit(text: &[u8]) -> Option<u64>
    ensures value { result ≡ size_unit text.now }
    ensures factor { IfSome result (λ f. (0 < f) × (f < 2 ^ 32)) }
{
    match text {
        [] => Some(1),
        [b] => if is_letter(66, 98, *b) {
            Some(1)
        } else {
            power(*b)
        },
        [b, end @ ..] => if is_byte_end(end) { power(*b) } else { None },
    }
}

fn time_unit(text: &[u8]) -> Option<u64>
    ensures value { result ≡ time_unit text.now }
    ensures factor { IfSome result (λ f. (0 < f) × (f < 2 ^ 32)) }
{
    match text {
        [] => Some(1),
        [b's'] => Some(1),
        [b'm'] => Some(60),
        [b'h'] => Some(3600),
        [b'd'] => Some(86400),
        _ => None,
    }
}

fn unit(units: Units, text: &[u8]) -> Option<u64>
    ensures value { result ≡ unit units text.now }
    ensures factor { IfSome result (λ f. (0 < f) × (f < 2 ^ 32)) }
{
    match units {
        Units::Plain => if text.is_empty() { Some(1) } else { None },
        Units::Sizes => size_unit(text),
        Units::Times => time_unit(text),
    }
}

fn scaled(digits: &[u8], least: u64, most: u64, factor: u64) -> Option<u64>
    requires positive { 0 < factor }
    requires small { factor < 2 ^ 32 }
    ensures value { result ≡ scaled digits.now least most factor }
    ensures bound { IfSome result (λ n. n ≤ most) }
{
    if digits.is_empty() {
        return None;
    }
    let n = value_of(digits)?;
    let product = u128::from(n) * u128::from(factor);
    if u128::from(least) <= product && product <= u128::from(most) {
        Some(product as u64)
    } else {
        None
    }
}

#[tactic(auto, unfolding(crate::specs::Amounts::amount))]
pub(crate) fn amount(units: Units, least: u64, most: u64, text: &[u8]) -> Option<u64>
    ensures value { result ≡ amount units least most text.now }
    ensures bound { IfSome result (λ n. n ≤ most) }
{
    let (digits, rest) = text.split_at(digits_end(text));
    let factor = unit(units, rest)?;
    scaled(digits, least, most, factor)
}
