// Reads seconds from their digits.
ghost use Rattle.std.specs.Prelude.{◌≡◌, ◌≢◌, ℕ, List, ◌+◌, ◌<◌, ◌≤◌, ◌∷◌, ◌++◌, ◌≤ℤ◌, IfSome, IfNone, pos};
ghost use Rattle.jiff_core.specs.declared.civil.date.Date.{Date};
ghost use Rattle.jiff_core.specs.Calendar.{IsCivilDate};
ghost use Rattle.jiff_core.specs.Date.{epoch_day};
ghost use Rattle.base_devices.specs.States.{last_second};
ghost use Rattle.base_model.specs.Dates.{two, date_digits, clock_digits, date_after, stamp};
ghost use Rattle.base_model.specs.Text.{Text};
ghost use Rattle.repo_names.specs.Calendar.{year_before, day_digits};

use jiff_core::civil::Date;

// A digit in front, and what follows it.
fn split_digit(text: &[u8]) -> Option<(u8, &[u8])>
    ensures value { IfSome result (λ p. (p.0 < 10) × (text.now ≡ (48 + p.0) ∷ p.1.now)) }
    ensures none { IfNone result ((n : ℕ) (rest : List ℕ) → n < 10 → text.now ≢ (48 + n) ∷ rest) }
{
    let [first, rest @ ..] = text else {
        return None;
    };
    match *first {
        b'0'..=b'9' => Some((*first - b'0', rest)),
        _ => None,
    }
}

// Two digits in front, and what follows them.
fn split_two(text: &[u8]) -> Option<(u8, &[u8])>
    ensures value { IfSome result (λ p. (p.0 < 100) × (text.now ≡ two p.0 ++ p.1.now)) }
    ensures none { IfNone result ((n : ℕ) (rest : List ℕ) → n < 100 → text.now ≢ two n ++ rest) }
{
    let (tens, rest) = split_digit(text)?;
    let (units, rest) = split_digit(rest)?;
    Some((tens * 10 + units, rest))
}

/// What follows this byte.
pub(crate) fn after(text: &[u8], byte: u8) -> Option<&[u8]>
    ensures value { IfSome result (λ rest. text.now ≡ byte ∷ rest.now) }
    ensures none { IfNone result ((rest : List ℕ) → text.now ≢ byte ∷ rest) }
{
    let [first, rest @ ..] = text else {
        return None;
    };
    if *first == byte { Some(rest) } else { None }
}

// A year in front, and what follows it.
fn split_year(text: &[u8]) -> Option<(u16, &[u8])>
    ensures value { IfSome result (λ p. (p.0 < 10000) × (text.now ≡ year_before p.0 p.1.now)) }
    ensures none { IfNone result ((n : ℕ) (rest : List ℕ) → n < 10000 → text.now ≢ year_before n rest) }
{
    let (century, rest) = split_two(text)?;
    let (year, rest) = split_two(rest)?;
    Some((u16::from(century) * 100 + u16::from(year), rest))
}

// The date of the calendar.
fn civil_date(year: u16, month: u8, day: u8) -> Option<Date>
    requires year { year < 10000 }
    requires month { month < 100 }
    requires day { day < 100 }
    ensures value { IfSome result (λ d. (d.year ≡ pos year) × (d.month ≡ month) × (d.day ≡ day)) }
    ensures none { IfNone result (¬ IsCivilDate (pos year) month day) }
{
    Date::new(year as i16, month as i8, day as i8).ok()
}

// A date in front, and what follows it.
fn split_date(text: &[u8]) -> Option<(Date, &[u8])>
    ensures value { IfSome result (λ p. (pos 0 ≤ℤ p.0.year) × (text.now ≡ day_digits p.0 ++ p.1.now)) }
    ensures none { IfNone result ((d : Date) (rest : List ℕ) → pos 0 ≤ℤ d.year → text.now ≢ day_digits d ++ rest) }
{
    let (year, rest) = split_year(text)?;
    let (month, rest) = split_two(rest)?;
    let (day, rest) = split_two(rest)?;
    let date = civil_date(year, month, day)?;
    Some((date, rest))
}

// The count of days from 1970 to a date.
fn days_to(date: Date) -> Option<u64>
    ensures value { IfSome result (λ n. (n ≤ 2932896) × (epoch_day date ≡ pos n)) }
    ensures none { IfNone result ((n : ℕ) → epoch_day date ≢ pos n) }
{
    u64::try_from(date.to_unix_epoch_day()).ok()
}

// A date from 1970 on in front, as its count of days, and what follows it.
fn split_day(text: &[u8]) -> Option<(u64, &[u8])>
    ensures value { IfSome result (λ p. (p.0 ≤ 2932896) × (text.now ≡ date_digits (date_after p.0) ++ p.1.now)) }
    ensures none { IfNone result ((n : ℕ) (rest : Text) → n ≤ 2932896 → text.now ≢ date_digits (date_after n) ++ rest) }
{
    let (date, rest) = split_date(text)?;
    let days = days_to(date)?;
    Some((days, rest))
}

// The time of a day in front, and what follows it.
fn split_clock(text: &[u8]) -> Option<(u64, &[u8])>
    ensures value { IfSome result (λ p. (p.0 < 86400) × (text.now ≡ clock_digits p.0 ++ p.1.now)) }
    ensures none { IfNone result ((n : ℕ) (rest : List ℕ) → n < 86400 → text.now ≢ clock_digits n ++ rest) }
{
    let (hour, rest) = split_two(text)?;
    let (minute, rest) = split_two(rest)?;
    let (second, rest) = split_two(rest)?;
    if hour > 23 {
        return None;
    }
    if minute > 59 {
        return None;
    }
    if second > 59 {
        return None;
    }
    let clock = u64::from(hour) * 3600 + u64::from(minute) * 60 + u64::from(second);
    Some((clock, rest))
}

/// A second since 1970 in front, as `20240102-030405`, and what follows it.
pub(crate) fn split_stamp(text: &[u8]) -> Option<(u64, &[u8])>
    ensures value { IfSome result (λ p. (p.0 ≤ last_second) × (text.now ≡ stamp p.0 ++ p.1.now)) }
    ensures none { IfNone result ((t : ℕ) (rest : List ℕ) → t ≤ last_second → text.now ≢ stamp t ++ rest) }
{
    let (days, rest) = split_day(text)?;
    let rest = after(rest, b'-')?;
    let (clock, rest) = split_clock(rest)?;
    Some((days * 86_400 + clock, rest))
}
