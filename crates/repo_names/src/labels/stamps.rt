// The digits of a second.
ghost use Rattle.std.specs.Prelude.{◌≡◌, ◌<◌, ◌≤◌, ◌/◌, ◌++◌, OnOk, string_bytes, pos};
ghost use Rattle.jiff_core.specs.Date.{epoch_day};
ghost use Rattle.base_devices.specs.States.{last_second};
ghost use Rattle.base_model.specs.Dates.{two, date_digits, clock_digits, date_after, stamp};
ghost use Rattle.repo_names.specs.Calendar.{parts_of};

use base_text::NoMemory;
use jiff_core::civil::Date;

const DAY: u64 = 86_400;

/// Adds a number below 100, in two digits.
pub fn push_two(text: &mut String, n: u8) -> Result<(), NoMemory>
    requires { n < 100 }
    ensures { OnOk result (string_bytes text.new ≡ string_bytes text.old ++ two n) }
{
    text.push((b'0' + n / 10) as char)?;
    text.push((b'0' + n % 10) as char)?;
    Ok(())
}

fn day_of(t: u64) -> Date
    requires { t ≤ last_second }
    ensures { epoch_day result ≡ pos (t / 86400) }
{
    Date::from_unix_epoch_day((t / DAY) as i64).unwrap()
}

/// The day of a second since 1970.
pub fn date_of(t: u64) -> Date
    requires { t ≤ last_second }
    ensures { parts_of result ≡ date_after (t / 86400) }
{
    day_of(t)
}

fn push_date(text: &mut String, date: Date) -> Result<(), NoMemory>
    ensures { OnOk result (string_bytes text.new ≡ string_bytes text.old ++ date_digits (parts_of date)) }
{
    let year = date.year.unsigned_abs();
    push_two(text, (year / 100) as u8)?;
    push_two(text, (year % 100) as u8)?;
    push_two(text, date.month)?;
    push_two(text, date.day)?;
    Ok(())
}

// The time of a day, in seconds since it began.
fn push_clock(text: &mut String, clock: u32) -> Result<(), NoMemory>
    requires { clock < 86400 }
    ensures { OnOk result (string_bytes text.new ≡ string_bytes text.old ++ clock_digits clock) }
{
    push_two(text, (clock / 3600) as u8)?;
    push_two(text, (clock % 3600 / 60) as u8)?;
    push_two(text, (clock % 60) as u8)?;
    Ok(())
}

/// Adds the digits of a second since 1970, as `20240102-030405`.
pub(crate) fn push_stamp(text: &mut String, t: u64) -> Result<(), NoMemory>
    requires { t ≤ last_second }
    ensures { OnOk result (string_bytes text.new ≡ string_bytes text.old ++ stamp t) }
{
    push_date(text, date_of(t))?;
    text.push('-')?;
    push_clock(text, (t % DAY) as u32)?;
    Ok(())
}
