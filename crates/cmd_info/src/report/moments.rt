// Seconds since 1970 as a reader sees them.
ghost use Rattle.std.specs.Prelude.{◌≡◌, ◌<◌, ◌≤◌, ◌/◌, ◌%◌, ◌++◌, IfOk, OnOk, string_bytes};
ghost use Rattle.base_devices.specs.States.{last_second};
ghost use Rattle.base_model.specs.Dates.{date_after};
ghost use Rattle.repo_names.specs.Calendar.{parts_of};
ghost use Rattle.cmd_info.specs.Moments.{shown_date, shown_clock, moment};

use base_text::NoMemory;
use jiff_core::civil::Date;
use repo_names::{date_of, push_two};
use std::alloc::Global;

const DAY: u64 = 86_400;

fn push_date(text: &mut String, date: Date) -> Result<(), NoMemory>
    ensures { OnOk result (string_bytes text.new ≡ string_bytes text.old ++ shown_date (parts_of date)) }
{
    let year = date.year.unsigned_abs();
    push_two(text, (year / 100) as u8)?;
    push_two(text, (year % 100) as u8)?;
    text.push_str("-")?;
    push_two(text, date.month)?;
    text.push_str("-")?;
    push_two(text, date.day)?;
    Ok(())
}

// The time of a day, in seconds since it began.
fn push_clock(text: &mut String, clock: u32) -> Result<(), NoMemory>
    requires { clock < 86400 }
    ensures { OnOk result (string_bytes text.new ≡ string_bytes text.old ++ shown_clock clock) }
{
    push_two(text, (clock / 3600) as u8)?;
    text.push_str(":")?;
    push_two(text, (clock % 3600 / 60) as u8)?;
    text.push_str(":")?;
    push_two(text, (clock % 60) as u8)?;
    Ok(())
}

fn date_text(alloc: Global, t: u64) -> Result<String, NoMemory>
    requires { t ≤ last_second }
    ensures { IfOk result (λ text. string_bytes text ≡ shown_date (date_after (t / 86400))) }
{
    let mut text = String::new(alloc);
    push_date(&mut text, date_of(t))?;
    Ok(text)
}

fn clock_text(alloc: Global, t: u64) -> Result<String, NoMemory>
    ensures { IfOk result (λ text. string_bytes text ≡ shown_clock (t % 86400)) }
{
    let mut text = String::new(alloc);
    push_clock(&mut text, (t % DAY) as u32)?;
    Ok(text)
}

/// A second since 1970, as `2024-01-02 03:04:05+00`.
#[tactic(auto, unfolding(crate::specs::Moments::moment))]
pub(crate) fn moment(alloc: Global, t: u64) -> Result<String, NoMemory>
    requires { t ≤ last_second }
    ensures { IfOk result (λ text. string_bytes text ≡ moment t) }
{
    let date = date_text(alloc, t)?;
    let clock = clock_text(alloc, t)?;
    Ok(format!(in alloc; "{date} {clock}+00")?)
}
