// Positions in the log (PostgreSQL manual, "pg_lsn Type").
ghost use Rattle.std.specs.Prelude.{◌≡◌, ◌==◌, ℕ, position, IfSome, IfNone};
ghost use Rattle.std.specs.Str.Parse.{digits_value};
ghost use Rattle.repo_names.specs.Lsn.{IsHalf, IsLsn};

use base_model::Lsn;

// The number on one side of the slash.
fn read_half(digits: &[u8]) -> Option<u32>
    ensures value { IfSome result (λ n. IsHalf digits.now × (n ≡ digits_value 16 digits.now)) }
    ensures none { IfNone result (¬ IsHalf digits.now) }
{
    // `from_str_radix` takes a plus, and any number of zeros in front.
    if digits.len() > 8 || digits.first() == Some(&b'+') {
        return None;
    }
    let Ok(digits) = str::from_utf8(digits) else {
        return None;
    };
    u32::from_str_radix(digits, 16).ok()
}

// The first slash.
fn find_slash(text: &[u8]) -> Option<usize>
    ensures { result ≡ position (λ c. c == 47) text.now }
{
    text.iter().position(|byte| *byte == b'/')
}

/// The position of which this is a text, as `1/6000028`: zeros in front and either case are taken.
pub fn read_lsn(text: &[u8]) -> Option<Lsn>
    ensures value { IfSome result (λ at. IsLsn text.now at.0) }
    ensures none { IfNone result ((at : ℕ) → ¬ IsLsn text.now at) }
{
    let slash = find_slash(text)?;
    let high = read_half(&text[..slash])?;
    let low = read_half(&text[slash + 1..])?;
    Some(Lsn((u64::from(high) << 32) + u64::from(low)))
}
