// Targets of recovery by a transaction and by a restore point (PostgreSQL manual, "Recovery Target").
ghost use Rattle.std.specs.Prelude.{◌≡◌, ◌==◌, ◌||◌, nat_lt};
ghost use Rattle.std.specs.List.{list_any};
ghost use Rattle.restore_target.specs.Targets.{is_transaction, is_restore_point};

use base_text::read_decimal;

/// Whether it is the number of a transaction, in decimal without zeros in front.
pub fn is_transaction(text: &str) -> bool
    ensures { result ≡ is_transaction text.now }
{
    match read_decimal(text.as_bytes()) {
        Some(number) => number <= u64::from(u32::MAX),
        None => false,
    }
}

fn has_control(text: &str) -> bool
    ensures { result ≡ list_any (λ c. nat_lt c 32 || c == 127) text.now }
{
    text.bytes().any(|c| c < 32 || c == 127)
}

// The most bytes of a restore point's name.
const LIMIT: usize = 63;

/// Whether it may be the name of a restore point: 1 to 63 bytes without control characters.
pub fn is_restore_point(text: &str) -> bool
    ensures { result ≡ is_restore_point text.now }
{
    1 <= text.len() && text.len() <= LIMIT && !has_control(text)
}
