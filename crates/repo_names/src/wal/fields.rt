// The fields of names: eight hexadecimal digits in upper case.
ghost use Rattle.std.specs.Prelude.{◌≡◌, ◌≢◌, ℕ, ◌<◌, List, ◌++◌, length, IfSome, IfNone, OnOk, string_bytes};
ghost use Rattle.base_model.specs.Text.{hex_digit, hex_upper};

use base_text::NoMemory;
use std::alloc::Global;

// The value of a digit; lower case has none.
fn digit_value(byte: u8) -> Option<u8>
    ensures value { IfSome result (λ n. (n < 16) × (byte ≡ hex_digit n)) }
    ensures none { IfNone result ((n : ℕ) → n < 16 → byte ≢ hex_digit n) }
{
    match byte {
        b'0'..=b'9' => Some(byte - b'0'),
        b'A'..=b'F' => Some(byte - b'A' + 10),
        _ => None,
    }
}

fn read_field(digits: &[u8]) -> Option<u32>
    requires { length digits.now ≡ 8 }
    ensures value { IfSome result (λ n. digits.now ≡ hex_upper 8 n) }
    ensures none { IfNone result ((n : ℕ) → digits.now ≢ hex_upper 8 n) }
{
    let mut value = 0;
    for digit in digits {
        value = value * 16 + u32::from(digit_value(*digit)?);
    }
    Some(value)
}

/// A field in front, and what follows it.
pub(crate) fn split_field(text: &[u8]) -> Option<(u32, &[u8])>
    ensures value { IfSome result (λ p. text.now ≡ hex_upper 8 p.0 ++ p.1.now) }
    ensures none { IfNone result ((n : ℕ) (rest : List ℕ) → text.now ≢ hex_upper 8 n ++ rest) }
{
    let (digits, rest) = text.split_at_checked(8)?;
    Some((read_field(digits)?, rest))
}

/// Adds the digits of a field.
pub(crate) fn push_field(alloc: Global, text: &mut String, field: u32) -> Result<(), NoMemory>
    ensures { OnOk result (string_bytes text.new ≡ string_bytes text.old ++ hex_upper 8 field) }
{
    let digits = hex::encode_upper(alloc, field.to_be_bytes().as_slice())?;
    text.push_str(digits.as_str())?;
    Ok(())
}
