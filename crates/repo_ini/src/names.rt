//! Which names and keys may be in an info text, and in which order.

ghost use Rattle.std.specs.Prelude.{◌≡◌, ◌==◌};
ghost use Rattle.std.specs.List.{list_all, list_any};
ghost use Rattle.base_devices.specs.Order.{is_before};
ghost use Rattle.base_model.specs.InfoText.{is_key, is_key_byte, begins_well, is_name};

use std::cmp::Ordering;

/// Whether the one comes before the other in byte order.
pub fn is_before(a: &[u8], b: &[u8]) -> bool
    ensures { result ≡ is_before a.now b.now }
{
    match a.cmp(&b) {
        Ordering::Less => true,
        Ordering::Equal => false,
        Ordering::Greater => false,
    }
}

fn is_key_byte(c: u8) -> bool
    ensures { result ≡ is_key_byte c }
{
    !(c < 32) && c != 127 && c != b'='
}

fn all_key_bytes(key: &[u8]) -> bool
    ensures { result ≡ list_all is_key_byte key.now }
{
    key.iter().all(|c| is_key_byte(*c))
}

fn begins_well(key: &[u8]) -> bool
    ensures { result ≡ begins_well key.now }
{
    match key {
        [] => false,
        [c, ..] => *c != b'[' && *c != b'#',
    }
}

fn has_bracket(name: &[u8]) -> bool
    ensures { result ≡ list_any (λ c. c == 93) name.now }
{
    name.iter().any(|c| *c == b']')
}

pub(crate) fn is_key(key: &[u8]) -> bool
    ensures { result ≡ is_key key.now }
{
    begins_well(key) && all_key_bytes(key)
}

pub(crate) fn is_name(name: &[u8]) -> bool
    ensures { result ≡ is_name name.now }
{
    is_key(name) && !has_bracket(name)
}
