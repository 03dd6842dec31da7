// Keys in byte order.
ghost use Rattle.std.specs.Prelude.{◌≡◌, map, OnOk, string_bytes};
ghost use Rattle.std.specs.List.{position_or_len};
ghost use Rattle.base_devices.specs.Order.{is_before};
ghost use Rattle.base_model.specs.Fields.{with_field};
ghost use Rattle.repo_ini.specs.Parts.{key_of};

use base_text::NoMemory;
use repo_ini::is_before;
use serde_json::Value;

// The place of the first key that comes after this one, or the end.
fn place_of(keys: &[(String, Value)], key: &str) -> usize
    ensures { result ≡ position_or_len (λ k. is_before key.now (string_bytes k.0)) keys.now }
{
    for (i, k) in keys.iter().enumerate() {
        if is_before(key.as_bytes(), k.0.as_bytes()) {
            return i;
        }
    }
    keys.len()
}

/// Adds the key at its place in byte order.
pub fn place(keys: &mut Vec<(String, Value)>, key: String, value: Value) -> Result<(), NoMemory>
    ensures { OnOk result (map key_of keys.new.items ≡ with_field (map key_of keys.old.items) (key_of (key, value))) }
{
    let at = place_of(keys, key.as_str());
    keys.insert(at, (key, value))?;
    Ok(())
}
