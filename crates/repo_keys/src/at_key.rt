// Reads the value at a key.
ghost use Rattle.std.specs.Prelude.{◌≡◌, ◌<◌, ◌≤◌, ◌^◌, ℕ, map, IfSome, IfNone};
ghost use Rattle.base_model.specs.Text.{In};
ghost use Rattle.base_model.specs.Fields.{whole};
ghost use Rattle.base_model.specs.InfoFiles.{version_value};
ghost use Rattle.repo_ini.specs.Parts.{key_of};
ghost use Rattle.repo_keys.specs.Agree.{IsOrdered};

use crate::key_lookup::find;
use crate::values::{number_of, small_of, version_of, whole_of};
use serde_json::Value;

/// The number of 64 bits at a key.
pub fn whole_at(keys: &[(String, Value)], key: &str) -> Option<u64>
    requires { IsOrdered (map key_of keys.now) }
    ensures some { IfSome result (λ n. In (key.now, whole n) (map key_of keys.now)) }
    ensures none { IfNone result ((n : ℕ) → ¬ In (key.now, whole n) (map key_of keys.now)) }
{
    match find(keys, key) {
        Some(value) => whole_of(value),
        None => None,
    }
}

/// The history number at a key.
pub fn number_at(keys: &[(String, Value)], key: &str) -> Option<u32>
    requires { IsOrdered (map key_of keys.now) }
    ensures some { IfSome result (λ n. (1 ≤ n) × In (key.now, whole n) (map key_of keys.now)) }
    ensures none { IfNone result ((n : ℕ) → n < 2 ^ 32 → 1 ≤ n
        → ¬ In (key.now, whole n) (map key_of keys.now)) }
{
    match find(keys, key) {
        Some(value) => number_of(value),
        None => None,
    }
}

/// The version at a key.
pub fn version_at(keys: &[(String, Value)], key: &str) -> Option<u32>
    requires { IsOrdered (map key_of keys.now) }
    ensures some { IfSome result (λ n. In (key.now, version_value n) (map key_of keys.now)) }
    ensures none { IfNone result ((n : ℕ) → n < 2 ^ 32 → ¬ In (key.now, version_value n) (map key_of keys.now)) }
{
    match find(keys, key) {
        Some(value) => version_of(value),
        None => None,
    }
}

/// The number of 32 bits at a key, or 0.
pub fn small_at(keys: &[(String, Value)], key: &str) -> u32
    requires { IsOrdered (map key_of keys.now) }
    ensures { (n : ℕ) → n < 2 ^ 32 → In (key.now, whole n) (map key_of keys.now) → result ≡ n }
{
    let Some(value) = find(keys, key) else {
        return 0;
    };
    match small_of(value) {
        Some(n) => n,
        None => 0,
    }
}

/// The number of 64 bits at a key, or 0.
pub fn system_at(keys: &[(String, Value)], key: &str) -> u64
    requires { IsOrdered (map key_of keys.now) }
    ensures { (n : ℕ) → In (key.now, whole n) (map key_of keys.now) → result ≡ n }
{
    match whole_at(keys, key) {
        Some(n) => n,
        None => 0,
    }
}

/// The version at a key, or 0.
pub fn major_at(keys: &[(String, Value)], key: &str) -> u32
    requires { IsOrdered (map key_of keys.now) }
    ensures { (n : ℕ) → n < 2 ^ 32 → In (key.now, version_value n) (map key_of keys.now) → result ≡ n }
{
    match version_at(keys, key) {
        Some(n) => n,
        None => 0,
    }
}
