// The first key at which two lists of keys differ.
ghost use Rattle.std.specs.Prelude.{◌≡◌, ◌≢◌, ◌↔◌, map, IfOk, IfSome, IfNone, IsTrue, if◌then◌else◌};
ghost use Rattle.std.specs.List.{AllByRecursion};
ghost use Rattle.base_devices.specs.Order.{is_before};
ghost use Rattle.base_model.specs.InfoText.{IsKey};
ghost use Rattle.repo_ini.specs.Parts.{key_of};
ghost use Rattle.repo_keys.specs.Agree.{IsFirstDifference, IsOrdered};

use crate::values::are_same;
use base_text::NoMemory;
use repo_ini::is_before;
use serde_json::Value;
use std::alloc::Global;

// Whether both have the same key and the same value.
fn is_same_key(alloc: Global, a: &(String, Value), b: &(String, Value)) -> Result<bool, NoMemory>
    requires first { IsKey (key_of a.now) }
    requires second { IsKey (key_of b.now) }
    ensures { IfOk result (λ same. IsTrue same ↔ (key_of a.now ≡ key_of b.now)) }
{
    if a.0.as_str() == b.0.as_str() {
        are_same(alloc, &a.1, &b.1)
    } else {
        Ok(false)
    }
}

// The one that comes first.
fn lower<'a>(a: &'a str, b: &'a str) -> &'a str
    ensures { result.now ≡ (if is_before b.now a.now then b.now else a.now) }
{
    if is_before(b.as_bytes(), a.as_bytes()) {
        b
    } else {
        a
    }
}

/// The first key at which the two differ.
pub fn first_difference<'a>(
    alloc: Global,
    a: &'a [(String, Value)],
    b: &'a [(String, Value)],
) -> Result<Option<&'a str>, NoMemory>
    requires keys { AllByRecursion IsKey (map key_of a.now) }
    requires others { AllByRecursion IsKey (map key_of b.now) }
    requires ordered { IsOrdered (map key_of a.now) }
    requires order { IsOrdered (map key_of b.now) }
    ensures none { IfOk result (λ o. IfNone o (map key_of a.now ≡ map key_of b.now)) }
    ensures some { IfOk result (λ o. IfSome o (λ k. IsFirstDifference (map key_of a.now) (map key_of b.now) k.now)) }
{
    let mut i = 0;
    while i < a.len() && i < b.len() {
        if !is_same_key(alloc, &a[i], &b[i])? {
            return Ok(Some(lower(a[i].0.as_str(), b[i].0.as_str())));
        }
        i += 1;
    }
    if i < a.len() {
        return Ok(Some(a[i].0.as_str()));
    }
    if i < b.len() {
        return Ok(Some(b[i].0.as_str()));
    }
    Ok(None)
}
