// Sections by their names, and values by their keys.
ghost use Rattle.std.specs.Prelude.{◌≡◌, ◌≢◌, map, IfOk, IfSome, IfNone};
ghost use Rattle.std.specs.List.{AllByRecursion};
ghost use Rattle.serde_json.specs.Data.{Data};
ghost use Rattle.serde_json.specs.View.{view};
ghost use Rattle.base_model.specs.Text.{In};
ghost use Rattle.base_model.specs.InfoText.{Section, IsKey, IsInfo};
ghost use Rattle.repo_ini.specs.Parts.{key_of, sections_of};
ghost use Rattle.repo_keys.specs.Agree.{IsKeysOf, IsOrdered, IsPartNamed};
ghost use Rattle.repo_keys.specs.Fault.{IfForm};

use crate::fault::PartsFault;
use base_text::NoMemory;
use repo_ini::Part;
use serde_json::Value;
use std::alloc::Global;

/// The value of a key.
pub fn find<'a>(keys: &'a [(String, Value)], key: &str) -> Option<&'a Value>
    ensures found { IfSome result (λ v. In (key.now, view v.now) (map key_of keys.now)) }
    ensures none { IfNone result ((d : Data) → ¬ In (key.now, d) (map key_of keys.now)) }
{
    for k in keys {
        if k.0.as_str() == key {
            return Some(&k.1);
        }
    }
    None
}

/// The section of a name.
pub fn part_of<'a>(parts: &'a [Part], name: &str) -> Option<&'a Part>
    ensures found { IfSome result (λ p. IsPartNamed parts.now name.now p.now) }
    ensures none { IfNone result ((s : Section) → In s (sections_of parts.now) → s.name ≢ name.now) }
{
    for part in parts {
        if part.name.as_str() == name {
            return Some(part);
        }
    }
    None
}

/// The fault of this section and key.
pub fn form(alloc: Global, section: &str, key: &str) -> PartsFault
    ensures { IfForm result (λ s k. (s ≡ section.now) × (k ≡ key.now)) }
{
    match form_of(alloc, section, key) {
        Ok(fault) => fault,
        Err(_) => PartsFault::NoMemory,
    }
}

fn form_of(alloc: Global, section: &str, key: &str) -> Result<PartsFault, NoMemory>
    ensures { IfOk result (λ e. IfForm e (λ s k. (s ≡ section.now) × (k ≡ key.now))) }
{
    Ok(PartsFault::Form {
        section: section.to_string(alloc)?,
        key: key.to_string(alloc)?,
    })
}

/// The keys of a section, and none where there is no such section.
pub fn keys_at<'a>(parts: &'a [Part], name: &str) -> &'a [(String, Value)]
    requires { IsInfo (sections_of parts.now) }
    ensures is { IsKeysOf (sections_of parts.now) name.now (map key_of result.now) }
    ensures keys { AllByRecursion IsKey (map key_of result.now) }
    ensures order { IsOrdered (map key_of result.now) }
{
    match part_of(parts, name) {
        Some(part) => &part.keys,
        None => &[],
    }
}
