// The choices, as the section `backup:option` states them.
ghost use Rattle.std.specs.Prelude.{◌≡◌, map, codes, Bool, IfOk, IfErr};
ghost use Rattle.serde_json.specs.Data.{boolean};
ghost use Rattle.base_model.specs.Text.{In};
ghost use Rattle.base_model.specs.InfoText.{IsInfo};
ghost use Rattle.repo_ini.specs.Parts.{key_of, sections_of};
ghost use Rattle.repo_keys.specs.Agree.{IsOrdered, StatesSection};
ghost use Rattle.repo_keys.specs.Fault.{IfForm};
ghost use Rattle.repo_manifest.specs.Head.{choice_fields, SaysOnline, StatesChoices};
ghost use Rattle.repo_manifest.specs.ManifestForm.{IsManifestForm};

use base_model::Choices;
use base_text::NoMemory;
use repo_ini::Part;
use repo_keys::{PartsFault, find, first_difference, form, keys_at};
use serde_json::Value;
use std::alloc::Global;

// The truth value at a key, or false.
fn truth_at(keys: &[(String, Value)], key: &str) -> bool
    requires { IsOrdered (map key_of keys.now) }
    ensures { (b : Bool) → In (key.now, boolean b) (map key_of keys.now) → result ≡ b }
{
    let Some(value) = find(keys, key) else {
        return false;
    };
    match value.as_bool() {
        Some(truth) => truth,
        None => false,
    }
}

/// The section of the choices, which states too whether a server was asked.
pub(crate) fn choices_part(alloc: Global, choices: &Choices, online: bool) -> Result<Part, NoMemory>
    ensures { IfOk result (StatesSection (codes "backup:option") (choice_fields choices.now online)) }
{
    let mut part = Part::new(alloc, "backup:option")?;
    part.add(alloc, "option-bundle", Value::Bool(choices.bundle))?;
    part.add(alloc, "option-delta", Value::Bool(choices.delta))?;
    part.add(alloc, "option-online", Value::Bool(online))?;
    Ok(part)
}

/// The choices that the section states.
pub(crate) fn choices_in(alloc: Global, parts: &[Part], online: bool) -> Result<Choices, PartsFault>
    requires info { IsInfo (sections_of parts.now) }
    requires online { SaysOnline (sections_of parts.now) online }
    ensures known { IfOk result (StatesChoices (sections_of parts.now) online) }
    ensures fault { IfErr result (λ e. IfForm e (IsManifestForm (sections_of parts.now))) }
{
    let keys = keys_at(parts, "backup:option");
    let choices = Choices {
        bundle: truth_at(keys, "option-bundle"),
        delta: truth_at(keys, "option-delta"),
    };
    let expected = choices_part(alloc, &choices, online)?;
    match first_difference(alloc, &expected.keys, keys)? {
        Some(key) => Err(form(alloc, "backup:option", key)),
        None => Ok(choices),
    }
}
