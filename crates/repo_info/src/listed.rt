// The backups that the section `backup:current` states.
ghost use Rattle.std.specs.Prelude.{◌≡◌, map, IfOk, IfErr, IfSome, IfNone, IsTrue, ◌↔◌};
ghost use Rattle.std.specs.List.{AllByRecursion};
ghost use Rattle.serde_json.specs.Data.{Data};
ghost use Rattle.serde_json.specs.View.{view};
ghost use Rattle.base_model.specs.Text.{In};
ghost use Rattle.base_model.specs.InfoText.{IsKey};
ghost use Rattle.base_model.specs.InfoFiles.{IsLabel, entry_field};
ghost use Rattle.base_model.specs.Values.{entry_of, Entry as SpecEntry};
ghost use Rattle.repo_ini.specs.Parts.{key_of};
ghost use Rattle.repo_keys.specs.Fault.{IsFaultIn};
ghost use Rattle.repo_keys.specs.Agree.{IsOrdered};
ghost use Rattle.repo_info.specs.BackupForm.{backup_current, HasLabel, IsList, IsNext, IsWrongBackup};

use crate::entry_reader::read_entry;
use base_model::{Entry, Label};
use base_text::NoMemory;
use repo_ini::is_before;
use repo_keys::{PartsFault, form, is_key};
use repo_names::{label_text, read_label};
use serde_json::Value;
use std::alloc::Global;

// Whether the prior backup is among these.
fn has_prior(
    alloc: Global,
    prefix: &[(String, Value)],
    prior: Option<Label>,
) -> Result<bool, NoMemory>
    requires order { IsOrdered (map key_of prefix.now) }
    requires label { IfSome prior IsLabel }
    ensures { IfOk result (λ has. IsTrue has ↔ IfSome prior (HasLabel (map key_of prefix.now))) }
{
    let Some(prior) = prior else {
        return Ok(true);
    };
    let text = label_text(alloc, &prior)?;
    Ok(is_key(prefix, text.as_str()))
}

// The backup of this key, after these others.
fn next_of(
    alloc: Global,
    prefix: &[(String, Value)],
    k: &(String, Value),
) -> Result<Option<Entry>, NoMemory>
    requires key { IsKey (key_of k.now) }
    requires order { IsOrdered (map key_of prefix.now) }
    ensures some { IfOk result (λ o. IfSome o (λ e. IsNext (map key_of prefix.now) (key_of k.now) (entry_of e))) }
    ensures none { IfOk result (λ o. IfNone o ((e : SpecEntry)
        → ¬ IsNext (map key_of prefix.now) (key_of k.now) e)) }
{
    let Some(label) = read_label(k.0.as_bytes()) else {
        return Ok(None);
    };
    let Some(entry) = read_entry(alloc, &label, &k.1)? else {
        return Ok(None);
    };
    if has_prior(alloc, prefix, entry.prior)? {
        Ok(Some(entry))
    } else {
        Ok(None)
    }
}

/// The backups that the keys state.
pub(crate) fn listed_of(alloc: Global, keys: &[(String, Value)]) -> Result<Vec<Entry>, PartsFault>
    requires keys { AllByRecursion IsKey (map key_of keys.now) }
    requires order { IsOrdered (map key_of keys.now) }
    ensures list { IfOk result (λ v. IsList (map entry_of v.items)) }
    ensures keys { IfOk result (λ v. map key_of keys.now ≡ map entry_field (map entry_of v.items)) }
    ensures fault { IfErr result (IsFaultIn backup_current (IsWrongBackup (map key_of keys.now))) }
{
    let mut backups = Vec::new(alloc);
    for (i, k) in keys.iter().enumerate() {
        let Some(entry) = next_of(alloc, &keys[..i], k)? else {
            return Err(form(alloc, "backup:current", k.0.as_str()));
        };
        backups.push(entry)?;
    }
    Ok(backups)
}
