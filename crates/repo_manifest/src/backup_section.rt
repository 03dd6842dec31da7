// Reads the section `backup`.
ghost use Rattle.std.specs.Prelude.{◌≤◌, map, IfOk, IfErr, IfSome};
ghost use Rattle.base_devices.specs.States.{last_second};
ghost use Rattle.base_model.specs.Fields.{whole};
ghost use Rattle.base_model.specs.InfoText.{IsInfo};
ghost use Rattle.base_model.specs.InfoFiles.{IsLabel, label_value};
ghost use Rattle.base_model.specs.ManifestText.{HasItsPrior};
ghost use Rattle.repo_ini.specs.Parts.{key_of, sections_of};
ghost use Rattle.repo_keys.specs.Agree.{IsOrdered};
ghost use Rattle.repo_keys.specs.Fault.{IfForm};
ghost use Rattle.repo_manifest.specs.Head.{IsHead, StatesHead};
ghost use Rattle.repo_manifest.specs.Read.{IsHeadRead, IsPriorRead, IsReadAt};
ghost use Rattle.repo_manifest.specs.ManifestForm.{IsManifestForm};

use crate::head::Head;
use crate::head_part::head_part;
use crate::log::{has_span, log_of};
use base_model::{BackupKind, Label};
use repo_info::{label_in, second_in};
use repo_ini::Part;
use repo_keys::{PartsFault, find, first_difference, form, keys_at};
use repo_names::label_kind;
use serde_json::Value;
use std::alloc::Global;

// The label at a key, or another where it has none.
fn label_at(keys: &[(String, Value)], key: &str) -> Label
    requires { IsOrdered (map key_of keys.now) }
    ensures rules { IsLabel result }
    ensures read { IsReadAt label_value IsLabel (map key_of keys.now) key.now result }
{
    let none = Label {
        full: 0,
        later: None,
    };
    let Some(value) = find(keys, key) else {
        return none;
    };
    match label_in(value) {
        Some(label) => label,
        None => none,
    }
}

// The second at a key, or 0.
fn second_at(keys: &[(String, Value)], key: &str) -> u64
    requires { IsOrdered (map key_of keys.now) }
    ensures rules { result ≤ last_second }
    ensures read { IsReadAt whole (λ t. t ≤ last_second) (map key_of keys.now) key.now result }
{
    let Some(value) = find(keys, key) else {
        return 0;
    };
    match second_in(value) {
        Some(time) => time,
        None => 0,
    }
}

// The prior backup, which each has but a full one.
fn prior_of(keys: &[(String, Value)], kind: BackupKind) -> Option<Label>
    requires { IsOrdered (map key_of keys.now) }
    ensures has { HasItsPrior kind result }
    ensures read { IfSome result (IsPriorRead (map key_of keys.now)) }
{
    match kind {
        BackupKind::Full => None,
        BackupKind::Diff | BackupKind::Incr => Some(label_at(keys, "backup-prior")),
    }
}

// What the keys state, where they are those of a manifest.
fn head_of(keys: &[(String, Value)]) -> Head
    requires { IsOrdered (map key_of keys.now) }
    ensures { IsHeadRead (map key_of keys.now) result }
{
    let label = label_at(keys, "backup-label");
    let kind = label_kind(&label);
    Head {
        label,
        kind,
        prior: prior_of(keys, kind),
        start: second_at(keys, "backup-timestamp-start"),
        stop: second_at(keys, "backup-timestamp-stop"),
        wal: log_of(keys),
    }
}

/// What the section says about the backup.
pub(crate) fn head_in(alloc: Global, parts: &[Part]) -> Result<Head, PartsFault>
    requires { IsInfo (sections_of parts.now) }
    ensures rules { IfOk result (λ h. IsHead h) }
    ensures known { IfOk result (StatesHead (sections_of parts.now)) }
    ensures fault { IfErr result (λ e. IfForm e (IsManifestForm (sections_of parts.now))) }
{
    let keys = keys_at(parts, "backup");
    let head = head_of(keys);
    let expected = head_part(alloc, &head)?;
    if let Some(key) = first_difference(alloc, &expected.keys, keys)? {
        return Err(form(alloc, "backup", key));
    }
    if !has_span(head.wal) {
        return Err(form(alloc, "backup", "backup-wal-segment-size"));
    }
    Ok(head)
}
