// The listed backups as JSON: their objects in `backup.info`, each with its label.
ghost use Rattle.std.specs.Prelude.{◌≡◌, map, codes, IfOk, string_bytes};
ghost use Rattle.serde_json.specs.Data.{string};
ghost use Rattle.serde_json.specs.View.{view};
ghost use Rattle.base_model.specs.Fields.{list_of};
ghost use Rattle.base_model.specs.InfoFiles.{entry_field, IsBackupInfo};
ghost use Rattle.base_model.specs.Values.{backup_info_of};
ghost use Rattle.repo_ini.specs.Parts.{key_of};
ghost use Rattle.cmd_info.specs.ReportData.{with_key, backup_data};

use base_model::BackupInfo;
use base_text::NoMemory;
use repo_info::Info;
use serde_json::{Value, put};
use std::alloc::Global;

// The listed backups are the first section of the info text; there is none where none is listed.
fn listed(alloc: Global, info: &BackupInfo) -> Result<Vec<(String, Value)>, NoMemory>
    requires { IsBackupInfo (backup_info_of info.now) }
    ensures { IfOk result (λ ks. map key_of ks.items ≡ map entry_field (backup_info_of info.now).backups) }
{
    if info.backups.is_empty() {
        return Ok(Vec::new(alloc));
    }
    let mut parts = info.parts(alloc)?;
    Ok(parts.remove(0).keys)
}

fn labelled(alloc: Global, label: String, value: Value) -> Result<Value, NoMemory>
    ensures { IfOk result (λ v. view v ≡ with_key (codes "label") (string (string_bytes label)) (view value)) }
{
    match value {
        Value::Object(mut members) => {
            put(&mut members, alloc, "label", Value::String(label))?;
            Ok(Value::Object(members))
        }
        other => Ok(other),
    }
}

/// The listed backups.
pub(crate) fn backups_value(alloc: Global, info: &BackupInfo) -> Result<Value, NoMemory>
    requires { IsBackupInfo (backup_info_of info.now) }
    ensures { IfOk result (λ v. view v ≡ list_of (map backup_data (backup_info_of info.now).backups)) }
{
    let mut backups = Vec::new(alloc);
    for (label, value) in listed(alloc, info)? {
        backups.push(labelled(alloc, label, value)?)?;
    }
    Ok(Value::Array(backups))
}
