// The sections of `backup.info`.
ghost use Rattle.std.specs.Prelude.{◌≡◌, map, IfOk};
ghost use Rattle.std.specs.List.{AllByRecursion};
ghost use Rattle.serde_json.specs.View.{view};
ghost use Rattle.base_model.specs.Fields.{by_key, section};
ghost use Rattle.base_model.specs.InfoFiles.{cluster_field, cluster_fields, backup_sections, IsBackupInfo, info_limit};
ghost use Rattle.base_model.specs.Values.{entry_of, backup_info_of};
ghost use Rattle.repo_ini.specs.Parts.{section_of, sections_of};
ghost use Rattle.repo_keys.specs.Agree.{db_history, StatesSection};
ghost use Rattle.repo_info.specs.BackupForm.{backup_current};
ghost use Rattle.repo_info.specs.Entries.{HasLabels, entry_fields};

use crate::entries::entry_value;
use crate::info::Info;
use base_model::{BackupInfo, Cluster, Entry};
use base_text::{NoMemory, decimal};
use repo_ini::Part;
use repo_keys::place;
use repo_names::label_text;
use serde_json::{Value, json};
use std::alloc::Global;

fn listed_part(alloc: Global, backups: &[Entry]) -> Result<Part, NoMemory>
    requires { AllByRecursion (λ e. HasLabels (entry_of e)) backups.now }
    ensures { IfOk result (StatesSection backup_current (entry_fields backups.now)) }
{
    let mut part = Part::new(alloc, "backup:current")?;
    for e in backups {
        let label = label_text(alloc, &e.label)?;
        let value = entry_value(alloc, e)?;
        part.add(alloc, label.as_str(), value)?;
    }
    Ok(part)
}

// No section, where no backup is listed.
fn listed_parts(alloc: Global, backups: &[Entry]) -> Result<Vec<Part>, NoMemory>
    requires { AllByRecursion (λ e. HasLabels (entry_of e)) backups.now }
    ensures { IfOk result (λ ps. sections_of ps.items ≡ section backup_current (entry_fields backups.now)) }
{
    let mut parts = Vec::new(alloc);
    if backups.is_empty() {
        return Ok(parts);
    }
    parts.push(listed_part(alloc, backups)?)?;
    Ok(parts)
}

// A cluster of the history, under its number.
pub(crate) fn cluster_value(alloc: Global, c: &Cluster) -> Result<Value, NoMemory>
    ensures { IfOk result (λ v. view v ≡ (cluster_field c.now).1) }
{
    let version = decimal(alloc, u64::from(c.version))?;
    Ok(json!(in alloc; {
        "db-catalog-version": u64::from(c.catalog),
        "db-control-version": u64::from(c.control),
        "db-system-id": c.system,
        "db-version": &version
    })?)
}

/// A section of this name that states the cluster.
pub fn cluster_part(alloc: Global, name: &str, c: &Cluster) -> Result<Part, NoMemory>
    ensures { IfOk result (λ p. section_of p ≡ record { name = name.now; keys = cluster_fields c.now }) }
{
    let mut part = Part::new(alloc, name)?;
    part.add(
        alloc,
        "db-catalog-version",
        Value::from(u64::from(c.catalog)),
    )?;
    part.add(
        alloc,
        "db-control-version",
        Value::from(u64::from(c.control)),
    )?;
    part.add(alloc, "db-id", Value::from(u64::from(c.id)))?;
    part.add(alloc, "db-system-id", Value::from(c.system))?;
    let version = decimal(alloc, u64::from(c.version))?;
    part.add(alloc, "db-version", Value::String(version))?;
    Ok(part)
}

fn history_part(alloc: Global, history: &[Cluster]) -> Result<Part, NoMemory>
    ensures { IfOk result (StatesSection db_history (by_key (map cluster_field history.now))) }
{
    let mut part = Part::new(alloc, "db:history")?;
    for c in history {
        let number = decimal(alloc, u64::from(c.id))?;
        let value = cluster_value(alloc, c)?;
        place(&mut part.keys, number, value)?;
    }
    Ok(part)
}

impl Info for BackupInfo {
    ghost sections = { λ v. backup_sections (backup_info_of v) };

    ghost is_valid = { λ v. IsBackupInfo (backup_info_of v) };

    ghost limit = { info_limit };

    #[tactic(auto, using(crate::proofs::BackupRules::backup_is_info))]
    fn parts(&self, alloc: Global) -> Result<Vec<Part>, NoMemory> {
        let current = &self.history[self.current as usize - 1];
        let mut parts = listed_parts(alloc, &self.backups)?;
        parts.push(cluster_part(alloc, "db", current)?)?;
        parts.push(history_part(alloc, &self.history)?)?;
        Ok(parts)
    }
}
