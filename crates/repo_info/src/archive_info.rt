// The sections of `archive.info`.
ghost use Rattle.std.specs.Prelude.{◌≡◌, map, codes, IfOk};
ghost use Rattle.serde_json.specs.View.{view};
ghost use Rattle.base_model.specs.Fields.{by_key};
ghost use Rattle.base_model.specs.InfoFiles.{cluster_id_field, cluster_id_fields, archive_sections, IsArchiveInfo, info_limit};
ghost use Rattle.base_model.specs.Values.{archive_info_of};
ghost use Rattle.repo_ini.specs.Parts.{section_of};
ghost use Rattle.repo_keys.specs.Agree.{db_history, StatesSection};

use crate::info::Info;
use base_model::{ArchiveInfo, ClusterId};
use base_text::{NoMemory, decimal};
use repo_ini::Part;
use repo_keys::place;
use serde_json::{Value, json};
use std::alloc::Global;

// A cluster of the history, under its number.
pub(crate) fn cluster_value(alloc: Global, c: &ClusterId) -> Result<Value, NoMemory>
    ensures { IfOk result (λ v. view v ≡ (cluster_id_field c.now).1) }
{
    let version = decimal(alloc, u64::from(c.version))?;
    Ok(json!(in alloc; { "db-id": c.system, "db-version": &version })?)
}

fn current_part(alloc: Global, c: &ClusterId) -> Result<Part, NoMemory>
    ensures { IfOk result (λ p. section_of p ≡ record { name = codes "db"; keys = cluster_id_fields c.now }) }
{
    let mut part = Part::new(alloc, "db")?;
    part.add(alloc, "db-id", Value::from(u64::from(c.id)))?;
    part.add(alloc, "db-system-id", Value::from(c.system))?;
    let version = decimal(alloc, u64::from(c.version))?;
    part.add(alloc, "db-version", Value::String(version))?;
    Ok(part)
}

fn history_part(alloc: Global, history: &[ClusterId]) -> Result<Part, NoMemory>
    ensures { IfOk result (StatesSection db_history (by_key (map cluster_id_field history.now))) }
{
    let mut part = Part::new(alloc, "db:history")?;
    for c in history {
        let number = decimal(alloc, u64::from(c.id))?;
        let value = cluster_value(alloc, c)?;
        place(&mut part.keys, number, value)?;
    }
    Ok(part)
}

impl Info for ArchiveInfo {
    ghost sections = { λ v. archive_sections (archive_info_of v) };

    ghost is_valid = { λ v. IsArchiveInfo (archive_info_of v) };

    ghost limit = { info_limit };

    #[tactic(auto, using(crate::proofs::ArchiveRules::archive_is_info))]
    fn parts(&self, alloc: Global) -> Result<Vec<Part>, NoMemory> {
        let current = &self.history[self.current as usize - 1];
        let mut parts = Vec::new(alloc);
        parts.push(current_part(alloc, current)?)?;
        parts.push(history_part(alloc, &self.history)?)?;
        Ok(parts)
    }
}
