// The current cluster of `archive.info`, as its section `db` states it.
ghost use Rattle.std.specs.Prelude.{◌≡◌, ◌<◌, ◌≤◌, ◌^◌, ℕ, map, true, false, IfOk, IfErr, IfSome, IfNone, string_bytes};
ghost use Rattle.serde_json.specs.Data.{Data};
ghost use Rattle.base_model.specs.Text.{In};
ghost use Rattle.base_model.specs.InfoText.{IsSection};
ghost use Rattle.base_model.specs.Fields.{Field, whole};
ghost use Rattle.base_model.specs.InfoFiles.{IsClusterId, cluster_id_fields, version_value};
ghost use Rattle.repo_ini.specs.Parts.{key_of, keys_of, section_of};
ghost use Rattle.repo_keys.specs.Fault.{IsFaultIn};
ghost use Rattle.repo_keys.specs.Agree.{db, IsOrdered};
ghost use Rattle.repo_info.specs.ArchiveForm.{cluster_keys, IsWrongCurrent};

use base_model::ClusterId;
use repo_ini::Part;
use repo_keys::{PartsFault, form, number_at, version_at, whole_at};
use serde_json::Value;
use std::alloc::Global;

fn is_cluster_key(key: &str) -> bool
    ensures model { result ≡ true → In key.now cluster_keys }
    ensures other { result ≡ false → ¬ In key.now cluster_keys }
{
    key == "db-id" || key == "db-system-id" || key == "db-version"
}

// The first key that no cluster has.
fn foreign_key<'a>(keys: &'a [(String, Value)]) -> Option<&'a str>
    ensures some { IfSome result (λ k. ((d : Data) × In (k.now, d) (map key_of keys.now))
        × ¬ In k.now cluster_keys) }
    ensures none { IfNone result ((k : Field) → In k (map key_of keys.now) → In k.0 cluster_keys) }
{
    for k in keys {
        if !is_cluster_key(k.0.as_str()) {
            return Some(k.0.as_str());
        }
    }
    None
}

/// The cluster that the section states.
pub(crate) fn current_of(alloc: Global, part: &Part) -> Result<ClusterId, PartsFault>
    requires { IsSection (section_of part.now) }
    ensures cluster { IfOk result (λ c. IsClusterId c × (1 ≤ c.id) × (keys_of part.now ≡ cluster_id_fields c)) }
    ensures fault { IfErr result (IsFaultIn db (IsWrongCurrent (keys_of part.now))) }
{
    let keys = &part.keys;
    let Some(id) = number_at(keys, "db-id") else {
        return Err(form(alloc, "db", "db-id"));
    };
    let Some(system) = whole_at(keys, "db-system-id") else {
        return Err(form(alloc, "db", "db-system-id"));
    };
    let Some(version) = version_at(keys, "db-version") else {
        return Err(form(alloc, "db", "db-version"));
    };
    if let Some(key) = foreign_key(keys) {
        return Err(form(alloc, "db", key));
    }
    Ok(ClusterId {
        id,
        system,
        version,
    })
}
