// The current cluster of `backup.info`, as its section `db` states it.
ghost use Rattle.std.specs.Prelude.{◌≡◌, ◌<◌, ◌≤◌, ◌^◌, ℕ, map, codes, IfOk, IfErr, IfSome, IfNone};
ghost use Rattle.std.specs.List.{AllByRecursion};
ghost use Rattle.base_model.specs.declared.clusters.Cluster.{Cluster};
ghost use Rattle.base_model.specs.Text.{In};
ghost use Rattle.base_model.specs.InfoText.{IsKey};
ghost use Rattle.base_model.specs.Fields.{whole};
ghost use Rattle.base_model.specs.InfoFiles.{IsCluster, cluster_fields, version_value};
ghost use Rattle.repo_ini.specs.Parts.{key_of};
ghost use Rattle.repo_keys.specs.Fault.{IsFaultIn};
ghost use Rattle.repo_keys.specs.Agree.{db, IsOrdered};
ghost use Rattle.repo_info.specs.BackupForm.{IsWrongCluster, IsNumberAt};

use crate::backup_info::cluster_part;
use base_model::Cluster;
use repo_keys::{PartsFault, first_difference, form, major_at, number_at, small_at, system_at};
use serde_json::Value;
use std::alloc::Global;

// The history number at a key, or 1.
fn id_at(keys: &[(String, Value)], key: &str) -> u32
    requires { IsOrdered (map key_of keys.now) }
    ensures low { 1 ≤ result }
    ensures only { (n : ℕ) → n < 2 ^ 32 → 1 ≤ n → In (key.now, whole n) (map key_of keys.now)
        → result ≡ n }
{
    match number_at(keys, key) {
        Some(n) => n,
        None => 1,
    }
}

// A cluster that has each value of a cluster that the keys have.
fn candidate(keys: &[(String, Value)]) -> Cluster
    requires { IsOrdered (map key_of keys.now) }
    ensures low { 1 ≤ result.id }
    ensures catalog { IsNumberAt whole (codes "db-catalog-version") (map key_of keys.now) result.catalog }
    ensures control { IsNumberAt whole (codes "db-control-version") (map key_of keys.now) result.control }
    ensures id { (n : ℕ) → n < 2 ^ 32 → 1 ≤ n → In (codes "db-id", whole n) (map key_of keys.now)
        → result.id ≡ n }
    ensures system { (n : ℕ) → In (codes "db-system-id", whole n) (map key_of keys.now) → result.system ≡ n }
    ensures version { IsNumberAt version_value (codes "db-version") (map key_of keys.now) result.version }
{
    Cluster {
        id: id_at(keys, "db-id"),
        system: system_at(keys, "db-system-id"),
        version: major_at(keys, "db-version"),
        control: small_at(keys, "db-control-version"),
        catalog: small_at(keys, "db-catalog-version"),
    }
}

/// The cluster that the section states.
pub(crate) fn current_of(alloc: Global, keys: &[(String, Value)]) -> Result<Cluster, PartsFault>
    requires keys { AllByRecursion IsKey (map key_of keys.now) }
    requires order { IsOrdered (map key_of keys.now) }
    ensures cluster { IfOk result (λ c. IsCluster c × (1 ≤ c.id) × (map key_of keys.now ≡ cluster_fields c)) }
    ensures fault { IfErr result (IsFaultIn db (IsWrongCluster (map key_of keys.now))) }
{
    let cluster = candidate(keys);
    let expected = cluster_part(alloc, "db", &cluster)?;
    match first_difference(alloc, &expected.keys, keys)? {
        Some(key) => Err(form(alloc, "db", key)),
        None => Ok(cluster),
    }
}
