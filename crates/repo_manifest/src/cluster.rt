// The cluster, as the section `backup:db` states it.
ghost use Rattle.std.specs.Prelude.{◌≡◌, map, codes, IfOk, IfErr};
ghost use Rattle.base_model.specs.InfoText.{IsInfo};
ghost use Rattle.base_model.specs.InfoFiles.{IsCluster, cluster_fields};
ghost use Rattle.repo_ini.specs.Parts.{key_of, sections_of};
ghost use Rattle.repo_keys.specs.Agree.{IsKeysOf, IsOrdered};
ghost use Rattle.repo_keys.specs.Fault.{IfForm};
ghost use Rattle.repo_manifest.specs.Read.{IsClusterRead};
ghost use Rattle.repo_manifest.specs.ManifestForm.{IsManifestForm};

use base_model::Cluster;
use repo_info::cluster_part;
use repo_ini::Part;
use repo_keys::{PartsFault, first_difference, form, keys_at, major_at, small_at, system_at};
use serde_json::Value;
use std::alloc::Global;

// A cluster that has each value of a cluster that the keys have.
fn cluster_of(keys: &[(String, Value)]) -> Cluster
    requires { IsOrdered (map key_of keys.now) }
    ensures rules { IsCluster result }
    ensures read { IsClusterRead (map key_of keys.now) result }
{
    Cluster {
        id: small_at(keys, "db-id"),
        system: system_at(keys, "db-system-id"),
        version: major_at(keys, "db-version"),
        control: small_at(keys, "db-control-version"),
        catalog: small_at(keys, "db-catalog-version"),
    }
}

/// The cluster that the section states.
pub(crate) fn cluster_in(alloc: Global, parts: &[Part]) -> Result<Cluster, PartsFault>
    requires { IsInfo (sections_of parts.now) }
    ensures rules { IfOk result (λ c. IsCluster c) }
    ensures known { IfOk result (λ c. IsKeysOf (sections_of parts.now) (codes "backup:db") (cluster_fields c)) }
    ensures fault { IfErr result (λ e. IfForm e (IsManifestForm (sections_of parts.now))) }
{
    let keys = keys_at(parts, "backup:db");
    let cluster = cluster_of(keys);
    let expected = cluster_part(alloc, "backup:db", &cluster)?;
    match first_difference(alloc, &expected.keys, keys)? {
        Some(key) => Err(form(alloc, "backup:db", key)),
        None => Ok(cluster),
    }
}
