// From values to the clusters of an archive.
ghost use Rattle.std.specs.Prelude.{◌≡◌, ◌≢◌, ◌<◌, ◌≤◌, ◌^◌, ◌↔◌, ℕ, IfOk, IfSome, IfNone, IsTrue, Some};
ghost use Rattle.serde_json.specs.View.{view};
ghost use Rattle.base_model.specs.declared.clusters.ClusterId.{ClusterId};
ghost use Rattle.base_model.specs.Json.{IsValue};
ghost use Rattle.base_model.specs.Fields.{whole};
ghost use Rattle.base_model.specs.InfoFiles.{IsClusterId, cluster_id_field, version_value};
ghost use Rattle.repo_info.specs.ArchiveForm.{own_id};
ghost use Rattle.repo_info.specs.History.{StatesCluster, StatesNone, ClusterIs};

use crate::archive_info::cluster_value;
use crate::history::Numbered;
use base_model::ClusterId;
use base_text::{NoMemory, read_decimal};
use repo_keys::{are_same, version_of, whole_of};
use serde_json::Value;
use std::alloc::Global;

// The cluster that these members state, where the value is that of a cluster.
fn identity_in(id: u32, value: &Value) -> Option<ClusterId>
    ensures rules { IfSome result (λ c. IsClusterId c × (c.id ≡ id)) }
    ensures only { ClusterIs IsClusterId own_id cluster_id_field id (view value.now) result }
{
    let system = whole_of(value.get("db-id")?)?;
    let version = version_of(value.get("db-version")?)?;
    Some(ClusterId {
        id,
        system,
        version,
    })
}

// The cluster of a history whose value this is.
fn cluster_of(alloc: Global, id: u32, value: &Value) -> Result<Option<ClusterId>, NoMemory>
    requires { IsValue (view value.now) }
    ensures some { IfOk result (λ o. IfSome o (StatesCluster IsClusterId own_id cluster_id_field id (view value.now))) }
    ensures none { IfOk result (λ o. IfNone o (StatesNone IsClusterId own_id cluster_id_field id (view value.now))) }
{
    let Some(cluster) = identity_in(id, value) else {
        return Ok(None);
    };
    let expected = cluster_value(alloc, &cluster)?;
    if are_same(alloc, value, &expected)? {
        Ok(Some(cluster))
    } else {
        Ok(None)
    }
}

impl Numbered for ClusterId {
    ghost IsOne = { IsClusterId };

    ghost number_of = { own_id };

    ghost field = { cluster_id_field };

    fn number(&self) -> u32 {
        self.id
    }

    fn is_same(&self, other: &Self) -> bool {
        self.id == other.id && self.system == other.system && self.version == other.version
    }

    fn read(alloc: Global, number: u32, value: &Value) -> Result<Option<Self>, NoMemory> {
        cluster_of(alloc, number, value)
    }
}
