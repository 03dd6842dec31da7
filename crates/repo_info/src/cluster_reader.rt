// From values to clusters with their control and catalog versions.
ghost use Rattle.std.specs.Prelude.{◌≡◌, ◌≢◌, ◌<◌, ◌≤◌, ◌^◌, ℕ, IfOk, IfSome, IfNone, Some};
ghost use Rattle.serde_json.specs.View.{view};
ghost use Rattle.base_model.specs.declared.clusters.Cluster.{Cluster};
ghost use Rattle.base_model.specs.Json.{IsValue};
ghost use Rattle.base_model.specs.Fields.{whole};
ghost use Rattle.base_model.specs.InfoFiles.{IsCluster, cluster_field};
ghost use Rattle.repo_info.specs.BackupForm.{own_id};
ghost use Rattle.repo_info.specs.History.{StatesCluster, StatesNone, ClusterIs};

use crate::backup_info::cluster_value;
use crate::history::Numbered;
use base_model::Cluster;
use base_text::NoMemory;
use repo_keys::{are_same, small_of, version_of, whole_of};
use serde_json::Value;
use std::alloc::Global;

// The cluster that these members state, where the value is that of a cluster.
fn members_in(id: u32, value: &Value) -> Option<Cluster>
    ensures rules { IfSome result (λ c. IsCluster c × (c.id ≡ id)) }
    ensures only { ClusterIs IsCluster own_id cluster_field id (view value.now) result }
{
    let catalog = small_of(value.get("db-catalog-version")?)?;
    let control = small_of(value.get("db-control-version")?)?;
    let system = whole_of(value.get("db-system-id")?)?;
    let version = version_of(value.get("db-version")?)?;
    Some(Cluster {
        id,
        system,
        version,
        control,
        catalog,
    })
}

// The cluster of a history whose value this is.
fn cluster_of(alloc: Global, id: u32, value: &Value) -> Result<Option<Cluster>, NoMemory>
    requires { IsValue (view value.now) }
    ensures some { IfOk result (λ o. IfSome o (StatesCluster IsCluster own_id cluster_field id (view value.now))) }
    ensures none { IfOk result (λ o. IfNone o (StatesNone IsCluster own_id cluster_field id (view value.now))) }
{
    let Some(cluster) = members_in(id, value) else {
        return Ok(None);
    };
    let expected = cluster_value(alloc, &cluster)?;
    if are_same(alloc, value, &expected)? {
        Ok(Some(cluster))
    } else {
        Ok(None)
    }
}

impl Numbered for Cluster {
    ghost IsOne = { IsCluster };

    ghost number_of = { own_id };

    ghost field = { cluster_field };

    fn number(&self) -> u32 {
        self.id
    }

    fn is_same(&self, other: &Self) -> bool {
        self.id == other.id
            && self.system == other.system
            && self.version == other.version
            && self.control == other.control
            && self.catalog == other.catalog
    }

    fn read(alloc: Global, number: u32, value: &Value) -> Result<Option<Self>, NoMemory> {
        cluster_of(alloc, number, value)
    }
}
