// Writes the report as JSON.
ghost use Rattle.std.specs.Prelude.{◌≡◌, map, take, length, IfOk, string_bytes};
ghost use Rattle.serde_json.specs.Data.{string};
ghost use Rattle.serde_json.specs.View.{view};
ghost use Rattle.base_model.specs.Fields.{list_of, or_null};
ghost use Rattle.base_model.specs.InfoFiles.{IsBackupInfo};
ghost use Rattle.base_model.specs.Names.{id_text};
ghost use Rattle.base_model.specs.Values.{backup_info_of, entry_of};
ghost use Rattle.cmd_info.specs.Bounds.{first_name, last_name};
ghost use Rattle.cmd_info.specs.ReportData.{archive_data, cluster_data, status_code, status_message, status_data, data_of_report, json_of_report};

use crate::report::bounds::{Bounds, bounds_of, id_of};
use crate::report::listed::backups_value;
use crate::report::report::{ArchivedName, Report};
use base_model::{ArchiveId, Cluster, ClusterId, Entry};
use base_text::{NoMemory, decimal};
use repo_names::segment_text;
use serde_json::{Map, Value, json, put};
use std::alloc::Global;

fn id_text(alloc: Global, id: ArchiveId) -> Result<String, NoMemory>
    ensures { IfOk result (λ text. string_bytes text ≡ id_text id) }
{
    let version = id.version;
    let number = id.number;
    Ok(format!(in alloc; "{version}-{number}")?)
}

fn first_value(alloc: Global, bounds: Option<Bounds>) -> Result<Value, NoMemory>
    ensures { IfOk result (λ v. view v ≡ or_null string (first_name bounds)) }
{
    match bounds {
        Some(bounds) => Ok(Value::String(segment_text(alloc, &bounds.first)?)),
        None => Ok(Value::Null),
    }
}

fn last_value(alloc: Global, bounds: Option<Bounds>) -> Result<Value, NoMemory>
    ensures { IfOk result (λ v. view v ≡ or_null string (last_name bounds)) }
{
    match bounds {
        Some(bounds) => Ok(Value::String(segment_text(alloc, &bounds.last)?)),
        None => Ok(Value::Null),
    }
}

fn archive_value(
    alloc: Global,
    archived: &[ArchivedName],
    cluster: &ClusterId,
) -> Result<Value, NoMemory>
    ensures { IfOk result (λ v. view v ≡ archive_data archived.now cluster.now) }
{
    let id = id_of(cluster);
    let bounds = bounds_of(archived, id);
    let mut members = Map::new(alloc);
    put(
        &mut members,
        alloc,
        "id",
        Value::String(id_text(alloc, id)?),
    )?;
    put(&mut members, alloc, "max", last_value(alloc, bounds)?)?;
    put(&mut members, alloc, "min", first_value(alloc, bounds)?)?;
    Ok(Value::Object(members))
}

fn archives_value(
    alloc: Global,
    archived: &[ArchivedName],
    history: &[ClusterId],
) -> Result<Value, NoMemory>
    ensures { IfOk result (λ v. view v ≡ list_of (map (archive_data archived.now) history.now)) }
{
    let mut archives = Vec::new(alloc);
    for cluster in history {
        archives.push(archive_value(alloc, archived, cluster)?)?;
    }
    Ok(Value::Array(archives))
}

fn cluster_value(alloc: Global, c: &Cluster) -> Result<Value, NoMemory>
    ensures { IfOk result (λ v. view v ≡ cluster_data c.now) }
{
    let version = decimal(alloc, u64::from(c.version))?;
    let mut members = Map::new(alloc);
    put(
        &mut members,
        alloc,
        "db-catalog-version",
        Value::from(u64::from(c.catalog)),
    )?;
    put(
        &mut members,
        alloc,
        "db-control-version",
        Value::from(u64::from(c.control)),
    )?;
    put(&mut members, alloc, "db-system-id", Value::from(c.system))?;
    put(&mut members, alloc, "db-version", Value::String(version))?;
    put(&mut members, alloc, "id", Value::from(u64::from(c.id)))?;
    Ok(Value::Object(members))
}

fn clusters_value(alloc: Global, history: &[Cluster]) -> Result<Value, NoMemory>
    ensures { IfOk result (λ v. view v ≡ list_of (map cluster_data history.now)) }
{
    let mut clusters = Vec::new(alloc);
    for c in history {
        clusters.push(cluster_value(alloc, c)?)?;
    }
    Ok(Value::Array(clusters))
}

// Of the clusters in `backup.info` those that the archive has.
fn known_clusters<'a>(history: &'a [Cluster], archive: &[ClusterId]) -> &'a [Cluster]
    ensures { result.now ≡ take (length archive.now) history.now }
{
    if archive.len() < history.len() {
        &history[..archive.len()]
    } else {
        history
    }
}

fn status_code(backups: &[Entry]) -> u64
    ensures { result ≡ status_code (map entry_of backups.now) }
{
    if backups.is_empty() { 2 } else { 0 }
}

fn status_message(backups: &[Entry]) -> &'static str
    ensures { result.now ≡ status_message (map entry_of backups.now) }
{
    if backups.is_empty() {
        "no valid backups"
    } else {
        "ok"
    }
}

fn status_value(alloc: Global, backups: &[Entry]) -> Result<Value, NoMemory>
    ensures { IfOk result (λ v. view v ≡ status_data (map entry_of backups.now)) }
{
    let code = status_code(backups);
    let message = status_message(backups);
    Ok(json!(in alloc; { "code": code, "message": message })?)
}

fn report_value(alloc: Global, report: &Report<'_>) -> Result<Value, NoMemory>
    requires { IsBackupInfo (backup_info_of report.now.info.now) }
    ensures { IfOk result (λ v. view v ≡ data_of_report report.now) }
{
    let history = &report.archive.history;
    let archives = archives_value(alloc, report.archived, history)?;
    let backups = backups_value(alloc, report.info)?;
    let clusters = clusters_value(alloc, known_clusters(&report.info.history, history))?;
    let status = status_value(alloc, &report.info.backups)?;
    let mut members = Map::new(alloc);
    put(&mut members, alloc, "archive", archives)?;
    put(&mut members, alloc, "backup", backups)?;
    put(
        &mut members,
        alloc,
        "cipher",
        Value::try_from_str(alloc, "none")?,
    )?;
    put(&mut members, alloc, "db", clusters)?;
    put(
        &mut members,
        alloc,
        "name",
        Value::try_from_str(alloc, report.stanza)?,
    )?;
    put(&mut members, alloc, "status", status)?;
    let mut stanzas = Vec::new(alloc);
    stanzas.push(Value::Object(members))?;
    Ok(Value::Array(stanzas))
}

/// The report as one compact line of JSON, with its newline.
pub fn report_json(alloc: Global, report: &Report<'_>) -> Result<String, NoMemory>
    requires { IsBackupInfo (backup_info_of report.now.info.now) }
    ensures { IfOk result (λ t. string_bytes t ≡ json_of_report report.now) }
{
    let value = report_value(alloc, report)?;
    let mut text = value.to_string(alloc)?;
    text.push_str("\n")?;
    Ok(text)
}
