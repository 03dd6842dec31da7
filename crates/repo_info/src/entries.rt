// The values of listed backups.
ghost use Rattle.std.specs.Prelude.{◌≡◌, map, IfOk, OnOk, IfSome};
ghost use Rattle.std.specs.List.{AllByRecursion};
ghost use Rattle.serde_json.specs.Data.{string};
ghost use Rattle.serde_json.specs.View.{view, members_view};
ghost use Rattle.base_model.specs.Fields.{list_of, or_null};
ghost use Rattle.base_model.specs.InfoFiles.{IsLabel, label_value, kind_text, entry_field};
ghost use Rattle.base_model.specs.Values.{entry_of};
ghost use Rattle.repo_info.specs.Entries.{HasLabels, start_value, stop_value, with_log, with_sizes, with_others, with_times};

use base_model::{BackupKind, Entry, Label, Span};
use base_text::NoMemory;
use repo_names::{label_text, segment_text};
use serde_json::{Map, Value, put};
use std::alloc::Global;

/// The value of a kind of backup.
pub fn kind_value(alloc: Global, kind: BackupKind) -> Result<Value, NoMemory>
    ensures { IfOk result (λ v. view v ≡ string (kind_text kind)) }
{
    let text = match kind {
        BackupKind::Full => "full",
        BackupKind::Diff => "diff",
        BackupKind::Incr => "incr",
    };
    Ok(Value::try_from_str(alloc, text)?)
}

fn prior_value(alloc: Global, prior: Option<Label>) -> Result<Value, NoMemory>
    requires { IfSome prior IsLabel }
    ensures { IfOk result (λ v. view v ≡ or_null label_value prior) }
{
    match prior {
        Some(label) => Ok(Value::String(label_text(alloc, &label)?)),
        None => Ok(Value::Null),
    }
}

fn start_value(alloc: Global, span: Option<Span>) -> Result<Value, NoMemory>
    ensures { IfOk result (λ v. view v ≡ start_value span) }
{
    match span {
        Some(span) => Ok(Value::String(segment_text(alloc, &span.start)?)),
        None => Ok(Value::Null),
    }
}

fn stop_value(alloc: Global, span: Option<Span>) -> Result<Value, NoMemory>
    ensures { IfOk result (λ v. view v ≡ stop_value span) }
{
    match span {
        Some(span) => Ok(Value::String(segment_text(alloc, &span.stop)?)),
        None => Ok(Value::Null),
    }
}

fn references_value(alloc: Global, references: &[Label]) -> Result<Value, NoMemory>
    requires { AllByRecursion IsLabel references.now }
    ensures { IfOk result (λ v. view v ≡ list_of (map label_value references.now)) }
{
    let mut labels = Vec::new(alloc);
    for label in references {
        labels.push(Value::String(label_text(alloc, label)?))?;
    }
    Ok(Value::Array(labels))
}

fn add_log(
    alloc: Global,
    members: &mut Map<String, Value>,
    span: Option<Span>,
) -> Result<(), NoMemory>
    ensures { OnOk result (members_view members.new.entries ≡ with_log span (members_view members.old.entries)) }
{
    put(
        members,
        alloc,
        "backup-archive-start",
        start_value(alloc, span)?,
    )?;
    put(
        members,
        alloc,
        "backup-archive-stop",
        stop_value(alloc, span)?,
    )?;
    Ok(())
}

fn add_sizes(alloc: Global, members: &mut Map<String, Value>, e: &Entry) -> Result<(), NoMemory>
    ensures { OnOk result (members_view members.new.entries ≡ with_sizes e.now (members_view members.old.entries)) }
{
    put(
        members,
        alloc,
        "backup-info-repo-size-delta",
        Value::from(e.stored),
    )?;
    put(members, alloc, "backup-info-size", Value::from(e.size))?;
    Ok(())
}

// The backups on which this one rests.
fn add_others(alloc: Global, members: &mut Map<String, Value>, e: &Entry) -> Result<(), NoMemory>
    requires { HasLabels (entry_of e.now) }
    ensures { OnOk result (members_view members.new.entries ≡ with_others e.now (members_view members.old.entries)) }
{
    put(members, alloc, "backup-prior", prior_value(alloc, e.prior)?)?;
    put(
        members,
        alloc,
        "backup-reference",
        references_value(alloc, &e.references)?,
    )?;
    Ok(())
}

fn add_times(alloc: Global, members: &mut Map<String, Value>, e: &Entry) -> Result<(), NoMemory>
    ensures { OnOk result (members_view members.new.entries ≡ with_times e.now (members_view members.old.entries)) }
{
    put(
        members,
        alloc,
        "backup-timestamp-start",
        Value::from(e.start),
    )?;
    put(members, alloc, "backup-timestamp-stop", Value::from(e.stop))?;
    Ok(())
}

/// A listed backup, without its label.
pub(crate) fn entry_value(alloc: Global, e: &Entry) -> Result<Value, NoMemory>
    requires { HasLabels (entry_of e.now) }
    ensures { IfOk result (λ v. view v ≡ (entry_field (entry_of e.now)).1) }
{
    let mut members = Map::new(alloc);
    add_log(alloc, &mut members, e.span)?;
    add_sizes(alloc, &mut members, e)?;
    add_others(alloc, &mut members, e)?;
    add_times(alloc, &mut members, e)?;
    put(
        &mut members,
        alloc,
        "backup-type",
        kind_value(alloc, e.kind)?,
    )?;
    put(&mut members, alloc, "db-id", Value::from(u64::from(e.db)))?;
    Ok(Value::Object(members))
}
