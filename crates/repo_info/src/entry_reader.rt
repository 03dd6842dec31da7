// Reads listed backups.
ghost use Rattle.std.specs.Prelude.{◌≡◌, ◌≤◌, ◌<◌, ◌^◌, Some, map, true, IfOk, IfSome, IfNone};
ghost use Rattle.std.specs.List.{AllByRecursion};
ghost use Rattle.std.specs.Option.{option_map_or};
ghost use Rattle.serde_json.specs.View.{view};
ghost use Rattle.base_devices.specs.Order.{are_in_order};
ghost use Rattle.base_model.specs.Json.{IsValue};
ghost use Rattle.base_devices.specs.States.{last_second};
ghost use Rattle.base_model.specs.Names.{label_text};
ghost use Rattle.base_model.specs.InfoFiles.{IsLabel, label_kind, entry_field};
ghost use Rattle.base_model.specs.Values.{entry_of, Entry as SpecEntry};
ghost use Rattle.repo_info.specs.Entries.{IsEntry, numbers_of, ReferencesAre, EntryIs, StatesEntry, StatesNoEntry};

use crate::entries::entry_value;
use crate::entry_parts::{are_in_order, labels_in, prior_in, second_in, span_in};
use base_model::{Entry, Label, Span};
use base_text::NoMemory;
use repo_keys::{are_same, number_of, whole_of};
use repo_names::label_kind;
use serde_json::Value;
use std::alloc::Global;

// The numbers of a listed backup.
#[derive(Clone, Copy)]
struct Numbers {
    db: u32,
    start: u64,
    stop: u64,
    size: u64,
    stored: u64,
}

fn numbers_in(value: &Value) -> Option<Numbers>
    ensures db { IfSome result (λ n. 1 ≤ n.db) }
    ensures start { IfSome result (λ n. n.start ≤ last_second) }
    ensures stop { IfSome result (λ n. n.stop ≤ last_second) }
    ensures only { (e : SpecEntry) → IsEntry e → view value.now ≡ (entry_field e).1 → result ≡ Some (numbers_of e) }
{
    let stored = whole_of(value.get("backup-info-repo-size-delta")?)?;
    let size = whole_of(value.get("backup-info-size")?)?;
    let start = second_in(value.get("backup-timestamp-start")?)?;
    let stop = second_in(value.get("backup-timestamp-stop")?)?;
    let db = number_of(value.get("db-id")?)?;
    Some(Numbers {
        db,
        start,
        stop,
        size,
        stored,
    })
}

fn log_in(value: &Value) -> Option<Option<Span>>
    ensures { (e : SpecEntry) → IsEntry e → view value.now ≡ (entry_field e).1 → result ≡ Some e.span }
{
    span_in(
        value.get("backup-archive-start")?,
        value.get("backup-archive-stop")?,
    )
}

// The backup on which this one rests.
fn base_in(value: &Value) -> Option<Option<Label>>
    ensures rules { IfSome result (λ o. IfSome o IsLabel) }
    ensures only { (e : SpecEntry) → IsEntry e → view value.now ≡ (entry_field e).1 → result ≡ Some e.prior }
{
    prior_in(value.get("backup-prior")?)
}

fn references_in(alloc: Global, value: &Value) -> Result<Option<Vec<Label>>, NoMemory>
    ensures rules { IfOk result (λ o. IfSome o (λ v. AllByRecursion IsLabel v.items)) }
    ensures order { IfOk result (λ o. IfSome o (λ v. are_in_order (map label_text v.items) ≡ true)) }
    ensures only { IfOk result (ReferencesAre (view value.now)) }
{
    let Some(value) = value.get("backup-reference") else {
        return Ok(None);
    };
    let Some(labels) = labels_in(alloc, value)? else {
        return Ok(None);
    };
    if are_in_order(alloc, &labels)? {
        Ok(Some(labels))
    } else {
        Ok(None)
    }
}

// The backup of this label that these members state, where the value is that of one.
fn entry_in(alloc: Global, label: &Label, value: &Value) -> Result<Option<Entry>, NoMemory>
    requires { IsLabel label.now }
    ensures rules { IfOk result (λ o. IfSome o (λ e. IsEntry (entry_of e) × (e.label ≡ label.now))) }
    ensures only { IfOk result (EntryIs label.now (view value.now)) }
{
    let Some(span) = log_in(value) else {
        return Ok(None);
    };
    let Some(prior) = base_in(value) else {
        return Ok(None);
    };
    let Some(numbers) = numbers_in(value) else {
        return Ok(None);
    };
    let Some(references) = references_in(alloc, value)? else {
        return Ok(None);
    };
    Ok(Some(Entry {
        label: *label,
        kind: label_kind(label),
        prior,
        references,
        db: numbers.db,
        span,
        start: numbers.start,
        stop: numbers.stop,
        size: numbers.size,
        stored: numbers.stored,
    }))
}

/// The listed backup of this label whose value this is.
pub(crate) fn read_entry(
    alloc: Global,
    label: &Label,
    value: &Value,
) -> Result<Option<Entry>, NoMemory>
    requires label { IsLabel label.now }
    requires value { IsValue (view value.now) }
    ensures some { IfOk result (λ o. IfSome o (λ e. StatesEntry label.now (view value.now) (entry_of e))) }
    ensures none { IfOk result (λ o. IfNone o (StatesNoEntry label.now (view value.now))) }
{
    let Some(entry) = entry_in(alloc, label, value)? else {
        return Ok(None);
    };
    let expected = entry_value(alloc, &entry)?;
    if are_same(alloc, value, &expected)? {
        Ok(Some(entry))
    } else {
        Ok(None)
    }
}
