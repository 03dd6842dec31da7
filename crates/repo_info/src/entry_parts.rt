// The parts of a listed backup's value.
ghost use Rattle.std.specs.Prelude.{◌≡◌, ◌≢◌, ◌≤◌, ◌<◌, ◌^◌, ℕ, Option, Some, map, true, IfOk, IfSome, IfNone};
ghost use Rattle.std.specs.List.{AllByRecursion};
ghost use Rattle.serde_json.specs.View.{view};
ghost use Rattle.serde_json.specs.Find.{get};
ghost use Rattle.base_devices.specs.Order.{are_in_order};
ghost use Rattle.base_model.specs.declared.labels.Label.{Label};
ghost use Rattle.base_model.specs.declared.wal.Segment.{Segment};
ghost use Rattle.base_model.specs.declared.wal.Span.{Span};
ghost use Rattle.base_devices.specs.States.{last_second};
ghost use Rattle.base_model.specs.Fields.{whole, or_null};
ghost use Rattle.base_model.specs.Names.{label_text};
ghost use Rattle.base_model.specs.InfoFiles.{IsLabel, IsSegment, label_value, segment_value};
ghost use Rattle.repo_info.specs.Entries.{between, SpanIs, LabelsAre};

use base_model::{Label, Segment, Span};
use base_text::NoMemory;
use repo_ini::is_before;
use repo_keys::whole_of;
use repo_names::{label_text, read_label, read_segment};
use serde_json::Value;
use std::alloc::Global;

/// The label that this value is.
pub fn label_in(value: &Value) -> Option<Label>
    ensures some { IfSome result (λ l. IsLabel l × (view value.now ≡ label_value l)) }
    ensures none { IfNone result ((l : Label) → IsLabel l → view value.now ≢ label_value l) }
{
    let text = value.as_str()?;
    read_label(text.as_bytes())
}

/// The label that this value is, or none where it is null.
pub(crate) fn prior_in(value: &Value) -> Option<Option<Label>>
    ensures rules { IfSome result (λ o. IfSome o IsLabel) }
    ensures only { (o : Option Label) → IfSome o IsLabel → view value.now ≡ or_null label_value o
        → result ≡ Some o }
{
    if value.is_null() {
        return Some(None);
    }
    let label = label_in(value)?;
    Some(Some(label))
}

// The segment that this value is, or none where it is null.
fn end_in(value: &Value) -> Option<Option<Segment>>
    ensures { (o : Option Segment) → IfSome o IsSegment → view value.now ≡ or_null segment_value o
        → result ≡ Some o }
{
    if value.is_null() {
        return Some(None);
    }
    let text = value.as_str()?;
    let segment = read_segment(text.as_bytes())?;
    Some(Some(segment))
}

// The span of these two ends.
fn between(start: Option<Segment>, stop: Option<Segment>) -> Option<Option<Span>>
    ensures { result ≡ between start stop }
{
    match (start, stop) {
        (None, None) => Some(None),
        (Some(start), Some(stop)) => Some(Some(Span { start, stop })),
        _ => None,
    }
}

/// The segments between which the log of a backup lies, or none where both ends are null.
pub(crate) fn span_in(start: &Value, stop: &Value) -> Option<Option<Span>>
    ensures { SpanIs (view start.now) (view stop.now) result }
{
    let first = end_in(start)?;
    let last = end_in(stop)?;
    between(first, last)
}

/// The labels that this value lists.
pub(crate) fn labels_in(alloc: Global, value: &Value) -> Result<Option<Vec<Label>>, NoMemory>
    ensures some { IfOk result (λ o. IfSome o (λ v. AllByRecursion IsLabel v.items)) }
    ensures only { IfOk result (LabelsAre (view value.now)) }
{
    let Some(items) = value.as_array() else {
        return Ok(None);
    };
    let mut labels = Vec::new(alloc);
    for item in items {
        let Some(label) = label_in(item) else {
            return Ok(None);
        };
        labels.push(label)?;
    }
    Ok(Some(labels))
}

/// Whether the labels are in byte order of their texts.
pub(crate) fn are_in_order(alloc: Global, labels: &[Label]) -> Result<bool, NoMemory>
    requires { AllByRecursion IsLabel labels.now }
    ensures { IfOk result (λ ordered. ordered ≡ are_in_order (map label_text labels.now)) }
{
    let mut last = String::new(alloc);
    for label in labels {
        let text = label_text(alloc, label)?;
        if !is_before(last.as_bytes(), text.as_bytes()) {
            return Ok(false);
        }
        last = text;
    }
    Ok(true)
}

/// The second that this value is.
pub fn second_in(value: &Value) -> Option<u64>
    ensures some { IfSome result (λ t. (t ≤ last_second) × (view value.now ≡ whole t)) }
    ensures none { IfNone result ((t : ℕ) → t ≤ last_second → view value.now ≢ whole t) }
{
    let time = whole_of(value)?;
    if time > 253_402_300_799 {
        return None;
    }
    Some(time)
}
