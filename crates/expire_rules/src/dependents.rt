// Labels, and those of the backups that depend on them.
ghost use Rattle.std.specs.Prelude.{◌≡◌, false, Option, IfOk, OnOk, map};
ghost use Rattle.std.specs.Option.{option_map_or};
ghost use Rattle.base_model.specs.Values.{entry_of};
ghost use Rattle.expire_rules.specs.Labels.{has_label};
ghost use Rattle.expire_rules.specs.Condemned.{AddsDependent, AreWithDependents};

use crate::labels::has_label;
use base_model::{Entry, Label};
use base_text::NoMemory;

// Whether the prior is among the labels.
fn has_prior(labels: &[Label], prior: Option<Label>) -> bool
    ensures { result ≡ option_map_or (has_label labels.now) prior false }
{
    match prior {
        Some(prior) => has_label(labels, &prior),
        None => false,
    }
}

// Adds the backup's label, where its prior is among the labels.
fn push_dependent(labels: &mut Vec<Label>, entry: &Entry) -> Result<(), NoMemory>
    ensures { OnOk result (AddsDependent entry.now.label entry.now.prior labels.old.items labels.new.items) }
{
    if has_prior(labels, entry.prior) {
        labels.push(entry.label)?;
        return Ok(());
    }
    Ok(())
}

/// The labels with those of all backups that depend on them by prior.
pub(crate) fn with_dependents(entries: &[Entry], known: Vec<Label>) -> Result<Vec<Label>, NoMemory>
    ensures { IfOk result (λ r. AreWithDependents known.items (map entry_of entries.now) r.items) }
{
    let mut labels = known;
    for entry in entries {
        push_dependent(&mut labels, entry)?;
    }
    Ok(labels)
}
