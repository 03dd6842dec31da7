// Labels that are listed, and names of folders that are none of these.
ghost use Rattle.std.specs.Prelude.{◌≡◌, true, false, map};
ghost use Rattle.base_model.specs.Values.{entry_of};
ghost use Rattle.expire_rules.specs.Labels.{is_label, has_label, labels_of};
ghost use Rattle.expire_rules.specs.Condemned.{without_labels};
ghost use Rattle.expire_make.specs.Losing.{IsTextUnlisted};

use base_model::{Entry, Label};
use expire_rules::has_label;
use repo_names::read_label;

// Whether a backup has this label.
fn is_named(entry: &Entry, label: &Label) -> bool
    ensures { result ≡ is_label (entry_of entry.now).label label.now }
{
    entry.label == *label
}

// Whether a backup of this label is listed.
fn lists(entries: &[Entry], label: &Label) -> bool
    ensures { result ≡ has_label (labels_of (map entry_of entries.now)) label.now }
{
    for each in entries {
        if is_named(each, label) {
            return true;
        }
    }
    false
}

/// Whether the text is that of a label that isn't listed.
pub(crate) fn is_unlisted(text: &[u8], entries: &[Entry]) -> bool
    ensures yes { result ≡ true → IsTextUnlisted (labels_of (map entry_of entries.now)) text.now }
    ensures no { result ≡ false → ¬ IsTextUnlisted (labels_of (map entry_of entries.now)) text.now }
{
    match read_label(text) {
        Some(label) => !lists(entries, &label),
        None => false,
    }
}

/// The backups without those of the labels.
pub(crate) fn without(entries: Vec<Entry>, labels: &[Label]) -> Vec<Entry>
    ensures { map entry_of result.items ≡ without_labels labels.now (map entry_of entries.items) }
{
    let mut entries = entries;
    entries.retain(|e| !has_label(labels, &e.label));
    entries
}
