// The backup that a further one is based on.
ghost use Rattle.std.specs.Prelude.{◌≡◌, map, option_map};
ghost use Rattle.base_model.specs.Values.{entry_of};
ghost use Rattle.cmd_backup_common.specs.Priors.{latest_full, bases, may_base, prior_for, made_label, kind_line};

use base_model::{BackupKind, Entry, Label, Later};

// The time of the latest full backup that the labels state.
fn latest_full(backups: &[Entry]) -> u64
    ensures { result ≡ latest_full (map entry_of backups.now) }
{
    let mut latest = 0;
    for entry in backups {
        latest = entry.label.full.max(latest);
    }
    latest
}

// A backup of the first kind may be based on one of the second.
fn bases(kind: BackupKind, other: BackupKind) -> bool
    ensures { result ≡ bases kind other }
{
    match kind {
        BackupKind::Full => false,
        BackupKind::Diff => other == BackupKind::Full,
        BackupKind::Incr => true,
    }
}

// A backup of the kind may be based on this one.
fn may_base(kind: BackupKind, cluster: u32, full: u64, entry: &Entry) -> bool
    ensures { result ≡ may_base kind cluster full (entry_of entry.now) }
{
    bases(kind, entry.kind) && entry.db == cluster && entry.label.full == full
}

/// The backup that one of this kind is based on: the last one of the cluster of this number that may be, and none for a
/// full backup.
pub fn prior_of(kind: BackupKind, cluster: u32, backups: &[Entry]) -> Option<&Entry>
    ensures { option_map (λ e. entry_of e.now) result ≡ prior_for kind cluster (map entry_of backups.now) }
{
    let full = latest_full(backups);
    let mut prior = None;
    for entry in backups {
        if may_base(kind, cluster, full, entry) {
            prior = Some(entry);
        }
    }
    prior
}

/// The label of a backup of this kind that begins in this second. Without a prior it is a full one.
pub fn made_label(kind: BackupKind, prior: Option<&Entry>, second: u64) -> Label
    ensures { result ≡ made_label kind (option_map (λ e. entry_of e.now) prior.entry) second }
{
    match prior {
        None => Label {
            full: second,
            later: None,
        },
        Some(entry) => Label {
            full: entry.label.full,
            later: Some(Later { time: second, kind }),
        },
    }
}

/// What is reported where a backup of this kind becomes a full one, since it has no prior.
pub fn kind_line(kind: BackupKind, prior: Option<&Entry>) -> &'static str
    ensures { result.now ≡ kind_line kind (option_map (λ e. entry_of e.now) prior.entry) }
{
    match (kind, prior) {
        (BackupKind::Diff, None) =>
            "WARN: no prior backup exists, diff backup has been changed to full\n",
        (BackupKind::Incr, None) =>
            "WARN: no prior backup exists, incr backup has been changed to full\n",
        _ => "",
    }
}
