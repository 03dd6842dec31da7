// The texts of labels.
ghost use Rattle.std.specs.Prelude.{◌≡◌, ◌≢◌, ◌≤◌, [], ◌∷◌, ◌++◌, Option, IfOk, OnOk, IfSome, IfNone, string_bytes};
ghost use Rattle.std.specs.Option.{option_map_or};
ghost use Rattle.base_model.specs.declared.labels.BackupKind.{BackupKind};
ghost use Rattle.base_model.specs.declared.labels.BackupKind.TheVariants.{Full};
ghost use Rattle.base_model.specs.declared.labels.Later.{Later};
ghost use Rattle.base_model.specs.declared.labels.Label.{Label};
ghost use Rattle.base_devices.specs.States.{last_second};
ghost use Rattle.base_model.specs.InfoFiles.{IsLabel, label_kind};
ghost use Rattle.base_model.specs.Names.{label_text, later_text, letter};
ghost use Rattle.repo_names.specs.Labels.{IsSecondPart, second_part};

use crate::labels::stamp_reader::{after, split_stamp};
use crate::labels::stamps::push_stamp;
use base_model::{BackupKind, Label, Later};
use base_text::NoMemory;
use std::alloc::Global;

fn letter(kind: BackupKind) -> char
    ensures { result ≡ letter kind }
{
    match kind {
        BackupKind::Full => 'F',
        BackupKind::Diff => 'D',
        BackupKind::Incr => 'I',
    }
}

fn push_later(text: &mut String, later: Option<Later>) -> Result<(), NoMemory>
    requires { IfSome later (λ l. l.time ≤ last_second) }
    ensures { OnOk result (string_bytes text.new ≡ string_bytes text.old ++ later_text later) }
{
    let Some(later) = later else {
        return Ok(());
    };
    text.push('_')?;
    push_stamp(text, later.time)?;
    text.push(letter(later.kind))?;
    Ok(())
}

/// The text of a label, as `20240102-030405F_20240103-030405D`.
pub fn label_text(alloc: Global, label: &Label) -> Result<String, NoMemory>
    requires { IsLabel label.now }
    ensures { IfOk result (λ text. string_bytes text ≡ label_text label.now) }
{
    let mut text = String::new(alloc);
    push_stamp(&mut text, label.full)?;
    text.push('F')?;
    push_later(&mut text, label.later)?;
    Ok(text)
}

// The kind that a second part's last letter states.
fn read_letter(text: &[u8]) -> Option<BackupKind>
    ensures value { IfSome result (λ k. (k ≢ Full) × (text.now ≡ letter k ∷ [])) }
    ensures none { IfNone result ((k : BackupKind) → k ≢ Full → text.now ≢ letter k ∷ []) }
{
    match text {
        [b'D'] => Some(BackupKind::Diff),
        [b'I'] => Some(BackupKind::Incr),
        _ => None,
    }
}

// The second part of which this is the text.
fn read_part(text: &[u8]) -> Option<Later>
    ensures value { IfSome result (λ l. (l.time ≤ last_second) × (l.kind ≢ Full) × (text.now ≡ second_part l)) }
    ensures none { IfNone result ((l : Later) → l.time ≤ last_second → l.kind ≢ Full → text.now ≢ second_part l) }
{
    let (time, rest) = split_stamp(text)?;
    let kind = read_letter(rest)?;
    Some(Later { time, kind })
}

// What follows the first part of a label.
fn read_later(text: &[u8]) -> Option<Option<Later>>
    ensures value { IfSome result (λ o. IfSome o IsSecondPart × (text.now ≡ later_text o)) }
    ensures none { IfNone result ((o : Option Later) → IfSome o IsSecondPart → text.now ≢ later_text o) }
{
    match text {
        [] => Some(None),
        [b'_', rest @ ..] => Some(Some(read_part(rest)?)),
        _ => None,
    }
}

/// The label of which this is the text.
pub fn read_label(text: &[u8]) -> Option<Label>
    ensures value { IfSome result (λ l. IsLabel l × (text.now ≡ label_text l)) }
    ensures none { IfNone result ((l : Label) → IsLabel l → text.now ≢ label_text l) }
{
    let (full, rest) = split_stamp(text)?;
    let rest = after(rest, b'F')?;
    let later = read_later(rest)?;
    Some(Label { full, later })
}

/// When the backup of a label began, in seconds since 1970, UTC.
pub fn label_time(label: &Label) -> u64
    ensures { result ≡ option_map_or (λ l. l.time) label.now.later label.now.full }
{
    match label.later {
        Some(later) => later.time,
        None => label.full,
    }
}

/// The kind of the backup of a label.
pub fn label_kind(label: &Label) -> BackupKind
    ensures { result ≡ label_kind label.now }
{
    match label.later {
        Some(later) => later.kind,
        None => BackupKind::Full,
    }
}
