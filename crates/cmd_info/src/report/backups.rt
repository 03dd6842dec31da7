// The lines of a stanza's backups.
ghost use Rattle.std.specs.Prelude.{◌≡◌, ◌≤◌, ◌++◌, ◌∷◌, map, flat_map, codes, IfOk, OnOk, string_bytes};
ghost use Rattle.std.specs.List.{AllByRecursion, join_by};
ghost use Rattle.base_model.specs.InfoFiles.{IsLabel, kind_text};
ghost use Rattle.base_model.specs.Names.{label_text};
ghost use Rattle.base_model.specs.Values.{entry_of};
ghost use Rattle.base_devices.specs.States.{last_second};
ghost use Rattle.cmd_info.specs.Lines.{AddsTexts, texts_of};
ghost use Rattle.cmd_info.specs.ReportText.{name_line, times_line, wal_text, wal_line, sizes_line, reference_line, reference_lines, backup_lines};
ghost use Rattle.cmd_info.specs.Shown.{HasTexts};

use crate::report::lines::add_line;
use crate::report::moments::moment;
use base_model::{BackupKind, Entry, Label, Span};
use base_text::{NoMemory, decimal};
use repo_names::{label_text, segment_text};
use std::alloc::Global;

fn kind_text(kind: BackupKind) -> &'static str
    ensures { result.now ≡ kind_text kind }
{
    match kind {
        BackupKind::Full => "full",
        BackupKind::Diff => "diff",
        BackupKind::Incr => "incr",
    }
}

fn wal_text(alloc: Global, span: Option<Span>) -> Result<String, NoMemory>
    ensures { IfOk result (λ text. string_bytes text ≡ wal_text span) }
{
    let Some(span) = span else {
        return Ok("n/a".to_string(alloc)?);
    };
    let start = segment_text(alloc, &span.start)?;
    let stop = segment_text(alloc, &span.stop)?;
    Ok(format!(in alloc; "{start} / {stop}")?)
}

// The labels, with a comma and a blank between each two.
fn joined(alloc: Global, first: &Label, others: &[Label]) -> Result<String, NoMemory>
    requires first { IsLabel first.now }
    requires others { AllByRecursion IsLabel others.now }
    ensures { IfOk result (λ text. string_bytes text ≡ join_by label_text (codes ", ") (first.now ∷ others.now)) }
{
    let mut text = label_text(alloc, first)?;
    for label in others {
        let label = label_text(alloc, label)?;
        text.push_str(", ")?;
        text.push_str(&label)?;
    }
    Ok(text)
}

fn reference_line(alloc: Global, first: &Label, others: &[Label]) -> Result<String, NoMemory>
    requires first { IsLabel first.now }
    requires others { AllByRecursion IsLabel others.now }
    ensures { IfOk result (λ text. string_bytes text ≡ reference_line (first.now ∷ others.now)) }
{
    let labels = joined(alloc, first, others)?;
    Ok(format!(in alloc; "            backup reference list: {labels}")?)
}

fn add_references(
    alloc: Global,
    lines: &mut Vec<String>,
    references: &[Label],
) -> Result<(), NoMemory>
    requires { AllByRecursion IsLabel references.now }
    ensures { OnOk result (texts_of lines.new ≡ texts_of lines.old ++ reference_lines references.now) }
{
    match references {
        [] => Ok(()),
        [first, others @ ..] => add_line(lines, reference_line(alloc, first, others)?),
    }
}

fn name_line(alloc: Global, e: &Entry) -> Result<String, NoMemory>
    requires { IsLabel e.now.label }
    ensures { IfOk result (λ text. string_bytes text ≡ name_line (entry_of e.now)) }
{
    let kind = kind_text(e.kind);
    let label = label_text(alloc, &e.label)?;
    Ok(format!(in alloc; "        {kind} backup: {label}")?)
}

fn times_line(alloc: Global, e: &Entry) -> Result<String, NoMemory>
    requires start { e.now.start ≤ last_second }
    requires stop { e.now.stop ≤ last_second }
    ensures { IfOk result (λ text. string_bytes text ≡ times_line (entry_of e.now)) }
{
    let start = moment(alloc, e.start)?;
    let stop = moment(alloc, e.stop)?;
    Ok(format!(in alloc; "            timestamp start/stop: {start} / {stop}")?)
}

fn wal_line(alloc: Global, e: &Entry) -> Result<String, NoMemory>
    ensures { IfOk result (λ text. string_bytes text ≡ wal_line (entry_of e.now)) }
{
    let wal = wal_text(alloc, e.span)?;
    Ok(format!(in alloc; "            wal start/stop: {wal}")?)
}

fn sizes_line(alloc: Global, e: &Entry) -> Result<String, NoMemory>
    ensures { IfOk result (λ text. string_bytes text ≡ sizes_line (entry_of e.now)) }
{
    let size = decimal(alloc, e.size)?;
    let stored = decimal(alloc, e.stored)?;
    Ok(format!(in alloc; "            database size: {size}B, backup size: {stored}B")?)
}

#[tactic(auto, unfolding(crate::specs::ReportText::backup_lines))]
fn add_backup(alloc: Global, lines: &mut Vec<String>, e: &Entry) -> Result<(), NoMemory>
    requires { HasTexts (entry_of e.now) }
    ensures { OnOk result (texts_of lines.new ≡ texts_of lines.old ++ backup_lines (entry_of e.now)) }
{
    add_line(lines, String::new(alloc))?;
    add_line(lines, name_line(alloc, e)?)?;
    add_line(lines, times_line(alloc, e)?)?;
    add_line(lines, wal_line(alloc, e)?)?;
    add_line(lines, sizes_line(alloc, e)?)?;
    add_references(alloc, lines, &e.references)?;
    Ok(())
}

/// Adds the lines of each backup.
pub(crate) fn add_backups(
    alloc: Global,
    lines: &mut Vec<String>,
    backups: &[Entry],
) -> Result<(), NoMemory>
    requires { AllByRecursion (λ e. HasTexts (entry_of e)) backups.now }
    ensures { OnOk result (AddsTexts (flat_map backup_lines (map entry_of backups.now)) lines.old lines.new) }
{
    for e in backups {
        add_backup(alloc, lines, e)?;
    }
    Ok(())
}
