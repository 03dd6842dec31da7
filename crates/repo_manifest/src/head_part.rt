// Writes the section `backup`.
ghost use Rattle.std.specs.Prelude.{◌≡◌, ◌++◌, codes, IfOk, OnOk, IfSome};
ghost use Rattle.base_model.specs.InfoFiles.{IsLabel};
ghost use Rattle.repo_ini.specs.Parts.{keys_of, section_of};
ghost use Rattle.repo_manifest.specs.Head.{head_fields, then_span, then_positions, prior_field, time_fields, size_field};

use crate::head::Head;
use crate::positions::lsn_text;
use base_model::{Label, WalPart};
use base_text::NoMemory;
use repo_info::kind_value;
use repo_ini::Part;
use repo_names::{label_text, segment_text};
use serde_json::Value;
use std::alloc::Global;

// The segments between which the log lies.
fn add_span(alloc: Global, part: &mut Part, wal: Option<WalPart>) -> Result<(), NoMemory>
    ensures name { part.new.name ≡ part.old.name }
    ensures keys { OnOk result (keys_of part.new ≡ then_span (keys_of part.old) wal) }
{
    let Some(wal) = wal else {
        return Ok(());
    };
    let start = segment_text(alloc, &wal.span.start)?;
    let stop = segment_text(alloc, &wal.span.stop)?;
    part.add(alloc, "backup-archive-start", Value::String(start))?;
    part.add(alloc, "backup-archive-stop", Value::String(stop))?;
    Ok(())
}

// The positions between which it lies.
fn add_positions(alloc: Global, part: &mut Part, wal: Option<WalPart>) -> Result<(), NoMemory>
    ensures name { part.new.name ≡ part.old.name }
    ensures keys { OnOk result (keys_of part.new ≡ then_positions (keys_of part.old) wal) }
{
    let Some(wal) = wal else {
        return Ok(());
    };
    let from = lsn_text(alloc, wal.from)?;
    let to = lsn_text(alloc, wal.to)?;
    part.add(alloc, "backup-lsn-start", Value::String(from))?;
    part.add(alloc, "backup-lsn-stop", Value::String(to))?;
    Ok(())
}

fn add_prior(alloc: Global, part: &mut Part, prior: Option<Label>) -> Result<(), NoMemory>
    requires { IfSome prior IsLabel }
    ensures name { part.new.name ≡ part.old.name }
    ensures keys { OnOk result (keys_of part.new ≡ keys_of part.old ++ prior_field prior) }
{
    let Some(label) = prior else {
        return Ok(());
    };
    let text = label_text(alloc, &label)?;
    part.add(alloc, "backup-prior", Value::String(text))?;
    Ok(())
}

// The times and the kind, which each manifest has.
fn add_times(alloc: Global, part: &mut Part, head: &Head) -> Result<(), NoMemory>
    ensures name { part.new.name ≡ part.old.name }
    ensures keys { OnOk result (keys_of part.new ≡ keys_of part.old ++ time_fields head.now) }
{
    let kind = kind_value(alloc, head.kind)?;
    part.add(alloc, "backup-timestamp-start", Value::from(head.start))?;
    part.add(alloc, "backup-timestamp-stop", Value::from(head.stop))?;
    part.add(alloc, "backup-type", kind)?;
    Ok(())
}

fn add_size(alloc: Global, part: &mut Part, wal: Option<WalPart>) -> Result<(), NoMemory>
    ensures name { part.new.name ≡ part.old.name }
    ensures keys { OnOk result (keys_of part.new ≡ keys_of part.old ++ size_field wal) }
{
    let Some(wal) = wal else {
        return Ok(());
    };
    let size = u64::from(wal.size.0);
    part.add(alloc, "backup-wal-segment-size", Value::from(size))?;
    Ok(())
}

/// The section that states this of a backup.
pub(crate) fn head_part(alloc: Global, head: &Head) -> Result<Part, NoMemory>
    requires label { IsLabel head.now.label }
    requires prior { IfSome head.now.prior IsLabel }
    ensures { IfOk result (λ p. section_of p ≡ record { name = codes "backup"; keys = head_fields head.now }) }
{
    let mut part = Part::new(alloc, "backup")?;
    add_span(alloc, &mut part, head.wal)?;
    let label = label_text(alloc, &head.label)?;
    part.add(alloc, "backup-label", Value::String(label))?;
    add_positions(alloc, &mut part, head.wal)?;
    add_prior(alloc, &mut part, head.prior)?;
    add_times(alloc, &mut part, head)?;
    add_size(alloc, &mut part, head.wal)?;
    Ok(part)
}
