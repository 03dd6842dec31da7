// Looks for the segments that a backup needs.
ghost use Rattle.std.specs.Prelude.{◌≡◌, ◌≢◌, ◌≤◌, ◌↔◌, false, IfOk, IsTrue, OnOk, string_bytes};
ghost use Rattle.base_model.specs.declared.wal.Segment.{Segment as SegmentOf};
ghost use Rattle.base_model.specs.InfoFiles.{IsLabel};
ghost use Rattle.base_model.specs.ManifestText.{IsWalPart, IsManifest};
ghost use Rattle.base_model.specs.Names.{label_folder};
ghost use Rattle.base_model.specs.Values.{manifest_of};
ghost use Rattle.base_model.specs.Text.{In};
ghost use Rattle.cmd_verify.specs.Adding.{Adds};
ghost use Rattle.cmd_verify.specs.Gaps.{IsNear, AddsWhole, HasWhole, IsGap, GapsOf};
ghost use Rattle.cmd_verify.specs.Looking.{AddsSpan};
ghost use Rattle.cmd_verify.specs.What.{Gap, Shows};

use crate::findings::finding::{Finding, FindingKind};
use archive_lookup::Stored;
use base_model::{ArchiveId, ArchiveName, Label, Manifest, Segment, Span, WalPart};
use base_text::NoMemory;
use repo_names::{label_text, next, segment_text};
use std::alloc::Global;

fn is_same(a: &Segment, b: &Segment) -> bool
    ensures yes { IsTrue result → a.now ≡ b.now }
    ensures no { result ≡ false → a.now ≢ b.now }
{
    a == b
}

// Whether the segment may lie within the span.
fn is_near(span: &Span, segment: &Segment) -> bool
    ensures yes { IsTrue result → IsNear span.now segment.now }
    ensures no { result ≡ false → ¬ IsNear span.now segment.now }
{
    segment.timeline == span.start.timeline
        && span.start.log <= segment.log
        && segment.log <= span.stop.log
}

// Adds the segment of a file, where the file is a whole one under the id, near the span.
fn add_segment(
    stored: &mut Vec<Segment>,
    file: &Stored,
    id: ArchiveId,
    span: &Span,
) -> Result<(), NoMemory>
    ensures { OnOk result (AddsWhole id span.now file.now stored.old.items stored.new.items) }
{
    if let ArchiveName::Segment(segment) = file.name {
        if file.id == id {
            if is_near(span, &segment) {
                stored.push(segment)?;
            }
        }
    }
    Ok(())
}

// The whole segments under this id, near the span: so each segment of the span is looked for among few.
fn whole_of(
    alloc: Global,
    files: &[Stored],
    id: ArchiveId,
    span: &Span,
) -> Result<Vec<Segment>, NoMemory>
    ensures { IfOk result (λ stored. (s : SegmentOf) → In s stored.items ↔ HasWhole id span.now files.now s) }
{
    let mut stored = Vec::new(alloc);
    for file in files {
        add_segment(&mut stored, file, id, span)?;
    }
    Ok(stored)
}

fn is_stored(stored: &[Segment], segment: &Segment) -> bool
    ensures yes { IsTrue result → In segment.now stored.now }
    ensures no { result ≡ false → ¬ In segment.now stored.now }
{
    for other in stored {
        if is_same(segment, other) {
            return true;
        }
    }
    false
}

fn gap(alloc: Global, name: &str, segment: &Segment) -> Result<Finding, NoMemory>
    ensures { IfOk result (λ x. Shows x name.now (Gap segment.now)) }
{
    let name = String::from_str(alloc, name)?;
    let segment = segment_text(alloc, segment)?;
    Ok(Finding {
        name,
        kind: FindingKind::Gap,
        line: format!(in alloc; "segment {segment} absent")?,
    })
}

fn tell_gap(
    alloc: Global,
    name: &str,
    stored: &[Segment],
    segment: &Segment,
    found: &mut Vec<Finding>,
) -> Result<(), NoMemory>
    ensures { OnOk result (Adds (IsGap name.now stored.now segment.now) found.old.items found.new.items) }
{
    if !is_stored(stored, segment) {
        found.push(gap(alloc, name, segment)?)?;
    }
    Ok(())
}

// Each segment of the span that isn't among these.
fn tell_gaps(
    alloc: Global,
    name: &str,
    stored: &[Segment],
    wal: &WalPart,
    found: &mut Vec<Finding>,
) -> Result<(), NoMemory>
    requires { IsWalPart wal.now }
    ensures { OnOk result (Adds (GapsOf name.now stored.now wal.now) found.old.items found.new.items) }
{
    let Span { start, stop } = wal.span;
    let mut segment = start;
    while !is_same(&segment, &stop) {
        tell_gap(alloc, name, stored, &segment, found)?;
        let Some(following) = next(&segment, wal.size) else {
            return Err(NoMemory);
        };
        segment = following;
    }
    tell_gap(alloc, name, stored, &stop, found)?;
    Ok(())
}

fn folder_name(alloc: Global, stanza: &str, own: &Label) -> Result<String, NoMemory>
    requires { IsLabel own.now }
    ensures { IfOk result (λ name. string_bytes name ≡ label_folder stanza.now own.now) }
{
    let label = label_text(alloc, own)?;
    Ok(format!(in alloc; "backup/{stanza}/{label}")?)
}

/// Looks for the segments that a backup needs among the archived files.
pub(crate) fn look_for_gaps(
    alloc: Global,
    stanza: &str,
    own: &Label,
    manifest: &Manifest,
    files: &[Stored],
    found: &mut Vec<Finding>,
) -> Result<(), NoMemory>
    requires own { IsLabel own.now }
    requires rules { IsManifest (manifest_of manifest.now) }
    ensures { OnOk result (AddsSpan stanza.now own.now manifest.now files.now found.old found.new) }
{
    let Some(wal) = manifest.wal else {
        return Ok(());
    };
    let id = ArchiveId {
        version: manifest.cluster.version,
        number: manifest.cluster.id,
    };
    let stored = whole_of(alloc, files, id, &wal.span)?;
    let name = folder_name(alloc, stanza, own)?;
    tell_gaps(alloc, name.as_str(), &stored, &wal, found)?;
    Ok(())
}
