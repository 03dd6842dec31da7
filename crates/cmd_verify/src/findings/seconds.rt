// Segments that are stored under several names.
ghost use Rattle.std.specs.Prelude.{◌≡◌, false, IfOk, IsTrue, OnOk, string_bytes};
ghost use Rattle.cmd_verify.specs.Adding.{Adds};
ghost use Rattle.cmd_verify.specs.Archived.{FollowsAlike};
ghost use Rattle.cmd_verify.specs.Findings.{segment_of};
ghost use Rattle.cmd_verify.specs.Looking.{AddsSeconds};
ghost use Rattle.cmd_verify.specs.What.{Second, Shows};

use crate::findings::finding::{Finding, FindingKind};
use archive_lookup::Stored;
use base_model::{ArchiveName, Segment};
use base_text::NoMemory;
use repo_names::segment_text;
use std::alloc::Global;

// The segment of which a file is the whole or a part.
fn segment_of(name: &ArchiveName) -> Option<Segment>
    ensures { result ≡ segment_of name.now }
{
    match *name {
        ArchiveName::Segment(segment) => Some(segment),
        ArchiveName::Partial(segment) => Some(segment),
        _ => None,
    }
}

// Whether both are the same file of the archive, maybe with another sum.
fn is_same_file(a: &Stored, b: &Stored) -> bool
    ensures yes { IsTrue result → (a.now.id ≡ b.now.id) × (a.now.name ≡ b.now.name) }
    ensures no { result ≡ false → ¬ ((a.now.id ≡ b.now.id) × (a.now.name ≡ b.now.name)) }
{
    a.id == b.id && a.name == b.name
}

fn second(alloc: Global, file: &Stored, segment: &Segment) -> Result<Finding, NoMemory>
    ensures { IfOk result (λ x. Shows x (string_bytes file.now.path) (Second segment.now)) }
{
    let name = String::from_str(alloc, file.path.as_str())?;
    let segment = segment_text(alloc, segment)?;
    Ok(Finding {
        name,
        kind: FindingKind::Second,
        line: format!(in alloc; "second name of {segment}")?,
    })
}

// A segment's file is reported where the one before it is the same file under another name.
fn tell_second(
    alloc: Global,
    before: &Stored,
    file: &Stored,
    found: &mut Vec<Finding>,
) -> Result<(), NoMemory>
    ensures { OnOk result (Adds (FollowsAlike before.now file.now) found.old.items found.new.items) }
{
    let Some(segment) = segment_of(&file.name) else {
        return Ok(());
    };
    if is_same_file(before, file) {
        found.push(second(alloc, file, &segment)?)?;
    }
    Ok(())
}

/// Reports the segments that are stored under an earlier name too. The files are in byte order of their names, so the
/// names of one segment are neighbours.
pub(crate) fn tell_seconds(
    alloc: Global,
    files: &[Stored],
    found: &mut Vec<Finding>,
) -> Result<(), NoMemory>
    ensures { OnOk result (AddsSeconds files.now found.old found.new) }
{
    for i in 1..files.len() {
        tell_second(alloc, &files[i - 1], &files[i], found)?;
    }
    Ok(())
}
