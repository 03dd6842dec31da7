// Looks at the files of a backup.
ghost use Rattle.std.specs.Prelude.{◌≡◌, ◌≢◌, false, None, IfOk, IfSome, IsTrue, OnOk, IsErrOf, map, string_bytes};
ghost use Rattle.base_devices.specs.Cause.{Rises};
ghost use Rattle.base_model.specs.InfoFiles.{IsLabel};
ghost use Rattle.base_model.specs.Place.{place};
ghost use Rattle.base_model.specs.Text.{In};
ghost use Rattle.base_model.specs.Values.{FileEntry as Entered, file_entry_of};
ghost use Rattle.cmd_verify.specs.Looking.{AddsFile, AddsOwnFile, AddsOwnFiles};
ghost use Rattle.base_devices.specs.States.{OnlyReads};

use crate::findings::finding::{Finding, LookFault, Mark};
use crate::findings::place_sum::{deviation, sum_at};
use base_devices::Disk;
use base_model::{Bundled, FileEntry, Label};
use base_text::NoMemory;
use repo_names::label_text;
use std::alloc::Global;

// Where a file's bytes lie: the name, and the byte at which they begin there.
fn place_of(
    alloc: Global,
    stanza: &str,
    own: &Label,
    file: &FileEntry,
) -> Result<(String, u64), NoMemory>
    requires own { IsLabel own.now }
    requires reference { IfSome file.now.reference IsLabel }
    ensures name { IfOk result (λ p. string_bytes p.0 ≡ (place stanza.now own.now (file_entry_of file.now)).0) }
    ensures at { IfOk result (λ p. p.1 ≡ (place stanza.now own.now (file_entry_of file.now)).1) }
{
    let holder = file.reference.unwrap_or(*own);
    let label = label_text(alloc, &holder)?;
    match file.bundle {
        None => {
            let path = file.path.as_str();
            Ok((
                format!(in alloc; "backup/{stanza}/{label}/pg_data/{path}")?,
                0,
            ))
        }
        Some(Bundled { number, at }) => {
            Ok((
                format!(in alloc; "backup/{stanza}/{label}/bundle/{number}")?,
                at,
            ))
        }
    }
}

/// Looks at one file.
pub(crate) fn look_at_file<D: Disk>(
    alloc: Global,
    d: &mut D,
    stanza: &str,
    own: &Label,
    file: &FileEntry,
    found: &mut Vec<Finding>,
) -> Result<(), LookFault>
    requires own { IsLabel own.now }
    requires reference { IfSome file.now.reference IsLabel }
    ensures adds { OnOk result (AddsFile stanza.now own.now file.now (D.state d.old) found.old found.new) }
    ensures looks { OnlyReads (D.state d.old) (D.state d.new) }
    ensures cause { IsErrOf result LookFault.Disk → Rises (D.state d.old).faults (D.state d.new).faults }
{
    if file.size == 0 {
        return Ok(());
    }
    let (name, at) = place_of(alloc, stanza, own, file)?;
    let lies = sum_at(d, name.as_str(), at, file.size)?;
    if let Some(Mark { kind, line }) = deviation(alloc, lies, file.size, &file.sum)? {
        found.push(Finding { name, kind, line })?;
    }
    Ok(())
}

// Whether a file lies in its backup's own folder.
fn lies_in_own(file: &FileEntry) -> bool
    ensures yes { IsTrue result → file.now.reference ≡ None }
    ensures no { result ≡ false → file.now.reference ≢ None }
{
    file.reference.is_none()
}

// A file that lies in the backup's own folder.
fn look_at_own_file<D: Disk>(
    alloc: Global,
    d: &mut D,
    stanza: &str,
    own: &Label,
    file: &FileEntry,
    found: &mut Vec<Finding>,
) -> Result<(), LookFault>
    requires own { IsLabel own.now }
    requires reference { IfSome file.now.reference IsLabel }
    ensures adds { OnOk result (AddsOwnFile stanza.now own.now file.now (D.state d.old) found.old found.new) }
    ensures looks { OnlyReads (D.state d.old) (D.state d.new) }
    ensures cause { IsErrOf result LookFault.Disk → Rises (D.state d.old).faults (D.state d.new).faults }
{
    if !lies_in_own(file) {
        return Ok(());
    }
    look_at_file(alloc, d, stanza, own, file, found)?;
    Ok(())
}

/// Looks at the files that lie in the backup's own folder.
pub(crate) fn look_at_own_files<D: Disk>(
    alloc: Global,
    d: &mut D,
    stanza: &str,
    own: &Label,
    files: &[FileEntry],
    found: &mut Vec<Finding>,
) -> Result<(), LookFault>
    requires own { IsLabel own.now }
    requires references { (e : Entered) → In e (map file_entry_of files.now) → IfSome e.reference IsLabel }
    ensures adds { OnOk result (AddsOwnFiles stanza.now own.now files.now (D.state d.old) found.old found.new) }
    ensures looks { OnlyReads (D.state d.old) (D.state d.new) }
    ensures cause { IsErrOf result LookFault.Disk → Rises (D.state d.old).faults (D.state d.new).faults }
{
    for file in files {
        look_at_own_file(alloc, d, stanza, own, file, found)?;
    }
    Ok(())
}
