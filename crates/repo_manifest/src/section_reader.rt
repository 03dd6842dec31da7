// From sections to a manifest.
ghost use Rattle.std.specs.Prelude.{◌≡◌, [], ◌≤◌, ◌^◌, map, sum_by, true, IfOk, IfErr, OnOk, string_bytes};
ghost use Rattle.std.specs.List.{AllByRecursion};
ghost use Rattle.base_devices.specs.Order.{are_in_order, are_after};
ghost use Rattle.base_model.specs.InfoText.{IsInfo, IsKey};
ghost use Rattle.base_model.specs.ManifestText.{manifest_sections, IsManifest};
ghost use Rattle.base_model.specs.Values.{file_entry_of, manifest_of, FileEntry as SpecFile};
ghost use Rattle.repo_ini.specs.Parts.{key_of, sections_of};
ghost use Rattle.repo_keys.specs.Agree.{IsOrdered};
ghost use Rattle.repo_manifest.specs.Alone.{IsFile, IsDirectory};
ghost use Rattle.repo_keys.specs.Fault.{IfForm};
ghost use Rattle.repo_manifest.specs.Sections.{target_file, entries_of, folder_paths, StatesFiles, StatesFolders, FilesArePlaced, FoldersAreListed};
ghost use Rattle.repo_manifest.specs.ManifestForm.{IsManifestForm};

use crate::backup_section::head_in;
use crate::cluster::cluster_in;
use crate::cross_rules::{check_files, check_folders, fault_at};
use crate::files::files_of;
use crate::folders::folders_of;
use crate::option_section::choices_in;
use crate::sizes::past;
use base_model::{FileEntry, Manifest};
use repo_ini::Part;
use repo_keys::{PartsFault, check_names, keys_at};
use std::alloc::Global;

const NAMES: &[&str] = &[
    "backup",
    "backup:db",
    "backup:option",
    "target:file",
    "target:path",
];

// The files that the sections state.
fn files_in(alloc: Global, parts: &[Part]) -> Result<Vec<FileEntry>, PartsFault>
    requires { IsInfo (sections_of parts.now) }
    ensures files { IfOk result (λ v. AllByRecursion IsFile (map file_entry_of v.items)) }
    ensures known { IfOk result (λ v. StatesFiles (sections_of parts.now) v.items) }
    ensures order { IfOk result
        (λ v. are_in_order (map (λ (e : SpecFile). e.path) (entries_of v.items)) ≡ true) }
    ensures fault { IfErr result (λ e. IfForm e (IsManifestForm (sections_of parts.now))) }
{
    files_of(alloc, keys_at(parts, "target:file"))
}

// The folders that the sections state.
fn folders_in(alloc: Global, parts: &[Part]) -> Result<Vec<String>, PartsFault>
    requires { IsInfo (sections_of parts.now) }
    ensures folders { IfOk result (λ v. AllByRecursion IsDirectory (map string_bytes v.items)) }
    ensures known { IfOk result (λ v. StatesFolders (sections_of parts.now) v.items) }
    ensures order { IfOk result (λ v. are_in_order (map string_bytes v.items) ≡ true) }
    ensures fault { IfErr result (λ e. IfForm e (IsManifestForm (sections_of parts.now))) }
{
    folders_of(alloc, keys_at(parts, "target:path"))
}

// Whether the sizes of the files keep their bound.
fn check_sizes(alloc: Global, parts: &[Part], files: &[FileEntry]) -> Result<(), PartsFault>
    requires info { IsInfo (sections_of parts.now) }
    requires known { StatesFiles (sections_of parts.now) files.now }
    ensures within { OnOk result (sum_by (λ (e : SpecFile). e.size) (map file_entry_of files.now) ≤ 2 ^ 63) }
    ensures fault { IfErr result (λ e. IfForm e (IsManifestForm (sections_of parts.now))) }
{
    match past(files) {
        Some(file) => Err(fault_at(alloc, "target:file", file.path.as_str())),
        None => Ok(()),
    }
}

// Whether files and folders keep the rules between them.
fn check_paths(
    alloc: Global,
    parts: &[Part],
    files: &[FileEntry],
    folders: &[String],
) -> Result<(), PartsFault>
    requires info { IsInfo (sections_of parts.now) }
    requires files { StatesFiles (sections_of parts.now) files.now }
    requires folders { StatesFolders (sections_of parts.now) folders.now }
    requires order { are_after [] (map string_bytes folders.now) ≡ true }
    ensures files { OnOk result (FilesArePlaced (entries_of files.now) (folder_paths folders.now)) }
    ensures folders { OnOk result (FoldersAreListed (folder_paths folders.now)) }
    ensures fault { IfErr result (λ e. IfForm e (IsManifestForm (sections_of parts.now))) }
{
    check_files(alloc, files, folders)?;
    check_folders(alloc, folders)
}

/// The manifest that the sections state, or a key at which no manifest has what they have.
pub(crate) fn manifest_in(alloc: Global, parts: &[Part]) -> Result<Manifest, PartsFault>
    requires { IsInfo (sections_of parts.now) }
    ensures sections { IfOk result (λ m. manifest_sections (manifest_of m) ≡ sections_of parts.now) }
    ensures valid { IfOk result (λ m. IsManifest (manifest_of m)) }
    ensures fault { IfErr result (λ e. IfForm e (IsManifestForm (sections_of parts.now))) }
{
    check_names(alloc, parts, NAMES)?;
    let head = head_in(alloc, parts)?;
    let cluster = cluster_in(alloc, parts)?;
    let choices = choices_in(alloc, parts, head.wal.is_some())?;
    let files = files_in(alloc, parts)?;
    check_sizes(alloc, parts, &files)?;
    let folders = folders_in(alloc, parts)?;
    check_paths(alloc, parts, &files, &folders)?;
    Ok(Manifest {
        label: head.label,
        kind: head.kind,
        prior: head.prior,
        start: head.start,
        stop: head.stop,
        cluster,
        wal: head.wal,
        choices,
        files,
        folders,
    })
}
