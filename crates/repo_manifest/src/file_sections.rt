// The sections of files and folders.
ghost use Rattle.std.specs.Prelude.{◌≡◌, ◌++◌, map, IfOk, OnOk, IfSome};
ghost use Rattle.std.specs.List.{AllByRecursion};
ghost use Rattle.serde_json.specs.View.{view};
ghost use Rattle.base_model.specs.InfoFiles.{IsLabel};
ghost use Rattle.base_model.specs.ManifestText.{file_field};
ghost use Rattle.base_model.specs.Values.{file_entry_of};
ghost use Rattle.repo_ini.specs.Parts.{sections_of};
ghost use Rattle.repo_keys.specs.Agree.{StatesSection};
ghost use Rattle.repo_manifest.specs.Sections.{target_file, target_path, entries_of, file_section, folder_fields};

use crate::cross_rules::key_of;
use crate::entries::file_value;
use crate::known::FileFacts;
use base_model::FileEntry;
use base_text::NoMemory;
use repo_ini::Part;
use serde_json::{Map, Value};
use std::alloc::Global;

// The value of a file.
fn entry_value(alloc: Global, file: &FileEntry) -> Result<Value, NoMemory>
    requires { IfSome file.now.reference IsLabel }
    ensures { IfOk result (λ v. view v ≡ (file_field (file_entry_of file.now)).1) }
{
    let known = FileFacts {
        size: file.size,
        time: file.time,
        sum: file.sum,
        reference: file.reference,
        bundle: file.bundle,
    };
    file_value(alloc, &known)
}

// The section of these files.
fn files_part(alloc: Global, files: &[FileEntry]) -> Result<Part, NoMemory>
    requires { AllByRecursion (λ e. IfSome e.reference IsLabel) files.now }
    ensures { IfOk result (StatesSection target_file (map file_field (entries_of files.now))) }
{
    let mut part = Part::new(alloc, "target:file")?;
    for file in files {
        let key = key_of(alloc, file.path.as_str())?;
        let value = entry_value(alloc, file)?;
        part.add(alloc, key.as_str(), value)?;
    }
    Ok(part)
}

/// Adds the section of these files, where there are any.
pub(crate) fn add_files(
    alloc: Global,
    parts: &mut Vec<Part>,
    files: &[FileEntry],
) -> Result<(), NoMemory>
    requires { AllByRecursion (λ e. IfSome e.reference IsLabel) files.now }
    ensures { OnOk result (sections_of parts.new.items ≡ sections_of parts.old.items ++ file_section files.now) }
{
    if files.is_empty() {
        return Ok(());
    }
    parts.push(files_part(alloc, files)?)?;
    Ok(())
}

/// The section of these folders, with the data folder itself.
pub(crate) fn folders_part(alloc: Global, folders: &[String]) -> Result<Part, NoMemory>
    ensures { IfOk result (StatesSection target_path (folder_fields folders.now)) }
{
    let mut part = Part::new(alloc, "target:path")?;
    part.add(alloc, "pg_data", Value::Object(Map::new(alloc)))?;
    for folder in folders {
        let key = key_of(alloc, folder.as_str())?;
        part.add(alloc, key.as_str(), Value::Object(Map::new(alloc)))?;
    }
    Ok(part)
}
