// The files that the section `target:file` states.
ghost use Rattle.std.specs.Prelude.{◌≡◌, map, IfOk, IfErr};
ghost use Rattle.std.specs.List.{AllByRecursion};
ghost use Rattle.base_model.specs.InfoText.{IsKey};
ghost use Rattle.base_model.specs.ManifestText.{file_field};
ghost use Rattle.base_model.specs.Values.{file_entry_of};
ghost use Rattle.repo_ini.specs.Parts.{key_of};
ghost use Rattle.repo_manifest.specs.Alone.{IsFile};
ghost use Rattle.repo_keys.specs.Fault.{IsFaultIn};
ghost use Rattle.repo_manifest.specs.Sections.{target_file, IsNoFile};

use crate::file_reader::read_file;
use base_model::FileEntry;
use repo_keys::{PartsFault, form};
use serde_json::Value;
use std::alloc::Global;

/// The files that the keys state.
pub(crate) fn files_of(
    alloc: Global,
    keys: &[(String, Value)],
) -> Result<Vec<FileEntry>, PartsFault>
    requires { AllByRecursion IsKey (map key_of keys.now) }
    ensures files { IfOk result (λ v. AllByRecursion IsFile (map file_entry_of v.items)) }
    ensures keys { IfOk result (λ v. map file_field (map file_entry_of v.items) ≡ map key_of keys.now) }
    ensures fault { IfErr result (IsFaultIn target_file (IsNoFile (map key_of keys.now))) }
{
    let mut files = Vec::new(alloc);
    for k in keys {
        let Some(file) = read_file(alloc, k.0.as_str(), &k.1)? else {
            return Err(form(alloc, "target:file", k.0.as_str()));
        };
        files.push(file)?;
    }
    Ok(files)
}
