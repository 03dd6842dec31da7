// From a manifest to its text.
ghost use Rattle.std.specs.Prelude.{◌≡◌, IfOk};
ghost use Rattle.base_model.specs.InfoText.{info_text};
ghost use Rattle.base_model.specs.ManifestText.{manifest_sections, IsManifest};
ghost use Rattle.base_model.specs.Values.{manifest_of};
ghost use Rattle.repo_ini.specs.Parts.{sections_of};

use crate::file_sections::{add_files, folders_part};
use crate::head::Head;
use crate::head_part::head_part;
use crate::option_section::choices_part;
use base_model::Manifest;
use base_text::NoMemory;
use repo_info::cluster_part;
use repo_ini::{Part, write_info_text};
use std::alloc::Global;

/// The sections of a manifest.
pub(crate) fn parts_of(alloc: Global, m: &Manifest) -> Result<Vec<Part>, NoMemory>
    requires { IsManifest (manifest_of m.now) }
    ensures { IfOk result (λ parts. sections_of parts.items ≡ manifest_sections (manifest_of m.now)) }
{
    let head = Head {
        label: m.label,
        kind: m.kind,
        prior: m.prior,
        start: m.start,
        stop: m.stop,
        wal: m.wal,
    };
    let mut parts = Vec::new(alloc);
    parts.push(head_part(alloc, &head)?)?;
    parts.push(cluster_part(alloc, "backup:db", &m.cluster)?)?;
    parts.push(choices_part(alloc, &m.choices, m.wal.is_some())?)?;
    add_files(alloc, &mut parts, &m.files)?;
    parts.push(folders_part(alloc, &m.folders)?)?;
    Ok(parts)
}

/// The text of a manifest.
pub fn encode(alloc: Global, m: &Manifest) -> Result<Vec<u8>, NoMemory>
    requires { IsManifest (manifest_of m.now) }
    ensures { IfOk result (λ text. text.items ≡ info_text (manifest_sections (manifest_of m.now))) }
{
    let parts = parts_of(alloc, m)?;
    write_info_text(alloc, &parts)
}
