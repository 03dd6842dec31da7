// From a text to a manifest.
ghost use Rattle.std.specs.Prelude.{◌≡◌, ◌≤◌, IfOk, length};
ghost use Rattle.base_model.specs.ManifestText.{manifest_limit, IsManifest, IsManifestText};
ghost use Rattle.base_model.specs.Values.{manifest_of};
ghost use Rattle.repo_info.specs.Reading.{SectionsAre, TextGives};
ghost use Rattle.repo_manifest.specs.ManifestForm.{IsManifestForm};

use crate::section_reader::manifest_in;
use base_model::Manifest;
use base_text::NoMemory;
use repo_info::{MemberFault, sections_in};
use repo_keys::PartsFault;
use std::alloc::Global;

/// The manifest of which the bytes are the text, or why they are none's.
pub fn decode(alloc: Global, bytes: &[u8]) -> Result<Result<Manifest, MemberFault>, NoMemory>
    requires { length bytes.now ≤ manifest_limit }
    ensures gives { IfOk result (λ r. TextGives IsManifestText IsManifestForm manifest_of bytes.now r) }
    ensures valid { IfOk result (λ r. IfOk r (λ m. IsManifest (manifest_of m))) }
{
    let parts = match sections_in(alloc, bytes)? {
        Ok(parts) => parts,
        Err(fault) => return Ok(Err(fault)),
    };
    match manifest_in(alloc, &parts) {
        Ok(manifest) => Ok(Ok(manifest)),
        Err(PartsFault::Form { section, key }) => Ok(Err(MemberFault::Form { section, key })),
        Err(PartsFault::NoMemory) => Err(NoMemory),
    }
}
