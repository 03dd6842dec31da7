// Reads the manifest of a backup.
ghost use Rattle.std.specs.Prelude.{◌≡◌, ◌≢◌, IfOk, IfErr};
ghost use Rattle.base_devices.specs.States.{OnlyReads};
ghost use Rattle.base_model.specs.InfoFiles.{IsLabel};
ghost use Rattle.base_model.specs.ManifestText.{IsManifest};
ghost use Rattle.base_model.specs.Values.{manifest_of};
ghost use Rattle.cmd_types.specs.Halts.{HaltCause};
ghost use Rattle.restore_choice.specs.Loading.{ShowsForeign, LoadsManifest, LoadHalts};

use crate::fault::{DamagedManifest, foreign, of_pair};
use base_devices::Disk;
use base_model::{Label, Manifest};
use cmd_types::Halt;
use repo_manifest::load_manifest;
use std::alloc::Global;

// Refuses a manifest that is another backup's.
fn check_label(
    alloc: Global,
    manifest: Manifest,
    label: &Label,
) -> Result<Manifest, Halt<DamagedManifest>>
    requires { IsLabel label.now }
    ensures same { IfOk result (λ m. m ≡ manifest) }
    ensures own { IfOk result (λ m. m.label ≡ label.now) }
    ensures cause { IfErr result (HaltCause (λ d. (manifest.label ≢ label.now) × ShowsForeign label.now d)
        (λ _. ⊥)) }
{
    if manifest.label == *label {
        return Ok(manifest);
    }
    Err(foreign(alloc, label))
}

/// The manifest of the backup of this label.
pub fn load<D: Disk>(
    alloc: Global,
    repo: &mut D,
    stanza: &str,
    label: &Label,
) -> Result<Manifest, Halt<DamagedManifest>>
    requires { IsLabel label.now }
    ensures found { IfOk result (λ m. LoadsManifest stanza.now label.now (D.state repo.old) (manifest_of m)) }
    ensures rules { IfOk result (λ m. IsManifest (manifest_of m)) }
    ensures looks { OnlyReads (D.state repo.old) (D.state repo.new) }
    ensures cause { IfErr result (LoadHalts stanza.now label.now (D.state repo.old) (D.state repo.new)) }
{
    match load_manifest(alloc, repo, stanza, label) {
        Ok(manifest) => check_label(alloc, manifest, label),
        Err(fault) => Err(of_pair(alloc, label, fault)),
    }
}
