// Loads and saves manifests.
ghost use Rattle.std.specs.Prelude.{◌≡◌, ◌≤◌, IfOk, IfErr, OnOk, IsErrOf, length, string_bytes};
ghost use Rattle.base_devices.specs.States.{OnlyReads, CallsProperly, DiskFailed};
ghost use Rattle.base_disk.specs.Store.{ChangesOnly};
ghost use Rattle.base_model.specs.InfoFiles.{IsLabel};
ghost use Rattle.base_model.specs.ManifestText.{manifest_limit, IsManifest};
ghost use Rattle.base_model.specs.Names.{manifest_name};
ghost use Rattle.base_model.specs.Values.{manifest_of};
ghost use Rattle.repo_pair.specs.Member.{IsOfPair};
ghost use Rattle.repo_manifest.specs.Keeping.{manifest_text, own_name, IfTooLong, HoldsManifest, RefusesLoad, SavesManifest, SavesManifestNow, EndsManifest, EndsManifestNow, RefusesLength};

use crate::encoder::encode;
use crate::stored::{LIMIT, Stored};
use crate::write_fault::WriteFault;
use base_devices::Disk;
use base_model::{Label, Manifest};
use base_text::NoMemory;
use repo_names::label_text;
use repo_pair::{InfoFault, load_pair, save_text};
use std::alloc::Global;

/// The name of the main member that keeps a backup's manifest.
pub fn manifest_name(alloc: Global, stanza: &str, label: &Label) -> Result<String, NoMemory>
    requires { IsLabel label.now }
    ensures { IfOk result (λ name. string_bytes name ≡ manifest_name stanza.now label.now) }
{
    let label = label_text(alloc, label)?;
    Ok(format!(in alloc; "backup/{stanza}/{label}/backup.manifest")?)
}

/// The manifest of a backup, of the main member where that is the text of one, else of the copy.
pub fn load_manifest<D: Disk>(
    alloc: Global,
    d: &mut D,
    stanza: &str,
    label: &Label,
) -> Result<Manifest, InfoFault>
    requires { IsLabel label.now }
    ensures found { IfOk result
        (λ m. HoldsManifest (manifest_name stanza.now label.now) m (D.state d.old)) }
    ensures valid { IfOk result (λ m. IsManifest (manifest_of m)) }
    ensures within { IfOk result (λ m. length (manifest_text (manifest_of m)) ≤ manifest_limit) }
    ensures looks { OnlyReads (D.state d.old) (D.state d.new) }
    ensures cause { IfErr result
        (RefusesLoad (manifest_name stanza.now label.now) (D.state d.old) (D.state d.new)) }
{
    let Ok(name) = manifest_name(alloc, stanza, label) else {
        return Err(InfoFault::NoMemory);
    };
    let stored: Stored = load_pair(alloc, d, name.as_str())?;
    Ok(stored.0)
}

/// Saves a manifest's text at the main member's name, then at its copy's.
pub fn save_manifest<D: Disk>(
    alloc: Global,
    d: &mut D,
    stanza: &str,
    m: &Manifest,
) -> Result<(), WriteFault>
    requires { IsManifest (manifest_of m.now) }
    ensures crash { SavesManifest stanza.now m.now (D.state d.old) (D.state d.new) }
    ensures whole { OnOk result (EndsManifest stanza.now m.now (D.state d.old) (D.state d.new)) }
    ensures now_part { SavesManifestNow stanza.now m.now (D.state d.old) (D.state d.new) }
    ensures now_whole { OnOk result (EndsManifestNow stanza.now m.now (D.state d.old) (D.state d.new)) }
    ensures only { ChangesOnly (IsOfPair (own_name stanza.now m.now)) (D.state d.old).view (D.state d.new).view }
    ensures frame { CallsProperly (D.state d.old) (D.state d.new) }
    ensures within { OnOk result (length (manifest_text (manifest_of m.now)) ≤ manifest_limit) }
    ensures long { IfErr result (λ e. IfTooLong e (RefusesLength m.now (d.new ≡ d.old))) }
    ensures cause { IsErrOf result WriteFault.Disk → DiskFailed (D.state d.old) (D.state d.new) }
{
    let name = manifest_name(alloc, stanza, &m.label)?;
    let text = encode(alloc, m)?;
    let length = text.len() as u64;
    if length > LIMIT {
        return Err(WriteFault::TooLong { length });
    }
    save_text(alloc, d, name.as_str(), &text)?;
    Ok(())
}
