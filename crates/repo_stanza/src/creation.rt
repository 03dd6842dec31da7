// Makes a stanza, or keeps the one that is there.
ghost use Rattle.std.specs.Prelude.{◌≡◌, OnOk, IfOk, IfErr, IfNone, IfSome, IsSome};
ghost use Rattle.base_devices.specs.States.{CallsProperly, OnlyReads};
ghost use Rattle.base_devices.specs.Moments.{LeavesNoMore};
ghost use Rattle.base_disk.specs.Store.{ChangesOnly};
ghost use Rattle.base_model.specs.InfoFiles.{IsArchiveInfo, IsBackupInfo, IsLabel};
ghost use Rattle.base_model.specs.Values.{archive_info_of, backup_info_of};
ghost use Rattle.repo_stanza.specs.Owned.{IsOfPairs};
ghost use Rattle.repo_stanza.specs.Pairs.{HasStanzaOf};
ghost use Rattle.repo_stanza.specs.Unused.{IsUnused};
ghost use Rattle.repo_stanza.specs.Judging.{AreKept};
ghost use Rattle.repo_stanza.specs.Making.{NowHas, HadNoStanza, HadStanzaOf, MayMake, HasMade, MakesPairs, PairsAgreeAfter, ImagesMayMake, HasMadeSteady};
ghost use Rattle.repo_stanza.specs.Causes.{CreateFails, OnContent, IfNew, IfSame, IfLost};

use crate::control::Control;
use crate::fault::StanzaFault;
use crate::keeping::keep_stanza;
use crate::making::make_stanza;
use crate::pair_read::look;
use crate::pair_rules::PairValues;
use crate::unused::check_unused;
use base_devices::Disk;
use std::alloc::Global;

/// How a stanza came to be there.
#[derive(Clone, Copy, Debug, PartialEq, Eq)]
pub enum Created {
    /// it was made
    New,
    /// it was there, of the same cluster
    Same,
}

// What is kept of the stanza's two pairs, or none where the repository has nothing of a stanza.
fn find_kept<D: Disk>(
    alloc: Global,
    d: &mut D,
    stanza: &str,
    control: &Control,
) -> Result<Option<PairValues>, StanzaFault>
    ensures lacking { IfOk result (λ o. IfNone o (IfSome (D.state d.old).view.now (IsUnused stanza.now))) }
    ensures kept { IfOk result (λ o. IfSome o (AreKept stanza.now control.now (D.state d.old))) }
    ensures archive { IfOk result (λ o. IfSome o (λ k. IsArchiveInfo (archive_info_of k.archive))) }
    ensures backup { IfOk result (λ o. IfSome o (λ k. IsBackupInfo (backup_info_of k.backup))) }
    ensures looks { OnlyReads (D.state d.old) (D.state d.new) }
    ensures cause { IfErr result (CreateFails stanza.now control.now (D.state d.old) (D.state d.new)) }
    ensures label { IfErr result (λ e. IfLost e IsLabel) }
{
    match look(alloc, d, stanza, control)? {
        None => {
            check_unused(alloc, d, stanza)?;
            Ok(None)
        }
        Some(kept) => Ok(Some(kept)),
    }
}

/// Makes the stanza of a cluster, where the repository has nothing of a stanza. A stanza of the same system identifier
/// and version is kept: of its two pairs each member that isn't its value's text is written anew, the backup pair's
/// without a cluster that is still to come. Nothing is written before every refusal for what the disk holds is over.
pub fn create<D: Disk>(
    alloc: Global,
    d: &mut D,
    stanza: &str,
    control: &Control,
) -> Result<Created, StanzaFault>
    // After every answer, and after every crash, the stanza is as before or made, and at Ok it is made.
    ensures part { MayMake stanza.now control.now (D.state d.old) (D.state d.new) }
    ensures done { OnOk result (HasMade stanza.now control.now (D.state d.old) (D.state d.new)) }
    ensures moves { ImagesMayMake stanza.now control.now (D.state d.old) (D.state d.new) }
    ensures made { OnOk result (HasMadeSteady stanza.now control.now (D.state d.old) (D.state d.new)) }
    // New comes only where the disk has no stanza, no archive file of it and nothing in the folder of a label, and Same
    // where it has a stanza of this cluster.
    ensures lacking { IfOk result (λ c. IfNew c (IfSome (D.state d.old).view.now (IsUnused stanza.now))) }
    ensures new { IfOk result (λ c. IfNew c (HadNoStanza stanza.now (D.state d.old))) }
    ensures members { IfOk result
        (λ c. IfNew c (MakesPairs stanza.now control.now (D.state d.old) (D.state d.new))) }
    ensures having { IfOk result (λ c. IfSame c (NowHas (D.state d.old) (HasStanzaOf stanza.now control.now))) }
    ensures same { IfOk result (λ c. IfSame c (HadStanzaOf stanza.now control.now (D.state d.old))) }
    ensures agrees { OnOk result (PairsAgreeAfter stanza.now (D.state d.old) (D.state d.new)) }
    ensures refused { IfErr result (λ e. OnContent e ((D.state d.new).view.now ≡ (D.state d.old).view.now)) }
    ensures rests { IfErr result (λ e. OnContent e (LeavesNoMore (D.state d.old).view (D.state d.new).view)) }
    ensures known { IsSome (D.state d.old).view.now → IsSome (D.state d.new).view.now }
    ensures only { ChangesOnly (IsOfPairs stanza.now) (D.state d.old).view (D.state d.new).view }
    ensures frame { CallsProperly (D.state d.old) (D.state d.new) }
    ensures cause { IfErr result (CreateFails stanza.now control.now (D.state d.old) (D.state d.new)) }
    ensures label { IfErr result (λ e. IfLost e IsLabel) }
{
    match find_kept(alloc, d, stanza, control)? {
        None => {
            make_stanza(alloc, d, stanza, control)?;
            Ok(Created::New)
        }
        Some(kept) => {
            keep_stanza(alloc, d, stanza, &kept)?;
            Ok(Created::Same)
        }
    }
}
