// Saves the manifest of a backup, and lists it.
ghost use Rattle.std.specs.Prelude.{◌≡◌, IfErr, OnOk};
ghost use Rattle.base_devices.specs.States.{CallsProperly};
ghost use Rattle.base_crash_lists.specs.Beside.{StaysBeside};
ghost use Rattle.backup_make.specs.Draft.{main_of};
ghost use Rattle.backup_make.specs.Closing.{PublishesAt, PublishesStaged, PublishingFails};
ghost use Rattle.backup_make.specs.Made.{LeavesAlike};
ghost use Rattle.backup_make.specs.Staged.{IsClosed, closed_draft};
ghost use Rattle.backup_make.specs.Touched.{TouchesBackup};

use crate::backup_close::Closed;
use crate::closing_record::prepare;
use crate::fault::MakeFault;
use base_devices::Disk;
use repo_manifest::save_manifest;
use repo_pair::save_text;
use std::alloc::Global;

/// Saves the manifest of a backup that has stopped, and then the stanza's list with it. What lies in its label's folder
/// has to be there still.
pub fn publish<D: Disk>(alloc: Global, d: &mut D, closed: Closed<'_>) -> Result<(), MakeFault>
    requires { IsClosed closed }

    // The stanza's list is unchanged, or the backup is listed, of the bytes that the links read; and so it is in what a
    // crash leaves, at each moment. At Ok both members of the list's pair have it, and at an error it may be listed
    // only where the disk failed or memory ran out. It is listed with the second in which it was closed. Nothing is
    // changed that isn't of this backup, or of the list's pair.
    ensures made { PublishesStaged closed.entry result (D.state d.old) (D.state d.new) }
    ensures stops { PublishesAt closed.entry result (D.state d.old) (D.state d.new) }
    ensures alike { OnOk result (LeavesAlike (main_of (closed_draft closed.entry)) (D.state d.old) (D.state d.new)) }
    ensures only { TouchesBackup (closed_draft closed.entry) (D.state d.old) (D.state d.new) }
    ensures beside { StaysBeside (closed_draft closed.entry).stanza.now (D.state d.old).view (D.state d.new).view }
    ensures frame { CallsProperly (D.state d.old) (D.state d.new) }
    ensures fault { IfErr result (PublishingFails closed.entry (D.state d.old) (D.state d.new)) }
{
    let stanza = closed.fetched.draft.stanza;
    let prepared = prepare(alloc, closed)?;
    save_manifest(alloc, d, stanza, &prepared.manifest)?;
    save_text(alloc, d, &prepared.main, &prepared.text)?;
    Ok(())
}
