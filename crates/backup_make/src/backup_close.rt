// A backup stops: its stop second is taken, and its label file is stored.
ghost use Rattle.std.specs.Prelude.{◌≡◌, ◌≤◌, None, Some, IfOk, IfErr, OnOk};
ghost use Rattle.base_devices.specs.Content.{SameBut};
ghost use Rattle.base_devices.specs.States.{CallsProperly, ShowsSecond};
ghost use Rattle.backup_sink.specs.Relation.{Touches};
ghost use Rattle.backup_sink.specs.Sealed.{IsSealedAt};
ghost use Rattle.backup_sink.specs.Writing.{GrowsAt, Replaces};
ghost use Rattle.base_crash_lists.specs.Beside.{StaysBeside};
ghost use Rattle.backup_make.specs.Draft.{IsDraft, IsFree, is_own_of, label_name};
ghost use Rattle.backup_make.specs.Closing.{EndingFails, StagesLabel, StopsShown};
ghost use Rattle.backup_make.specs.Faults.{StopFails, WriteFails};
ghost use Rattle.backup_make.specs.Made.{LeavesList};
ghost use Rattle.backup_make.specs.Online.{IsOnline, online_of};
ghost use Rattle.backup_make.specs.Touched.{TouchesBackup};
ghost use Rattle.backup_make.specs.Staged.{IsClosed, IsClosedOf, IsFetched, fetched_draft};

use crate::draft::Draft;
use crate::draft_jobs::{Fetched, folder_name};
use crate::fault::MakeFault;
use crate::online::Online;
use backup_sink::store_file;
use base_devices::{Clock, DeviceError, Disk};
use std::alloc::Global;

/// A backup that has stopped, and isn't listed yet: all that its files hold lies in the folder of its label.
#[derive(Drop)]
pub struct Closed<'a> {
    pub(crate) fetched: Fetched<'a>,
    pub(crate) stop: u64,
    pub(crate) online: Option<Online>,
}

// The second in which the backup stops.
fn stop_of<C: Clock>(clock: &mut C) -> Result<u64, MakeFault>
    ensures shows { IfOk result (λ now. ShowsSecond now (C.state clock.old) (C.state clock.new)) }
    ensures later { (C.state clock.old).faults ≤ (C.state clock.new).faults }
    ensures least { (C.state clock.old).least ≤ (C.state clock.new).least }
    ensures fault { IfErr result (λ e. StopFails e (C.state clock.old).faults (C.state clock.new).faults) }
{
    match clock.now() {
        Err(DeviceError::Failed) => Err(MakeFault::Clock),
        Err(DeviceError::NoMemory) => Err(MakeFault::NoMemory),
        Ok(now) => Ok(now),
    }
}

/// The backup of a stopped server, whose jobs are done, stops now.
pub fn close<'a, C: Clock>(clock: &mut C, fetched: Fetched<'a>) -> Result<Closed<'a>, MakeFault>
    requires { IsFetched fetched }
    ensures closed { IfOk result IsClosed }
    ensures of { IfOk result (IsClosedOf fetched.entry None) }
    ensures shows { IfOk result (StopsShown (C.state clock.old) (C.state clock.new)) }
    ensures later { (C.state clock.old).faults ≤ (C.state clock.new).faults }
    ensures least { (C.state clock.old).least ≤ (C.state clock.new).least }
    ensures fault { IfErr result (λ e. StopFails e (C.state clock.old).faults (C.state clock.new).faults) }
{
    let stop = stop_of(clock)?;
    Ok(Closed {
        fetched,
        stop,
        online: None,
    })
}

// Stores the label file in the folder of the draft's label, durably.
fn store_label<D: Disk>(
    alloc: Global,
    d: &mut D,
    draft: &Draft<'_>,
    text: &str,
) -> Result<(), MakeFault>
    requires draft { IsDraft draft.now }
    requires free { IsFree draft.now }
    ensures touches { Touches (is_own_of draft.now) (D.state d.old).view (D.state d.new).view }
    ensures value { OnOk result (Replaces (label_name draft.now) text.now (D.state d.old) (D.state d.new)) }
    ensures others { SameBut (label_name draft.now) (D.state d.old).view.now (D.state d.new).view.now }
    ensures time { GrowsAt (label_name draft.now) (D.state d.old) (D.state d.new) }
    ensures sealed { OnOk result (IsSealedAt (label_name draft.now) (D.state d.new).view) }
    ensures frame { CallsProperly (D.state d.old) (D.state d.new) }
    ensures fault { IfErr result (λ e. WriteFails e (D.state d.old).faults (D.state d.new).faults) }
{
    let folder = folder_name(alloc, draft.stanza, &draft.label)?;
    let folder = format!(in alloc; "{folder}/pg_data")?;
    let name = format!(in alloc; "{folder}/backup_label")?;
    store_file(d, &folder, &name, text.as_bytes())?;
    Ok(())
}

/// The backup of a running server, whose jobs are done and which the server stopped, stops now. The server's label file
/// is stored among its files, durably. The stanza's list stays unchanged, in what a crash leaves too, and so does all
/// that isn't of this backup.
pub fn close_online<'a, D: Disk, C: Clock>(
    alloc: Global,
    d: &mut D,
    clock: &mut C,
    fetched: Fetched<'a>,
    online: Online,
) -> Result<Closed<'a>, MakeFault>
    requires fetched { IsFetched fetched }
    requires online { IsOnline (online_of online) }
    requires free { IsFree (fetched_draft fetched) }
    ensures closed { IfOk result IsClosed }
    ensures of { IfOk result (IsClosedOf fetched.entry (Some (online_of online))) }
    ensures shows { IfOk result (StopsShown (C.state clock.old) (C.state clock.new)) }
    ensures staged { OnOk result (StagesLabel fetched.entry (online_of online) (D.state d.old) (D.state d.new)) }
    ensures unlisted { LeavesList (fetched_draft fetched.entry) (D.state d.old).view (D.state d.new).view }
    ensures only { TouchesBackup (fetched_draft fetched.entry) (D.state d.old) (D.state d.new) }
    ensures beside { StaysBeside (fetched_draft fetched.entry).stanza.now (D.state d.old).view (D.state d.new).view }
    ensures frame { CallsProperly (D.state d.old) (D.state d.new) }
    ensures later { (C.state clock.old).faults ≤ (C.state clock.new).faults }
    ensures least { (C.state clock.old).least ≤ (C.state clock.new).least }
    ensures fault { IfErr result (EndingFails (D.state d.old) (D.state d.new) (C.state clock.old) (C.state clock.new)) }
{
    let stop = stop_of(clock)?;
    store_label(alloc, d, &fetched.draft, &online.label_file)?;
    Ok(Closed {
        fetched,
        stop,
        online: Some(online),
    })
}
