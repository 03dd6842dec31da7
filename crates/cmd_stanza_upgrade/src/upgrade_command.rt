// stanza-upgrade: gives the stanza a further cluster, or keeps the current one.
ghost use Rattle.std.specs.Prelude.{◌≡◌, ◌∷◌, [], ◌≤◌, None, length, IfOk, IfErr, OnOk};
ghost use Rattle.base_devices.specs.States.{CallsProperly};
ghost use Rattle.base_disk.specs.Store.{ChangesOnly};
ghost use Rattle.base_model.specs.InfoFiles.{IsArchiveInfo, IsBackupInfo};
ghost use Rattle.base_model.specs.Values.{archive_info_of, backup_info_of};
ghost use Rattle.repo_stanza.specs.Judging.{HoldsList, IsValidated};
ghost use Rattle.repo_stanza.specs.Owned.{IsOfPairs};
ghost use Rattle.cmd_types.specs.declared.stages.halt.Halt.TheVariants.{NoMemory as WithoutMemory};
ghost use Rattle.cmd_types.specs.Halts.{HaltCause, Never};
ghost use Rattle.cmd_types.specs.Plans.{archive_lock, backup_lock};
ghost use Rattle.cmd_types.specs.Reached.{OnFinished};
ghost use Rattle.cmd_setup.specs.Readies.{IsArchiveOf, IsBackupOf};
ghost use Rattle.cmd_stanza_create.specs.Talking.{AsksIfAny, IsOfIfAny};
ghost use Rattle.cmd_stanza_upgrade.specs.Faults.{Differs, UpgradeListFails, Refuses, FailedOf, ClosesTalk};
ghost use Rattle.cmd_stanza_upgrade.specs.Texts.{line_of};
ghost use Rattle.cmd_stanza_upgrade.specs.Upgrading.{UpgradesStanza, FinishesUpgraded, StaysIfRefused};

use crate::fault::{UpgradeCommandFault, of_server, of_stanza, of_upgrade};
use crate::lines::line_of;
use base_devices::{Disk, Locks, ServerConnection};
use base_model::{ArchiveInfo, BackupInfo};
use cmd_stanza_create::{Server, check_server};
use cmd_types::{Halt, Outcome};
use repo_stanza::{Control, Upgraded, upgrade, validate_list};
use std::alloc::Global;

/// What was read of the data folder and the repository: the folder's cluster, and the values of the two info pairs.
#[derive(Drop)]
pub struct StanzaValues {
    pub control: Control,
    pub archive: ArchiveInfo,
    pub backup: BackupInfo,
}

// The list to which the backup pair's value validates.
fn validated(
    archive: &ArchiveInfo,
    backup: BackupInfo,
) -> Result<BackupInfo, Halt<UpgradeCommandFault>>
    requires archive { IsArchiveInfo (archive_info_of archive.now) }
    requires backup { IsBackupInfo (backup_info_of backup) }
    ensures settled { IfOk result (IsValidated archive.now backup) }
    ensures valid { IfOk result (λ w. IsBackupInfo (backup_info_of w)) }
    ensures cause { IfErr result
        (HaltCause (Differs (archive_info_of archive.now) (backup_info_of backup)) Never) }
{
    match validate_list(archive, backup) {
        Ok(list) => Ok(list),
        Err(fault) => Err(of_stanza(fault)),
    }
}

// How an upgrade ends: with a line.
fn ended(
    alloc: Global,
    stanza: &str,
    known: &Control,
    upgraded: Upgraded,
) -> Result<Outcome, Halt<UpgradeCommandFault>>
    ensures line { IfOk result
        (λ o. OnFinished o (λ lines. lines ≡ line_of stanza.now known.now.version upgraded)) }
    ensures starved { IfErr result (λ h. h ≡ WithoutMemory) }
{
    match line_of(alloc, stanza, known.version, upgraded) {
        Ok(lines) => Ok(Outcome::Finished { lines }),
        Err(_) => Err(Halt::NoMemory),
    }
}

// An upgrade of the pairs that have these values, with the line that says what it was.
fn upgrade_list<D: Disk>(
    alloc: Global,
    repo: &mut D,
    stanza: &str,
    known: &Control,
    archive: ArchiveInfo,
    list: BackupInfo,
) -> Result<Outcome, Halt<UpgradeCommandFault>>
    requires list { HoldsList stanza.now (archive_info_of archive) (backup_info_of list) (D.state repo.old) }
    requires archive { IsArchiveInfo (archive_info_of archive) }
    requires backup { IsBackupInfo (backup_info_of list) }
    requires same { length list.history.items ≡ length archive.history.items }
    ensures does { UpgradesStanza stanza.now known.now (D.state repo.old) (D.state repo.new) result }
    ensures made { IfOk result (FinishesUpgraded stanza.now known.now (D.state repo.old) (D.state repo.new)) }
    ensures refused { StaysIfRefused (D.state repo.old) (D.state repo.new) result }
    ensures only { ChangesOnly (IsOfPairs stanza.now) (D.state repo.old).view (D.state repo.new).view }
    ensures frame { CallsProperly (D.state repo.old) (D.state repo.new) }
    ensures cause { IfErr result (UpgradeListFails stanza.now known.now (D.state repo.old) (D.state repo.new)) }
{
    match upgrade(alloc, repo, stanza, known, archive, list) {
        Ok(upgraded) => ended(alloc, stanza, known, upgraded),
        Err(fault) => Err(of_upgrade(fault)),
    }
}

/// Makes the data folder's cluster the stanza's current one, under the next number, or keeps the pairs where it is the
/// current one. Where a server is asked, it has to be of the cluster's system. As long as it has the locks nobody can
/// release them.
pub fn upgrade_stanza<D: Disk, V: ServerConnection, K: Locks>(
    alloc: Global,
    repo: &mut D,
    connection: &mut V,
    _locks: &K,
    stanza: &str,
    server: Option<Server<'_>>,
    values: StanzaValues,
) -> Result<Outcome, Halt<UpgradeCommandFault>>
    requires locked { (K.state _locks.now).taken ≡ archive_lock stanza.now ∷ backup_lock stanza.now ∷ [] }
    requires archive { IsArchiveOf stanza.now (D.state repo.old).view.now values.archive }
    requires backup { IsBackupOf stanza.now (D.state repo.old).view.now values.backup }
    ensures does { UpgradesStanza stanza.now values.control (D.state repo.old) (D.state repo.new) result }
    ensures made { IfOk result
        (FinishesUpgraded stanza.now values.control (D.state repo.old) (D.state repo.new)) }
    ensures refused { StaysIfRefused (D.state repo.old) (D.state repo.new) result }
    ensures only { ChangesOnly (IsOfPairs stanza.now) (D.state repo.old).view (D.state repo.new).view }
    ensures frame { CallsProperly (D.state repo.old) (D.state repo.new) }

    // The server is asked at its socket, and the talk is ended; without one the connection isn't used.
    ensures same { OnOk result (IsOfIfAny server.entry values.control.system (V.state connection.old)) }
    ensures asks { OnOk result (AsksIfAny server.entry (V.state connection.old) (V.state connection.new)) }
    ensures quiet { server.entry ≡ None → connection.new ≡ connection.old }
    ensures closed { IfErr result (ClosesTalk (V.state connection.old) (V.state connection.new)) }
    ensures later { (V.state connection.old).faults ≤ (V.state connection.new).faults }

    ensures cause { IfErr result
        (Refuses stanza.now values server.entry (D.state repo.old) (V.state connection.old)) }
    ensures failed { IfErr result
        (FailedOf D.state V.state repo.old repo.new connection.old connection.new) }
{
    let StanzaValues {
        control,
        archive,
        backup,
    } = values;
    let list = validated(&archive, backup)?;
    match check_server(alloc, connection, server, control.system) {
        Ok(()) => upgrade_list(alloc, repo, stanza, &control, archive, list),
        Err(halt) => Err(of_server(halt)),
    }
}
