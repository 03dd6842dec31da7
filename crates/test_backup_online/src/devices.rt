// A stanza, the data folder of a running server with one worker, and a backup of it.
ghost use Rattle.std.specs.Prelude.{◌≡◌, ◌<◌, ◌^◌, IfOk, map, vec_len};
ghost use Rattle.cmd_setup.specs.Readies.{IsArchiveOf, IsBackupOf};
ghost use Rattle.cmd_types.specs.declared.stages.plan.Pairs.TheVariants.{ReadBoth};
ghost use Rattle.cmd_types.specs.Plans.{AreHeld};
ghost use Rattle.worker_pool.specs.Run.{AreReady};

use crate::others::Storing;
use crate::serving::{add_row, greeting};
use backup_plan::PlanSettings;
use base_devices::{DataFolder, Disk, Link, Locks};
use base_model::{ArchiveInfo, BackupInfo, BackupKind};
use cmd_backup_common::{KnownStanza, TakeOrder};
use cmd_backup_offline::OfflineOrder;
use cmd_backup_online::{
    OnlineBackupFault, OnlineOrder, OnlineTask, back_up_online, online_backup_message,
    online_backup_status,
};
use cmd_setup::{lock_names, prepare, take_locks};
use cmd_types::{Halt, Outcome, Pairs, Plan, StageFault, SyncScope};
use memory_devices::{MemClock, MemConnection, MemDataFolder, MemDisk, MemLocks, MemNode};
use memory_workers::{MemLink, MemScheduler};
use repo_stanza::{Control, create};
use std::alloc::{AllocError, Global};
use worker_pool::Pool;

/// The names of files with their bytes.
pub(crate) type Named = Vec<(String, Vec<u8>)>;

pub(crate) const CONTROL: Control = Control {
    system: 6917529027641081857,
    control: 1300,
    catalog: 202209061,
    version: 15,
};

/// The label file that the server reports.
pub(crate) const LABEL_FILE: &str = "START WAL LOCATION: 0/200028\n";

/// A file of the data folder: its path, its bytes and its time.
pub(crate) type Holding = (&'static str, &'static [u8], u64);

/// What the data folder holds.
pub(crate) const FILES: &[Holding] = &[
    ("PG_VERSION", b"15\n", 7),
    ("base/1/112", b"hello", 7),
    ("global/pg_control", b"head", 7),
    ("postmaster.pid", b"4711\n", 7),
];

const FOLDERS: &[&str] = &["base", "base/1", "global"];

const PLAN: Plan = Plan {
    sync_scope: SyncScope::Whole,
    folder: true,
    backup_lock: true,
    archive_lock: false,
    control: false,
    pairs: Pairs::ReadBoth,
};

/// Which object a call is of.
#[derive(Clone, Copy, Debug, PartialEq, Eq)]
pub(crate) enum Device {
    Repo,
    Spool,
    TheDataFolder,
    Server,
    Clock,
    Worker,
}

/// Which kind is asked for, and whether by digests, what the data folder holds, what the server and the others report,
/// and which call fails.
#[derive(Clone, Copy)]
pub(crate) struct Case {
    pub kind: BackupKind,
    pub settings: PlanSettings,
    pub files: &'static [Holding],
    /// The second by which the backup is named.
    pub second: u64,
    pub system: &'static str,
    /// The server's answers as its backup starts, and as it stops.
    pub start: &'static [&'static str],
    pub stop: &'static [&'static str],
    /// The name that others make, in the step with this number.
    pub segment: &'static str,
    pub turn: u64,
    pub failing: Option<(Device, u64)>,
}

impl Case {
    // The numbers of this device's calls that fail.
    fn fails(&self, alloc: Global, device: Device) -> Result<Vec<u64>, AllocError> {
        match self.failing {
            Some((failing, call)) if failing == device => [call].to_vec(alloc),
            _ => Ok(Vec::new(alloc)),
        }
    }

    fn clock(&self, alloc: Global) -> Result<MemClock, AllocError> {
        let ended = self.second.saturating_add(9);
        let seconds = [self.second, self.second, self.second, ended].to_vec(alloc)?;
        Ok(MemClock::new(seconds, self.fails(alloc, Device::Clock)?))
    }

    // The server that answers so.
    fn server(&self, alloc: Global) -> Result<MemConnection, AllocError> {
        let mut bytes = greeting(alloc)?;
        add_row(alloc, &mut bytes, &[self.system, "1048576"])?;
        add_row(alloc, &mut bytes, self.start)?;
        add_row(alloc, &mut bytes, self.stop)?;
        let cuts = [7u32, 40, 3].to_vec(alloc)?;
        Ok(MemConnection::new(alloc, bytes, cuts, self.fails(alloc, Device::Server)?))
    }
}

/// An empty stanza, whose archive has the first segment.
pub(crate) fn stanza(alloc: Global) -> Result<Named, AllocError> {
    let first =
        "archive/demo/15-1/0000000100000000/000000010000000000000002-a9993e364706816aba3e25717850c26c9cd0d89d";
    let mut made = MemDisk::new(alloc, Vec::new(alloc), Vec::new(alloc))?;
    let _ = create(alloc, &mut made, "demo", &CONTROL);
    let mut names = names_of(alloc, &made);
    names.push((String::from_str(alloc, first)?, b"abc".to_vec(alloc)?))?;
    Ok(names)
}

/// The names that a disk holds.
pub(crate) fn names_of(alloc: Global, disk: &MemDisk) -> Named {
    match disk.image(alloc, disk.moment(), &[], &[]) {
        Ok(names) => names,
        Err(_) => Vec::new(alloc),
    }
}

/// A disk that is opened anew on these names, and whose calls with these numbers fail.
pub(crate) fn reopened(
    alloc: Global,
    names: &[(String, Vec<u8>)],
    fail: Vec<u64>,
) -> Result<MemDisk, AllocError> {
    let mut copy = Vec::new(alloc);
    for (name, bytes) in names {
        copy.push((name.clone()?, bytes.clone()?))?;
    }
    MemDisk::new(alloc, copy, fail)
}

// The nodes of a data folder that holds these files.
fn nodes(alloc: Global, files: &[Holding]) -> Result<Vec<(String, MemNode)>, AllocError> {
    let mut nodes = Vec::new(alloc);
    for path in FOLDERS {
        nodes.push((String::from_str(alloc, path)?, MemNode::Folder))?;
    }
    for &(path, bytes, time) in files {
        let bytes = bytes.to_vec(alloc)?;
        nodes.push((
            String::from_str(alloc, path)?,
            MemNode::File { bytes, time },
        ))?;
    }
    Ok(nodes)
}

// A link to one worker that reads a data folder that holds these files, whose calls with these numbers fail.
fn link(alloc: Global, files: &[Holding], fail: Vec<u64>) -> Result<Vec<MemLink>, AllocError>
    ensures few { IfOk result (λ links. vec_len links < 2 ^ 32) }
    ensures ready { IfOk result (λ links. AreReady (map ⟦<MemLink as Link>⟧.link_state links.items)) }
{
    let mut links = Vec::new(alloc);
    let mut tree = Vec::new(alloc);
    for &(path, bytes, _) in files {
        tree.push((String::from_str(alloc, path)?, bytes.to_vec(alloc)?))?;
    }
    links.push(MemLink::new(alloc, tree, Vec::new(alloc), fail)?)?;
    Ok(links)
}

// The values of the stanza's pairs.
fn values<D: Disk, T: DataFolder, K: Locks>(
    alloc: Global,
    repo: &mut D,
    tree: &mut T,
    locks: &K,
    stanza: &str,
    plan: &Plan,
) -> Result<(ArchiveInfo, BackupInfo), Halt<StageFault>>
    requires locked { AreHeld plan.now stanza.now (K.state locks.now).taken }
    requires both { plan.now.pairs ≡ ReadBoth }
    ensures archive { IfOk result (λ v. IsArchiveOf stanza.now (D.state repo.new).view.now v.0) }
    ensures backup { IfOk result (λ v. IsBackupOf stanza.now (D.state repo.new).view.now v.1) }
{
    let ready = prepare(alloc, repo, tree, locks, stanza, plan)?;
    match (ready.archive, ready.backup) {
        (Some(archive), Some(backup)) => Ok((archive, backup)),
        _ => Err(Halt::NoMemory),
    }
}

fn order(case: &Case) -> OnlineOrder<'static> {
    OnlineOrder {
        later: OfflineOrder {
            take: TakeOrder {
                data_folder: "/srv/pg",
                repository: "/srv/repo",
                workers: 1,
            },
            kind: case.kind,
            settings: case.settings,
        },
        socket: "/run/postgresql/.s.PGSQL.5432",
        user: "postgres",
        database: "postgres",
        fast: true,
        archive_timeout: 3,
    }
}

// The line of a backup that was made, or the status and the message of one that was refused, or which object failed.
fn text_of(
    alloc: Global,
    done: Result<Outcome, Halt<OnlineBackupFault>>,
) -> Result<String, AllocError> {
    let fault = match done {
        Ok(Outcome::Finished { lines }) => return Ok(lines),
        Ok(outcome) => return format!(in alloc; "{outcome:?}"),
        Err(Halt::Refused(fault)) => fault,
        Err(halt) => return format!(in alloc; "{halt:?}"),
    };
    let Ok(message) = online_backup_message(alloc, &fault) else {
        return Err(AllocError);
    };
    let message = str::from_utf8(&message).unwrap_or("no UTF-8");
    format!(in alloc; "{} {message}", online_backup_status(&fault))
}

// The result of a backup into this repository.
fn known(alloc: Global, repo: &mut MemDisk, case: &Case) -> Result<String, AllocError> {
    let mut spool = MemDisk::new(alloc, Vec::new(alloc), case.fails(alloc, Device::Spool)?)?;
    let fails = case.fails(alloc, Device::TheDataFolder)?;
    let Ok(mut tree) = MemDataFolder::new(alloc, nodes(alloc, case.files)?, fails) else {
        return Err(AllocError);
    };
    let mut locks = MemLocks::new(alloc, Vec::new(alloc), Vec::new(alloc));
    let names = lock_names(alloc, &PLAN, "demo")?;
    if take_locks(alloc, &mut locks, "/run", &names, &PLAN, "demo").is_err() {
        return Err(AllocError);
    }
    let (archive, backup) = match values(alloc, repo, &mut tree, &locks, "demo", &PLAN) {
        Ok(values) => values,
        Err(halt) => return format!(in alloc; "{halt:?}"),
    };
    let mut pool = Pool {
        links: link(alloc, case.files, case.fails(alloc, Device::Worker)?)?,
        scheduler: MemScheduler::new(Vec::new(alloc)),
        lost: Vec::new(alloc),
    };
    let task = OnlineTask {
        order: order(case),
        stanza: KnownStanza {
            name: "demo",
            control: &CONTROL,
            archive: &archive,
            backup,
        },
    };
    let done = back_up_online(
        alloc,
        repo,
        &mut spool,
        &mut tree,
        &mut case.server(alloc)?,
        &mut Storing::new(case.segment, case.turn),
        &mut case.clock(alloc)?,
        &locks,
        &mut pool,
        task,
    );
    text_of(alloc, done)
}

/// The result of a backup into a repository with these names, and which names it then has.
pub(crate) fn taken(
    alloc: Global,
    names: &[(String, Vec<u8>)],
    case: &Case,
) -> Result<(String, Named), AllocError> {
    let mut repo = reopened(alloc, names, case.fails(alloc, Device::Repo)?)?;
    let known = known(alloc, &mut repo, case)?;
    Ok((known, names_of(alloc, &repo)))
}
