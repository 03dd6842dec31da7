// Calls and crashes, one after another.
ghost use Rattle.std.specs.Prelude.{◌≡◌, string_bytes, IfOk, OnOk};
ghost use Rattle.program_crashes.specs.Lists.{EndsCall, KeepsStanza, LeadsCall, IsDiskLeft, PlaysOne};

use crate::disks::Disks;
use crate::program_call::called;
use crate::workers::Workers;
use cmd_trait::Outside;
use memory_devices::{
    MemClock, MemConnection, MemDataFolder, MemDisk, MemInputFiles, MemLocks, MemOutput,
};
use memory_processes::MemProcesses;
use memory_workers::{MemLink, MemScheduler};
use std::alloc::Global;
use worker_pool::Pool;

/// What a crash leaves of a disk: the moment of the crash, which kept value each name has, and the bytes of unsynced
/// names; and which calls are to fail afterwards.
#[derive(Drop)]
pub struct Left {
    pub moment: u64,
    pub choice: Vec<(String, u32)>,
    pub unsynced: Vec<(String, Vec<u8>)>,
    pub fail: Vec<u64>,
}

/// A crash, of each disk at a moment of its own.
#[derive(Drop)]
pub struct CrashPoint {
    pub repo: Left,
    pub spool: Left,
}

/// A call of the program with these arguments, on this data folder, with this server, other processes, clock, locks
/// that others hold, configuration and workers, which are received by these picks; and the crash within it, where there
/// is one.
#[derive(Drop)]
pub struct Act {
    pub arguments: Vec<String>,
    pub tree: MemDataFolder,
    pub server: MemConnection,
    pub others: MemProcesses,
    pub clock: MemClock,
    pub held: Vec<String>,
    pub config: MemInputFiles,
    pub workers: Workers,
    pub picks: Vec<u64>,
    pub halt: Option<CrashPoint>,
}

/// How the call of an act ended, or would have ended without its crash: its status, what it wrote, and all other
/// objects but the two disks, as it left them. The links are those of the workers that are left.
#[derive(Drop)]
pub struct Ended {
    pub status: u8,
    pub tree: MemDataFolder,
    pub server: MemConnection,
    pub others: MemProcesses,
    pub clock: MemClock,
    pub locks: MemLocks,
    pub config: MemInputFiles,
    pub out: MemOutput,
    pub links: Vec<MemLink>,
}

/// Why a list of calls can't be played.
#[derive(Clone, Copy, Debug, PartialEq, Eq)]
pub enum PlayFault {
    /// The moment isn't one of the call.
    Moment,
    /// A crash doesn't leave this.
    Image,
    /// Other processes came to push for another stanza.
    Stanza,
    NoMemory,
}

// The disk, opened anew on what a crash at a moment from this one on leaves.
fn reopened(alloc: Global, disk: &MemDisk, from: u64, left: Left) -> Result<MemDisk, PlayFault>
    ensures opened { IfOk result (IsDiskLeft disk.now from left.moment) }
{
    if left.moment < from || disk.moment() < left.moment {
        return Err(PlayFault::Moment);
    }
    let names = match disk.image(alloc, left.moment, &left.choice, &left.unsynced) {
        Ok(names) => names,
        Err(_) => return Err(PlayFault::Image),
    };
    match MemDisk::new(alloc, names, left.fail) {
        Ok(disk) => Ok(disk),
        Err(_) => Err(PlayFault::NoMemory),
    }
}

// The stanza for which others push.
fn stanza_of(alloc: Global, others: &MemProcesses) -> Result<String, PlayFault>
    ensures { IfOk result (λ stanza. string_bytes stanza ≡ string_bytes others.now.stanza) }
{
    match String::from_str(alloc, others.stanza()) {
        Ok(stanza) => Ok(stanza),
        Err(_) => Err(PlayFault::NoMemory),
    }
}

// They push for this stanza.
fn keeps_to(others: &MemProcesses, stanza: &str) -> Result<(), PlayFault>
    ensures { OnOk result (string_bytes others.now.stanza ≡ stanza.now) }
{
    if others.stanza() != stanza {
        return Err(PlayFault::Stanza);
    }
    Ok(())
}

// Calls the program on the disks, and hands back what it left, and the act's crash. No clause of the call says that
// others keep to their stanza, so it is looked at.
fn call_on(
    alloc: Global,
    disks: Disks,
    act: Act,
) -> Result<(Disks, Ended, Option<CrashPoint>), PlayFault>
    ensures call { IfOk result (λ r. EndsCall act r.1 disks r.0) }
    ensures stanza { IfOk result (λ r. KeepsStanza act r.1) }
    ensures leads { IfOk result (λ r. LeadsCall act r.1 disks r.0) }
    ensures halt { IfOk result (λ r. r.2 ≡ act.halt) }
{
    let stanza = stanza_of(alloc, &act.others)?;
    let pool = Pool {
        links: act.workers.links,
        scheduler: MemScheduler::new(act.picks),
        lost: Vec::new(alloc),
    };
    let mut outside = Outside {
        repo: disks.repo,
        spool: disks.spool,
        tree: act.tree,
        server: act.server,
        processes: act.others,
        clock: act.clock,
        locks: MemLocks::new(alloc, act.held, Vec::new(alloc)),
        config: act.config,
        out: MemOutput::new(alloc, Vec::new(alloc)),
        pool,
    };
    let status = called(alloc, &act.arguments, &mut outside);
    keeps_to(&outside.processes, &stanza)?;
    let disks = Disks {
        repo: outside.repo,
        spool: outside.spool,
    };
    let ended = Ended {
        status,
        tree: outside.tree,
        server: outside.server,
        others: outside.processes,
        clock: outside.clock,
        locks: outside.locks,
        config: outside.config,
        out: outside.out,
        links: outside.pool.links,
    };
    Ok((disks, ended, act.halt))
}

// Opens both disks anew on what the crash leaves of each.
fn both_reopened(
    alloc: Global,
    disks: &Disks,
    repo_from: u64,
    spool_from: u64,
    halt: CrashPoint,
) -> Result<Disks, PlayFault>
    ensures repo { IfOk result (λ d. IsDiskLeft disks.now.repo repo_from halt.repo.moment d.repo) }
    ensures spool { IfOk result (λ d. IsDiskLeft disks.now.spool spool_from halt.spool.moment d.spool) }
{
    let repo = reopened(alloc, &disks.repo, repo_from, halt.repo)?;
    let spool = reopened(alloc, &disks.spool, spool_from, halt.spool)?;
    Ok(Disks { repo, spool })
}

/// Plays a call, with its crash where it has one, and returns how it ended, or would have ended. From disks that keep a
/// list of calls it leads to disks that keep it with its own. Where it waits for steps of other processes, these have
/// to push for the stanza that its arguments ask for.
pub fn play_one(alloc: Global, disks: Disks, act: Act) -> Result<(Disks, Ended), PlayFault>
    ensures plays { IfOk result (λ r. PlaysOne act r.1 disks r.0) }
{
    let repo_from = disks.repo.moment();
    let spool_from = disks.spool.moment();
    let (left, ended, halt) = call_on(alloc, disks, act)?;
    match halt {
        None => Ok((left, ended)),
        Some(halt) => {
            let opened = both_reopened(alloc, &left, repo_from, spool_from, halt)?;
            Ok((opened, ended))
        }
    }
}
