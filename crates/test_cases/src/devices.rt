// The devices in memory, and the program over them.
ghost use Rattle.std.specs.Prelude.{map, IfOk};
ghost use Rattle.memory_workers.specs.Workers.{state_of};
ghost use Rattle.cmd_trait.specs.Code.{AreWorkers};

use crate::node::Node;
use crate::output::Output;
use crate::world::{Times, Wanted};
use base_model::{ArchiveId, Segment};
use cmd_trait::Outside;
use memory_devices::{
    MemClock, MemConnection, MemDataFolder, MemDisk, MemInputFiles, MemLocks, MemNode,
};
use memory_processes::{MemProcesses, OtherPush, OtherTurn};
use memory_workers::{MemLink, MemScheduler};
use program_run::run;
use std::alloc::{AllocError, Global};
use worker_pool::Pool;

/// A call that is to fail, by its device and its number, the first being 0.
#[derive(Drop)]
pub(crate) struct Fail {
    pub device: String,
    pub number: u64,
}

// The stanza for which other processes push, the id of its cluster, and that cluster's system.
const STANZA: &str = "demo";

const ID: ArchiveId = ArchiveId {
    version: 16,
    number: 1,
};

const SYSTEM: u64 = 6917529027641081857;

/// A segment that other processes push, where the one before it is stored.
#[derive(Drop)]
pub(crate) struct Push {
    pub before: Segment,
    pub segment: Segment,
    pub bytes: Vec<u8>,
}

/// What a command finds besides the repository and the data folder: the configuration, the bytes that the server sends,
/// the sizes of their pieces, and what other processes push in their steps. Also the seconds of the clock, whether
/// there is a worker, the locks that others hold, and the calls that are to fail.
#[derive(Drop)]
pub(crate) struct Around {
    pub config: Option<Vec<u8>>,
    pub server: Vec<u8>,
    pub cuts: Vec<u32>,
    pub turns: Vec<Option<Push>>,
    pub seconds: Vec<u64>,
    pub worker: bool,
    pub held: Vec<String>,
    pub fails: Vec<Fail>,
    /// How many bytes the output takes, one at a time.
    pub width: Option<usize>,
}

impl Around {
    // The numbers of the device's calls that are to fail.
    fn numbers(&self, alloc: Global, device: &str) -> Result<Vec<u64>, AllocError> {
        let mut numbers = Vec::new(alloc);
        for fail in &self.fails {
            if fail.device.as_str() == device {
                numbers.push(fail.number)?;
            }
        }
        Ok(numbers)
    }

    fn others(&self, alloc: Global) -> Result<Vec<String>, AllocError> {
        let mut others = Vec::new(alloc);
        for name in &self.held {
            others.push(name.clone()?)?;
        }
        Ok(others)
    }

    fn connection(&self, alloc: Global) -> Result<MemConnection, AllocError> {
        let bytes = self.server.clone()?;
        let cuts = self.cuts.clone()?;
        let fails = self.numbers(alloc, "server")?;
        Ok(MemConnection::new(alloc, bytes, cuts, fails))
    }

    fn processes(&self, alloc: Global) -> Result<MemProcesses, AllocError> {
        let mut turns = Vec::new(alloc);
        for push in &self.turns {
            turns.push(turn_of(push)?)?;
        }
        let stanza = String::from_str(alloc, STANZA)?;
        let fails = self.numbers(alloc, "others")?;
        Ok(MemProcesses::new(alloc, stanza, turns).failing(fails))
    }

    fn source(&self, alloc: Global) -> Result<MemInputFiles, AllocError> {
        let file = match &self.config {
            Some(bytes) => Some(bytes.clone()?),
            None => None,
        };
        let fails = self.numbers(alloc, "config")?;
        Ok(MemInputFiles::new(alloc, file, fails))
    }

    fn clock(&self, alloc: Global) -> Result<MemClock, AllocError> {
        let seconds = self.seconds.clone()?;
        let fails = self.numbers(alloc, "clock")?;
        Ok(MemClock::new(seconds, fails))
    }

    fn output(&self, alloc: Global) -> Result<Output, AllocError> {
        let fails = self.numbers(alloc, "out")?;
        Ok(Output::new(alloc, fails, self.width))
    }
}

fn turn_of(push: &Option<Push>) -> Result<OtherTurn, AllocError> {
    let push = match push {
        Some(push) => Some(OtherPush {
            id: ID,
            before: push.before,
            segment: push.segment,
            system: SYSTEM,
            bytes: push.bytes.clone()?,
        }),
        None => None,
    };
    Ok(OtherTurn::new(push))
}

/// The status of a command, and the devices that it left besides the repository, the spool and the data folder.
#[derive(Drop)]
pub(crate) struct Ran {
    pub status: u8,
    pub server: MemConnection,
    pub processes: MemProcesses,
    pub locks: MemLocks,
    pub config: MemInputFiles,
    pub out: Output,
}

/// A disk of this name, `repo` or `spool`, that holds what is required of it.
pub(crate) fn disk_of(
    alloc: Global,
    device: &str,
    wanted: &Wanted,
    around: &Around,
) -> Result<MemDisk, AllocError> {
    let mut names = Vec::new(alloc);
    let root = format!(in alloc; "{device}/")?;
    for (path, want) in wanted {
        if let (Some(name), Node::File(bytes)) = (path.strip_prefix(root.as_str()), &want.node) {
            names.push((String::from_str(alloc, name)?, bytes.to_vec(alloc)?))?;
        }
    }
    MemDisk::new(alloc, names, around.numbers(alloc, device)?)
}

/// A data folder that holds what is required of it; none where that has no folder for a node.
pub(crate) fn pg_of(
    alloc: Global,
    wanted: &Wanted,
    times: &Times,
    around: &Around,
) -> Result<Option<MemDataFolder>, AllocError> {
    let mut nodes = Vec::new(alloc);
    for (path, want) in wanted {
        if let Some(name) = path.strip_prefix("pg/") {
            let time = times.get(path.as_str()).copied().unwrap_or(0);
            nodes.push((
                String::from_str(alloc, name)?,
                mem_node(alloc, &want.node, time)?,
            ))?;
        }
    }
    Ok(MemDataFolder::new(alloc, nodes, around.numbers(alloc, "pg")?).ok())
}

fn mem_node(alloc: Global, node: &Node, time: u64) -> Result<MemNode, AllocError> {
    match node {
        Node::File(bytes) => Ok(MemNode::File {
            bytes: bytes.to_vec(alloc)?,
            time,
        }),
        Node::Folder => Ok(MemNode::Folder),
        Node::Link | Node::Any => Ok(MemNode::Link),
    }
}

// What the files of the data folder hold.
fn files_in(
    alloc: Global,
    wanted: &Wanted,
    pg: &MemDataFolder,
) -> Result<Vec<(String, Vec<u8>)>, AllocError> {
    let mut files = Vec::new(alloc);
    for (path, _) in wanted {
        let Some(name) = path.strip_prefix("pg/") else {
            continue;
        };
        if let Some(MemNode::File { bytes, .. }) = pg.node(name) {
            files.push((String::from_str(alloc, name)?, bytes.clone()?))?;
        }
    }
    Ok(files)
}

/// The worker, where there is one: it reads what both hold now.
pub(crate) fn workers_of(
    alloc: Global,
    wanted: &Wanted,
    around: &Around,
    repo: &MemDisk,
    pg: &MemDataFolder,
) -> Result<Vec<MemLink>, AllocError>
    ensures { IfOk result (λ links. AreWorkers (map state_of links.items)) }
{
    let mut links = Vec::new(alloc);
    if around.worker {
        let files = files_in(alloc, wanted, pg)?;
        let names = match repo.image(alloc, repo.moment(), &[], &[]) {
            Ok(names) => names,
            Err(_) => Vec::new(alloc),
        };
        let fails = around.numbers(alloc, "worker")?;
        links.push(MemLink::new(alloc, files, names, fails)?)?;
    }
    Ok(links)
}

/// What a command finds, ready for it: the locks' device is made of the names and numbers only as it runs, so that it
/// is seen there that none is taken.
#[derive(Drop)]
pub(crate) struct Ready {
    server: MemConnection,
    processes: MemProcesses,
    others: Vec<String>,
    failing: Vec<u64>,
    clock: MemClock,
    config: MemInputFiles,
    out: Output,
}

pub(crate) fn prepare(alloc: Global, around: &Around) -> Result<Ready, AllocError> {
    Ok(Ready {
        server: around.connection(alloc)?,
        processes: around.processes(alloc)?,
        others: around.others(alloc)?,
        failing: around.numbers(alloc, "locks")?,
        clock: around.clock(alloc)?,
        config: around.source(alloc)?,
        out: around.output(alloc)?,
    })
}

/// Runs the program with these arguments on devices that are ready.
pub(crate) fn run_on(
    alloc: Global,
    words: &[String],
    ready: Ready,
    links: Vec<MemLink>,
    repo: MemDisk,
    spool: MemDisk,
    pg: MemDataFolder,
) -> (Ran, MemDisk, MemDisk, MemDataFolder)
    requires workers { AreWorkers (map state_of links.items) }
{
    let Ready {
        server,
        processes,
        others,
        failing,
        clock,
        config,
        out,
    } = ready;
    let mut outside = Outside {
        repo,
        spool,
        tree: pg,
        server,
        processes,
        clock,
        locks: MemLocks::new(alloc, others, failing),
        config,
        out,
        pool: Pool {
            links,
            scheduler: MemScheduler::new(Vec::new(alloc)),
            lost: Vec::new(alloc),
        },
    };
    let status = run(alloc, words, &mut outside).code();
    let ran = Ran {
        status,
        server: outside.server,
        processes: outside.processes,
        locks: outside.locks,
        config: outside.config,
        out: outside.out,
    };
    (ran, outside.repo, outside.spool, outside.tree)
}
