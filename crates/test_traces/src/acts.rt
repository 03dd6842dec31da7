// Calls of the program on one data folder, and what a list of them leaves.
use memory_devices::{MemClock, MemConnection, MemDataFolder, MemInputFiles, MemNode};
use memory_processes::{MemProcesses, OtherTurn};
use program_crashes::{Act, CrashPoint, Disks, Ended, Left, PlayFault, Workers, play};
use std::alloc::{AllocError, Global};

/// A control file as one of system 6917529027641081857 begins.
pub(crate) const CONTROL: &[u8] =
    b"\x01\x00\x00\x00\x00\x00\x00\x60\x14\x05\x00\x00\xff\xf5\x0e\x0c";

pub(crate) fn file(
    alloc: Global,
    path: &str,
    bytes: &[u8],
) -> Result<(String, MemNode), AllocError> {
    let bytes = bytes.to_vec(alloc)?;
    Ok((
        String::from_str(alloc, path)?,
        MemNode::File { bytes, time: 0 },
    ))
}

pub(crate) fn folder(alloc: Global, path: &str) -> Result<(String, MemNode), AllocError> {
    Ok((String::from_str(alloc, path)?, MemNode::Folder))
}

// A data folder of version 16, with the history of the second timeline.
fn tree(alloc: Global) -> Result<MemDataFolder, PlayFault> {
    let nodes = nodes(alloc).or(Err(PlayFault::NoMemory))?;
    MemDataFolder::new(alloc, nodes, Vec::new(alloc)).or(Err(PlayFault::NoMemory))
}

pub(crate) fn nodes(alloc: Global) -> Result<Vec<(String, MemNode)>, AllocError> {
    let mut nodes = Vec::new(alloc);
    nodes.push(folder(alloc, "global")?)?;
    nodes.push(file(alloc, "global/pg_control", CONTROL)?)?;
    nodes.push(file(alloc, "PG_VERSION", b"16\n")?)?;
    nodes.push(folder(alloc, "pg_wal")?)?;
    nodes.push(file(alloc, "pg_wal/00000002.history", b"hello")?)?;
    Ok(nodes)
}

fn program_arguments(alloc: Global, text: &str) -> Result<Vec<String>, AllocError> {
    let mut arguments = Vec::new(alloc);
    for word in text.split(' ') {
        arguments.push(String::from_str(alloc, word)?)?;
    }
    Ok(arguments)
}

/// A crash of the repository's disk at this moment, and of the spool's before it did anything.
pub(crate) fn stop_at(alloc: Global, moment: u64) -> CrashPoint {
    CrashPoint {
        repo: left_at(alloc, moment),
        spool: left_at(alloc, 0),
    }
}

fn left_at(alloc: Global, moment: u64) -> Left {
    Left {
        moment,
        choice: Vec::new(alloc),
        unsynced: Vec::new(alloc),
        fail: Vec::new(alloc),
    }
}

/// A file of these bytes.
pub(crate) fn bytes(
    alloc: Global,
    path: &str,
    bytes: &[u8],
) -> Result<(String, Vec<u8>), AllocError> {
    Ok((String::from_str(alloc, path)?, bytes.to_vec(alloc)?))
}

// One worker, which reads the same data folder.
fn worker(alloc: Global) -> Result<Workers, AllocError> {
    let mut files = Vec::new(alloc);
    files.push(bytes(alloc, "global/pg_control", CONTROL)?)?;
    files.push(bytes(alloc, "PG_VERSION", b"16\n")?)?;
    files.push(bytes(alloc, "pg_wal/00000002.history", b"hello")?)?;
    Workers::one(alloc, files, Vec::new(alloc), Vec::new(alloc))
}

/// Other processes that take these steps for the stanza `demo`.
pub(crate) fn others(alloc: Global, turns: Vec<OtherTurn>) -> Result<MemProcesses, AllocError> {
    Ok(MemProcesses::new(alloc, String::from_str(alloc, "demo")?, turns))
}

/// A call with these arguments, at this second, and its crash.
pub(crate) fn act(
    alloc: Global,
    arguments: &str,
    second: u64,
    halt: Option<CrashPoint>,
) -> Result<Act, PlayFault> {
    let seconds = [second, second, second].to_vec(alloc);
    Ok(Act {
        arguments: program_arguments(alloc, arguments).or(Err(PlayFault::NoMemory))?,
        tree: tree(alloc)?,
        server: MemConnection::new(alloc, Vec::new(alloc), Vec::new(alloc), Vec::new(alloc)),
        others: others(alloc, Vec::new(alloc)).or(Err(PlayFault::NoMemory))?,
        clock: MemClock::new(seconds.or(Err(PlayFault::NoMemory))?, Vec::new(alloc)),
        held: Vec::new(alloc),
        config: MemInputFiles::new(alloc, None, Vec::new(alloc)),
        workers: worker(alloc).or(Err(PlayFault::NoMemory))?,
        picks: Vec::new(alloc),
        halt,
    })
}

// One worker, which reads a repository in whose backup of this label a version file of these bytes lies, or none, and
// of whose link the calls with these numbers fail.
fn reader(
    alloc: Global,
    label: &str,
    version: Option<&[u8]>,
    fail: &[u64],
) -> Result<Workers, AllocError> {
    let mut files = Vec::new(alloc);
    files.push(stored(alloc, label, "global/pg_control", CONTROL)?)?;
    if let Some(version) = version {
        files.push(stored(alloc, label, "PG_VERSION", version)?)?;
    }
    files.push(stored(alloc, label, "pg_wal/00000002.history", b"hello")?)?;
    Workers::one(alloc, Vec::new(alloc), files, fail.to_vec(alloc)?)
}

fn stored(
    alloc: Global,
    label: &str,
    path: &str,
    content: &[u8],
) -> Result<(String, Vec<u8>), AllocError> {
    let mut name = String::from_str(alloc, "backup/demo/")?;
    name.push_str(label)?;
    name.push_str("/pg_data/")?;
    name.push_str(path)?;
    Ok((name, content.to_vec(alloc)?))
}

/// A restore with these arguments into a folder that holds this file, or nothing, by one such worker.
pub(crate) fn restore(
    alloc: Global,
    arguments: &str,
    held: Option<&str>,
    version: Option<&[u8]>,
    fail: &[u64],
) -> Result<Act, PlayFault> {
    let mut nodes = Vec::new(alloc);
    if let Some(path) = held {
        let node = file(alloc, path, b"").or(Err(PlayFault::NoMemory))?;
        nodes.push(node).or(Err(PlayFault::NoMemory))?;
    }
    let mut done = act(alloc, arguments, 0, None)?;
    done.tree = MemDataFolder::new(alloc, nodes, Vec::new(alloc)).or(Err(PlayFault::NoMemory))?;
    done.workers = reader(alloc, "20240102-030406F", version, fail).or(Err(PlayFault::NoMemory))?;
    Ok(done)
}

/// What these calls leave of two empty disks, and how each ended.
pub(crate) fn played(alloc: Global, acts: Vec<Act>) -> Result<(Disks, Vec<Ended>), PlayFault> {
    let disks = Disks::empty(alloc).or(Err(PlayFault::NoMemory))?;
    play(alloc, disks, acts)
}
