// Backups of a running server, after the steps of other processes.
use crate::acts::{act, file, nodes, others, played, stop_at};
use crate::same::{same, same_statuses, well};
use base_model::{ArchiveId, Segment};
use memory_devices::{MemConnection, MemDataFolder};
use memory_processes::{OtherPush, OtherTurn};
use program_crashes::{Act, PlayFault, play};
use std::alloc::{AllocError, Global};

const CREATE: &str =
    "--stanza=demo --pg1-path=pg --repo1-path=repo --lock-path=lock --no-online stanza-create";

const PUSH: &str =
    "--stanza=demo --pg1-path=pg --repo1-path=repo --lock-path=lock archive-push pg_wal/000000010000000000000002";

const BACKUP: &str =
    "--stanza=demo --pg1-path=pg --repo1-path=repo --lock-path=lock --pg1-socket-path=/run/pg --type=full --no-expire-auto --archive-timeout=2 backup";

const VERIFY: &str = "--stanza=demo --repo1-path=repo verify";

const SYSTEM: u64 = 6917529027641081857;

// The server grants a session, and answers each question with a row, which is followed by its end.
const SESSION: &[u8] = b"R\0\0\0\x08\0\0\0\0Z\0\0\0\x05I";

const END: &[u8] = b"C\0\0\0\x0dSELECT 1\0Z\0\0\0\x05I";

// It is of this system, with segments of 1 MiB, and backs up from the second one to the third.
const SYSTEM_ROW: &[u8] =
    b"T\0\0\0\x04D\0\0\0\x28\0\x02\0\0\0\x136917529027641081857\0\0\0\x071048576";

const START_ROW: &[u8] =
    b"T\0\0\0\x04D\0\0\0\x2e\0\x02\0\0\0\x080/200028\0\0\0\x18000000010000000000000002";

const STOP_ROW: &[u8] =
    b"T\0\0\0\x04D\0\0\0\x53\0\x04\0\0\0\x080/300100\0\0\0\x18000000010000000000000003";

const LABEL_COLUMNS: &[u8] = b"\0\0\0\x1dSTART WAL LOCATION: 0/200028\n\0\0\0\0";

const ANSWERS: &[&[u8]] = &[
    SESSION,
    SYSTEM_ROW,
    END,
    START_ROW,
    END,
    STOP_ROW,
    LABEL_COLUMNS,
    END,
];

const LABEL_FILE: &str = "backup/demo/20240102-030408F/pg_data/backup_label";

// A segment of 1 MiB, with the prefix that PostgreSQL gives it.
fn segment_bytes(alloc: Global) -> Result<Vec<u8>, AllocError> {
    let mut bytes = Vec::new(alloc);
    bytes.extend_from_slice(&[0, 0, 2, 0])?;
    bytes.resize(24, 0)?;
    bytes.extend_from_slice(SYSTEM.to_le_bytes().as_slice())?;
    bytes.extend_from_slice(1048576u32.to_le_bytes().as_slice())?;
    bytes.resize(1048576, 0)?;
    Ok(bytes)
}

// The third segment is pushed after the second one, in the second step.
fn turns(alloc: Global) -> Result<Vec<OtherTurn>, AllocError> {
    let mut turns = Vec::new(alloc);
    turns.push(OtherTurn::new(None))?;
    turns.push(OtherTurn::new(Some(OtherPush {
        id: ArchiveId {
            version: 16,
            number: 1,
        },
        before: segment(2),
        segment: segment(3),
        system: SYSTEM,
        bytes: segment_bytes(alloc)?,
    })))?;
    Ok(turns)
}

fn segment(seg: u32) -> Segment {
    Segment {
        timeline: 1,
        log: 0,
        seg,
    }
}

// The first push of a segment, at this second.
fn push(alloc: Global, second: u64) -> Result<Act, PlayFault> {
    let mut done = act(alloc, PUSH, second, None)?;
    done.tree = tree(alloc).or(Err(PlayFault::NoMemory))?;
    Ok(done)
}

fn tree(alloc: Global) -> Result<MemDataFolder, AllocError> {
    let mut nodes = nodes(alloc)?;
    let bytes = segment_bytes(alloc)?;
    nodes.push(file(alloc, "pg_wal/000000010000000000000002", &bytes)?)?;
    MemDataFolder::new(alloc, nodes, Vec::new(alloc)).or(Err(AllocError))
}

fn server(alloc: Global) -> Result<MemConnection, AllocError> {
    let mut bytes = Vec::new(alloc);
    for part in ANSWERS {
        bytes.extend_from_slice(part)?;
    }
    Ok(MemConnection::new(alloc, bytes, Vec::new(alloc), Vec::new(alloc)))
}

// A backup at this second, with its crash.
fn backup(alloc: Global, second: u64, stop: Option<u64>) -> Result<Act, PlayFault> {
    let halt = match stop {
        Some(moment) => Some(stop_at(alloc, moment)),
        None => None,
    };
    let mut done = act(alloc, BACKUP, second, halt)?;
    done.server = server(alloc).or(Err(PlayFault::NoMemory))?;
    let turns = turns(alloc).or(Err(PlayFault::NoMemory))?;
    done.others = others(alloc, turns).or(Err(PlayFault::NoMemory))?;
    Ok(done)
}

// A stanza with a segment.
fn begun(alloc: Global) -> Result<Vec<Act>, PlayFault> {
    let mut acts = Vec::new(alloc);
    acts.push(act(alloc, CREATE, 1704164645, None)?)
        .or(Err(PlayFault::NoMemory))?;
    acts.push(push(alloc, 1704164646)?)
        .or(Err(PlayFault::NoMemory))?;
    Ok(acts)
}

// A backup that is stopped at this moment, another one, and a look at all of it.
fn backups(alloc: Global, moment: u64) -> Result<Vec<Act>, PlayFault> {
    let mut acts = Vec::new(alloc);
    acts.push(backup(alloc, 1704164647, Some(moment))?)
        .or(Err(PlayFault::NoMemory))?;
    acts.push(backup(alloc, 1704164648, None)?)
        .or(Err(PlayFault::NoMemory))?;
    acts.push(act(alloc, VERIFY, 1704164650, None)?)
        .or(Err(PlayFault::NoMemory))?;
    Ok(acts)
}

// How many moments of the backup come before its crash.
const BEHIND: u64 = 40;

// A backup of a running server is stopped, and the next one is listed.
#[test]
fn a_running_backup_goes_on_after_a_stop(rt: HostRuntime) {
    let alloc = rt.alloc();
    let acts = well(&rt, begun(alloc));
    let (disks, ended) = well(&rt, played(alloc, acts));
    same_statuses(&rt, &ended, &[0, 0]);
    let moment = disks.repo.moment().saturating_add(BEHIND);
    let acts = well(&rt, backups(alloc, moment));
    let (disks, ended) = well(&rt, play(alloc, disks, acts));
    same_statuses(&rt, &ended, &[0, 0, 0]);
    same(
        &rt,
        disks.repo.bytes(LABEL_FILE),
        Some(b"START WAL LOCATION: 0/200028\n".as_slice()),
    );
}
