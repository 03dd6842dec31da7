// A file of the log that is queued for archive-push:async, which is stopped.
use crate::acts::{act, file, folder, nodes, played, stop_at};
use crate::same::{same, same_statuses, well};
use memory_devices::MemDataFolder;
use program_crashes::{Act, PlayFault};
use std::alloc::{AllocError, Global};
use std::process::Abort;

const CREATE: &str =
    "--stanza=demo --pg1-path=pg --repo1-path=repo --lock-path=lock --no-online stanza-create";

const DRAIN: &str =
    "--stanza=demo --pg1-path=pg --repo1-path=repo --lock-path=lock --spool-path=spool archive-push:async";

const LEAVE: &str =
    "--stanza=demo --pg1-path=pg --repo1-path=repo --lock-path=lock --spool-path=spool --archive-async --archive-timeout=1 archive-push pg_wal/00000002.history";

const SECOND: u64 = 1704164645;

const STORED: &str = "archive/demo/16-1/00000002.history";

// The data folder, with a file that is ready.
fn tree(alloc: Global) -> Result<MemDataFolder, AllocError> {
    let mut nodes = nodes(alloc)?;
    nodes.push(folder(alloc, "pg_wal/archive_status")?)?;
    nodes.push(file(alloc, "pg_wal/archive_status/00000002.history.ready", b"")?)?;
    MemDataFolder::new(alloc, nodes, Vec::new(alloc)).or(Err(AllocError))
}

// A drain that is stopped at this moment, a push that finds no receipt, a drain, and two pushes.
fn acts_of(alloc: Global, moment: u64) -> Result<Vec<Act>, PlayFault> {
    let arguments = [CREATE, DRAIN, LEAVE, DRAIN, LEAVE, LEAVE];
    let mut acts = Vec::new(alloc);
    for at in 0..arguments.len() {
        let halt = if at == 1 {
            Some(stop_at(alloc, moment))
        } else {
            None
        };
        let mut done = act(alloc, arguments[at], SECOND, halt)?;
        done.tree = tree(alloc).or(Err(PlayFault::NoMemory))?;
        acts.push(done).or(Err(PlayFault::NoMemory))?;
    }
    Ok(acts)
}

// Only after the receipt of a whole drain is the file archived, and a receipt serves once.
fn check(rt: &impl Abort, alloc: Global, moment: u64) {
    let acts = well(rt, acts_of(alloc, moment));
    let (disks, ended) = well(rt, played(alloc, acts));
    same_statuses(rt, &ended, &[0, 0, 38, 0, 0, 38]);
    same(rt, disks.repo.bytes(STORED), Some(b"hello".as_slice()));
    same(
        rt,
        disks.spool.bytes("archive/demo/out/00000002.history.ok"),
        None,
    );
}

#[test]
fn a_file_is_left_to_a_drain_that_stops(rt: HostRuntime) {
    let alloc = rt.alloc();
    let made = well(&rt, act(alloc, CREATE, SECOND, None));
    let mut acts = Vec::new(alloc);
    well(&rt, acts.push(made));
    let first = well(&rt, played(alloc, acts)).0.repo.moment();
    for number in 0..4 {
        check(&rt, alloc, first.saturating_add(number));
    }
}
