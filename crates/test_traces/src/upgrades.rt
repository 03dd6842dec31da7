// A stanza is upgraded to another cluster by a call that is stopped, and the servers of both clusters push after that.
use crate::acts::{CONTROL, act, bytes, file, folder, played, stop_at};
use crate::same::{same, same_statuses, well};
use memory_devices::{MemDataFolder, MemNode};
use program_crashes::{Act, CrashPoint, Disks, PlayFault, Workers};
use std::alloc::{AllocError, Global};
use std::process::Abort;

const CREATE: &str =
    "--stanza=demo --pg1-path=pg --repo1-path=repo --lock-path=lock --no-online stanza-create";

const UPGRADE: &str =
    "--stanza=demo --pg1-path=pg --repo1-path=repo --lock-path=lock --no-online stanza-upgrade";

const PUSH: &str =
    "--stanza=demo --pg1-path=pg --repo1-path=repo --lock-path=lock archive-push pg_wal/00000002.history";

const PUSH_NEXT: &str =
    "--stanza=demo --pg1-path=pg --repo1-path=repo --lock-path=lock archive-push pg_wal/00000003.history";

const BACKUP: &str =
    "--stanza=demo --pg1-path=pg --repo1-path=repo --lock-path=lock --no-online --type=incr --no-expire-auto backup";

const EXPIRE: &str =
    "--stanza=demo --repo1-path=repo --lock-path=lock --repo1-retention-full=1 expire";

const VERIFY: &str = "--stanza=demo --repo1-path=repo verify";

// The arguments of a call, and whether it is made in the new cluster's data folder.
type Call = (&'static str, bool);

// The calls before the upgrade that is stopped, and those after it.
const BEFORE: &[Call] = &[(CREATE, false), (PUSH, false), (BACKUP, false)];

const AFTER: &[Call] = &[
    (PUSH_NEXT, false),
    (PUSH_NEXT, true),
    (UPGRADE, true),
    (BACKUP, true),
    (EXPIRE, true),
    (VERIFY, true),
];

// What the calls end with where the stanza is as before after the stop, and where it is upgraded.
const AS_BEFORE: &[u8] = &[0, 0, 0, 0, 0, 23, 0, 0, 0, 0];

const UPGRADED: &[u8] = &[0, 0, 0, 0, 23, 0, 0, 0, 0, 0];

// The second of the first call, 2024-01-02 03:04:05; each further call comes a second later.
const FIRST: u64 = 1704164645;

// The control file of the new cluster, as it begins.
const NEW_CONTROL: &[u8] = b"\x02\x00\x00\x00\x00\x00\x00\x60\x14\x05\x00\x00\x89\x79\x10\x0c";

const NEW_ARCHIVE: &[u8] =
    b"[backrest]\nbackrest-format=5\n\n[db]\ndb-id=2\ndb-system-id=6917529027641081858\ndb-version=\"17\"\n\n[db:history]\n1={\"db-id\":6917529027641081857,\"db-version\":\"16\"}\n2={\"db-id\":6917529027641081858,\"db-version\":\"17\"}\n\n[backrest]\nbackrest-checksum=\"3d6eb477c7574b032bd72a8b1c80332e1bf4b60a\"\n";

// What the repository has after all calls, whatever the stop left. The first backup is gone, and histories stay.
const AT_THE_END: &[(&str, Option<&[u8]>)] = &[
    ("archive/demo/archive.info", Some(NEW_ARCHIVE)),
    ("archive/demo/archive.info.copy", Some(NEW_ARCHIVE)),
    ("archive/demo/16-1/00000002.history", Some(b"second")),
    ("backup/demo/20240102-030407F/pg_data/PG_VERSION", None),
    (
        "backup/demo/20240102-030412F/pg_data/PG_VERSION",
        Some(b"17\n"),
    ),
];

// The names that an upgrade writes.
const MEMBERS: &[&str] = &[
    "archive/demo/archive.info",
    "archive/demo/archive.info.copy",
    "backup/demo/backup.info",
    "backup/demo/backup.info.copy",
];

fn control_of(new: bool) -> &'static [u8] {
    if new { NEW_CONTROL } else { CONTROL }
}

fn version_of(new: bool) -> &'static [u8] {
    if new { b"17\n" } else { b"16\n" }
}

fn nodes(alloc: Global, new: bool) -> Result<Vec<(String, MemNode)>, AllocError> {
    let mut nodes = Vec::new(alloc);
    nodes.push(folder(alloc, "global")?)?;
    nodes.push(file(alloc, "global/pg_control", control_of(new))?)?;
    nodes.push(file(alloc, "PG_VERSION", version_of(new))?)?;
    nodes.push(folder(alloc, "pg_wal")?)?;
    nodes.push(file(alloc, "pg_wal/00000002.history", b"second")?)?;
    nodes.push(file(alloc, "pg_wal/00000003.history", b"third")?)?;
    Ok(nodes)
}

fn tree(alloc: Global, new: bool) -> Result<MemDataFolder, AllocError> {
    MemDataFolder::new(alloc, nodes(alloc, new)?, Vec::new(alloc)).or(Err(AllocError))
}

// One worker, which reads the same data folder.
fn workers(alloc: Global, new: bool) -> Result<Workers, AllocError> {
    let mut files = Vec::new(alloc);
    files.push(bytes(alloc, "global/pg_control", control_of(new))?)?;
    files.push(bytes(alloc, "PG_VERSION", version_of(new))?)?;
    files.push(bytes(alloc, "pg_wal/00000002.history", b"second")?)?;
    files.push(bytes(alloc, "pg_wal/00000003.history", b"third")?)?;
    Workers::one(alloc, files, Vec::new(alloc), Vec::new(alloc))
}

// The last value that each name keeps at that moment, or the first one.
fn stop(alloc: Global, moment: u64, oldest: bool) -> Result<CrashPoint, AllocError> {
    let mut halt = stop_at(alloc, moment);
    if oldest {
        for name in MEMBERS {
            halt.repo
                .choice
                .push((String::from_str(alloc, name)?, 0u32))?;
        }
    }
    Ok(halt)
}

fn add(
    alloc: Global,
    acts: &mut Vec<Act>,
    call: &Call,
    halt: Option<CrashPoint>,
) -> Result<(), PlayFault> {
    let (arguments, new) = *call;
    let second = FIRST.saturating_add(acts.len() as u64);
    let mut done = act(alloc, arguments, second, halt)?;
    done.tree = tree(alloc, new).or(Err(PlayFault::NoMemory))?;
    done.workers = workers(alloc, new).or(Err(PlayFault::NoMemory))?;
    acts.push(done).or(Err(PlayFault::NoMemory))
}

fn add_all(alloc: Global, acts: &mut Vec<Act>, calls: &[Call]) -> Result<(), PlayFault> {
    for call in calls {
        add(alloc, acts, call, None)?;
    }
    Ok(())
}

// The upgrade with this crash, between the others.
fn acts_with(alloc: Global, halt: CrashPoint) -> Result<Vec<Act>, PlayFault> {
    let mut acts = Vec::new(alloc);
    add_all(alloc, &mut acts, BEFORE)?;
    add(alloc, &mut acts, &(UPGRADE, true), Some(halt))?;
    add_all(alloc, &mut acts, AFTER)?;
    Ok(acts)
}

// How many moments come before the upgrade.
fn first_moment(rt: &impl Abort, alloc: Global) -> u64 {
    let mut acts = Vec::new(alloc);
    well(rt, add_all(alloc, &mut acts, BEFORE));
    well(rt, played(alloc, acts)).0.repo.moment()
}

// The repository has these bytes, or none, at these paths.
fn check_held(rt: &impl Abort, disks: &Disks, wanted: &[(&str, Option<&[u8]>)]) {
    for (path, held) in wanted {
        same(rt, (*path, disks.repo.bytes(path)), (*path, *held));
    }
}

// At the end the stanza has both clusters, and the archive what was pushed: after the stop one cluster's file.
fn check_end(rt: &impl Abort, disks: &Disks, upgraded: bool) {
    let third = Some(b"third".as_slice());
    let (old, new) = if upgraded {
        (None, third)
    } else {
        (third, None)
    };
    check_held(rt, disks, AT_THE_END);
    check_held(
        rt,
        disks,
        &[
            ("archive/demo/16-1/00000003.history", old),
            ("archive/demo/17-2/00000003.history", new),
        ],
    );
}

// Whether the stanza was upgraded by the stop at that moment; none where the call has no such moment.
fn upgraded_at(rt: &impl Abort, alloc: Global, moment: u64, oldest: bool) -> Option<bool> {
    let halt = well(rt, stop(alloc, moment, oldest));
    let acts = well(rt, acts_with(alloc, halt));
    match played(alloc, acts) {
        Ok((disks, ended)) => {
            let upgraded = ended.get(5).is_some_and(|how| how.status == 0);
            let wanted = if upgraded { UPGRADED } else { AS_BEFORE };
            same_statuses(rt, &ended, wanted);
            check_end(rt, &disks, upgraded);
            Some(upgraded)
        }
        Err(fault) => {
            same(rt, fault, PlayFault::Moment);
            None
        }
    }
}

// Of the moments some leave the old stanza and some the new one.
fn check_stops(rt: &impl Abort, alloc: Global, first: u64, oldest: bool) {
    let mut old = 0u64;
    let mut new = 0u64;
    for number in 0..200u64 {
        match upgraded_at(rt, alloc, first.saturating_add(number), oldest) {
            Some(true) => new = new.saturating_add(1),
            Some(false) => old = old.saturating_add(1),
            None => {
                same(rt, (0 < old, 0 < new), (true, true));
                return;
            }
        }
    }
    panic!(rt; "the call has no last moment");
}

#[test]
fn an_upgrade_that_stops_leaves_the_old_stanza_or_the_new_one(rt: HostRuntime) {
    let alloc = rt.alloc();
    let first = first_moment(&rt, alloc);
    for oldest in [false, true] {
        check_stops(&rt, alloc, first, oldest);
    }
}
