// Backups of a running server.
ghost use Rattle.std.specs.Prelude.{◌≤◌};
ghost use Rattle.base_devices.specs.States.{last_second};
ghost use Rattle.base_model.specs.InfoFiles.{IsLabel};

use crate::devices::{Case, Device, FILES, Holding, LABEL_FILE, reopened, stanza, taken};
use crate::same::{same, well};
use backup_plan::PlanSettings;
use base_model::{BackupInfo, BackupKind, Label, Later};
use repo_manifest::load_manifest;
use repo_pair::load_pair;
use std::alloc::{AllocError, Global};
use std::process::Abort;

const SYSTEM: &str = "6917529027641081857";

const THIRD: &str =
    "archive/demo/15-1/0000000100000000/000000010000000000000003-a9993e364706816aba3e25717850c26c9cd0d89d";

const FOURTH: &str =
    "archive/demo/15-1/0000000100000000/000000010000000000000004-a9993e364706816aba3e25717850c26c9cd0d89d";

// Each file is stored at its own name, and its time says whether it is the prior backup's.
const ALONE: PlanSettings = PlanSettings {
    delta: false,
    bundle: false,
    bundle_size: 0,
    bundle_limit: 0,
};

// Its digest says so.
const ALONE_BY_DIGESTS: PlanSettings = PlanSettings {
    delta: true,
    ..ALONE
};

// Small files are stored together, and their digests say so.
const TOGETHER: PlanSettings = PlanSettings {
    delta: true,
    bundle: true,
    bundle_size: 20,
    bundle_limit: 10,
};

// 2024-01-02 03:04:05, a backup from the second segment to the third, which others push in their second step.
const FIRST: Case = Case {
    kind: BackupKind::Full,
    settings: ALONE,
    files: FILES,
    second: 1704164645,
    system: SYSTEM,
    start: &["0/200028", "000000010000000000000002"],
    stop: &["0/300100", "000000010000000000000003", LABEL_FILE, ""],
    segment: THIRD,
    turn: 2,
    failing: None,
};

const IN_FOURTH: &[&str] = &["0/400100", "000000010000000000000004", LABEL_FILE, ""];

// 100 seconds later, and within the fourth.
const SECOND: Case = Case {
    kind: BackupKind::Full,
    settings: ALONE,
    files: FILES,
    second: 1704164745,
    system: SYSTEM,
    start: &["0/400028", "000000010000000000000004"],
    stop: IN_FOURTH,
    segment: FOURTH,
    turn: 2,
    failing: None,
};

// The label of the full backup of this second.
fn full_label(second: u64) -> Label
    requires { second ≤ last_second }
    ensures { IsLabel result }
{
    Label {
        full: second,
        later: None,
    }
}

// The second by which a backup is named.
fn second_of(label: &Label) -> u64 {
    match &label.later {
        Some(later) => later.time,
        None => label.full,
    }
}

// What is reported about the backup of this label: its files with their times, and its part of the log. Of a file that
// it has of another backup, the second of that is reported, and of one in a bundle its place.
fn known_of(alloc: Global, names: &[(String, Vec<u8>)], label: &Label) -> Result<String, AllocError>
    requires { IsLabel label.now }
{
    let mut disk = reopened(alloc, names, Vec::new(alloc))?;
    let manifest = match load_manifest(alloc, &mut disk, "demo", label) {
        Ok(manifest) => manifest,
        Err(fault) => return format!(in alloc; "{fault:?}"),
    };
    let mut text = String::new(alloc);
    for file in &manifest.files {
        let path = file.path.as_str();
        write!(text, "{path} {} at {}", file.size, file.time)?;
        if let Some(label) = &file.reference {
            write!(text, " of {}", second_of(label))?;
        }
        if let Some(place) = file.bundle {
            write!(text, " in {} at {}", place.number, place.at)?;
        }
        text.push_str("; ")?;
    }
    if let Some(part) = manifest.wal {
        let span = part.span;
        write!(text, "from {} to {}", span.start.seg, span.stop.seg)?;
    }
    Ok(text)
}

const FROM_SECOND_TO_THIRD: &str =
    "PG_VERSION 3 at 7; backup_label 29 at 1704164654; base/1/112 5 at 7; global/pg_control 4 at 7; from 2 to 3";

const WITHIN_FOURTH: &str =
    "PG_VERSION 3 at 7; backup_label 29 at 1704164754; base/1/112 5 at 7; global/pg_control 4 at 7; from 4 to 4";

// The backups that the repository lists.
fn listed(alloc: Global, names: &[(String, Vec<u8>)]) -> Result<String, AllocError> {
    let mut disk = reopened(alloc, names, Vec::new(alloc))?;
    let list: BackupInfo = match load_pair(alloc, &mut disk, "backup/demo/backup.info") {
        Ok(list) => list,
        Err(fault) => return format!(in alloc; "{fault:?}"),
    };
    let mut text = String::new(alloc);
    for entry in &list.backups {
        let second = second_of(&entry.label);
        write!(text, "{second} of {} bytes. ", entry.size)?;
    }
    Ok(text)
}

const LISTED: &str = "1704164645 of 41 bytes. ";

const LISTED_BOTH: &str = "1704164645 of 41 bytes. 1704164745 of 41 bytes. ";

// What the folder of the first backup holds.
fn stored(alloc: Global, names: &[(String, Vec<u8>)]) -> Result<String, AllocError> {
    let mut text = String::new(alloc);
    for (name, bytes) in names {
        if let Some(path) = name.strip_prefix("backup/demo/20240102-030405F/") {
            if path.starts_with("pg_data/") || path.starts_with("bundle/") {
                let bytes = str::from_utf8(bytes).unwrap_or("no UTF-8");
                write!(text, "{path}: {bytes}; ")?;
            } else {
                write!(text, "{path}; ")?;
            }
        }
    }
    Ok(text)
}

const STORED: &str =
    "backup.manifest; backup.manifest.copy; pg_data/PG_VERSION: 15\n; pg_data/backup_label: START WAL LOCATION: 0/200028\n; pg_data/base/1/112: hello; pg_data/global/pg_control: head; ";

// The first backup stays as it was made.
fn check_first(rt: &impl Abort, alloc: Global, names: &[(String, Vec<u8>)]) {
    same(rt, well(rt, stored(alloc, names)).as_str(), STORED);
    let known = well(rt, known_of(alloc, names, &full_label(FIRST.second)));
    same(rt, known.as_str(), FROM_SECOND_TO_THIRD);
}

#[test]
fn ended_well(rt: HostRuntime) {
    let alloc = rt.alloc();
    let empty = well(&rt, stanza(alloc));
    let (known, names) = well(&rt, taken(alloc, &empty, &FIRST));
    same(
        &rt,
        known.as_str(),
        "INFO: new backup label = 20240102-030405F\n",
    );
    same(&rt, well(&rt, listed(alloc, &names)).as_str(), LISTED);
    check_first(&rt, alloc, &names);
}

// As it was, except for a table that is another since.
const CHANGED: &[Holding] = &[
    ("PG_VERSION", b"15\n", 7),
    ("base/1/112", b"hallo", 8),
    ("global/pg_control", b"head", 7),
    ("postmaster.pid", b"4711\n", 7),
];

// The incremental one that is based on the first.
const LATER: Label = Label {
    full: FIRST.second,
    later: Some(Later {
        time: SECOND.second,
        kind: BackupKind::Incr,
    }),
};

const LATER_LINE: &str = "INFO: new backup label = 20240102-030405F_20240102-030545I\n";

const CHANGED_ALONE: &str =
    "PG_VERSION 3 at 7 of 1704164645; backup_label 29 at 1704164754; base/1/112 5 at 8; global/pg_control 4 at 7; from 4 to 4";

#[test]
fn incremental(rt: HostRuntime) {
    let alloc = rt.alloc();
    let empty = well(&rt, stanza(alloc));
    let (_, first) = well(&rt, taken(alloc, &empty, &FIRST));
    let case = Case {
        kind: BackupKind::Incr,
        files: CHANGED,
        ..SECOND
    };
    let (known, names) = well(&rt, taken(alloc, &first, &case));
    same(&rt, known.as_str(), LATER_LINE);
    check_first(&rt, alloc, &names);
    let known = well(&rt, known_of(alloc, &names, &LATER));
    same(&rt, known.as_str(), CHANGED_ALONE);
}

// The same bytes at another time, and other bytes of the same number at the same time.
const REWRITTEN: &[Holding] = &[
    ("PG_VERSION", b"15\n", 8),
    ("base/1/112", b"hallo", 7),
    ("global/pg_control", b"head", 7),
    ("postmaster.pid", b"4711\n", 7),
];

const BY_DIGESTS: Case = Case {
    kind: BackupKind::Incr,
    settings: ALONE_BY_DIGESTS,
    files: REWRITTEN,
    ..SECOND
};

const OTHER_ALONE: &str =
    "PG_VERSION 3 at 8 of 1704164645; backup_label 29 at 1704164754; base/1/112 5 at 7; global/pg_control 4 at 7; from 4 to 4";

#[test]
fn incremental_by_digests(rt: HostRuntime) {
    let alloc = rt.alloc();
    let empty = well(&rt, stanza(alloc));
    let (_, first) = well(&rt, taken(alloc, &empty, &FIRST));
    let (known, names) = well(&rt, taken(alloc, &first, &BY_DIGESTS));
    same(&rt, known.as_str(), LATER_LINE);
    check_first(&rt, alloc, &names);
    let known = well(&rt, known_of(alloc, &names, &LATER));
    same(&rt, known.as_str(), OTHER_ALONE);
}

// The same bytes as the second backup's, all at other times.
const COPIED: &[Holding] = &[
    ("PG_VERSION", b"15\n", 9),
    ("base/1/112", b"hallo", 9),
    ("global/pg_control", b"head", 9),
    ("postmaster.pid", b"4711\n", 9),
];

// 100 seconds after the second one, and based on it.
const THIRD_LABEL: Label = Label {
    full: FIRST.second,
    later: Some(Later {
        time: 1704164845,
        kind: BackupKind::Incr,
    }),
};

const ALL_LEFT: &str =
    "PG_VERSION 3 at 9 of 1704164645; backup_label 29 at 1704164854; base/1/112 5 at 9 of 1704164745; global/pg_control 4 at 9; from 4 to 4";

#[test]
fn chain_by_digests(rt: HostRuntime) {
    let alloc = rt.alloc();
    let empty = well(&rt, stanza(alloc));
    let (_, first) = well(&rt, taken(alloc, &empty, &FIRST));
    let (_, second) = well(&rt, taken(alloc, &first, &BY_DIGESTS));
    let case = Case {
        second: 1704164845,
        files: COPIED,
        ..BY_DIGESTS
    };
    let (known, names) = well(&rt, taken(alloc, &second, &case));
    same(
        &rt,
        known.as_str(),
        "INFO: new backup label = 20240102-030405F_20240102-030725I\n",
    );
    check_first(&rt, alloc, &names);
    let known = well(&rt, known_of(alloc, &names, &THIRD_LABEL));
    same(&rt, known.as_str(), ALL_LEFT);
}

const STORED_TOGETHER: &str =
    "backup.manifest; backup.manifest.copy; bundle/1: 15\nhello; pg_data/backup_label: START WAL LOCATION: 0/200028\n; pg_data/global/pg_control: head; ";

const FIRST_TOGETHER: &str =
    "PG_VERSION 3 at 7 in 1 at 0; backup_label 29 at 1704164654; base/1/112 5 at 7 in 1 at 3; global/pg_control 4 at 7; from 2 to 3";

const LATER_TOGETHER: &str =
    "PG_VERSION 3 at 8 of 1704164645 in 1 at 0; backup_label 29 at 1704164754; base/1/112 5 at 7 in 1 at 0; global/pg_control 4 at 7; from 4 to 4";

// The label file is in no bundle. A file that is the first backup's lies in that one's, and another one in the second's.
#[test]
fn in_bundles(rt: HostRuntime) {
    let alloc = rt.alloc();
    let empty = well(&rt, stanza(alloc));
    let case = Case {
        settings: TOGETHER,
        ..FIRST
    };
    let (_, first) = well(&rt, taken(alloc, &empty, &case));
    let known = well(&rt, stored(alloc, &first));
    same(&rt, known.as_str(), STORED_TOGETHER);
    let known = well(&rt, known_of(alloc, &first, &full_label(FIRST.second)));
    same(&rt, known.as_str(), FIRST_TOGETHER);
    let case = Case {
        settings: TOGETHER,
        ..BY_DIGESTS
    };
    let (known, names) = well(&rt, taken(alloc, &first, &case));
    same(&rt, known.as_str(), LATER_LINE);
    let known = well(&rt, known_of(alloc, &names, &LATER));
    same(&rt, known.as_str(), LATER_TOGETHER);
}

#[test]
fn became_full(rt: HostRuntime) {
    let alloc = rt.alloc();
    let empty = well(&rt, stanza(alloc));
    let case = Case {
        kind: BackupKind::Incr,
        ..FIRST
    };
    let (known, names) = well(&rt, taken(alloc, &empty, &case));
    same(
        &rt,
        known.as_str(),
        "WARN: no prior backup exists, incr backup has been changed to full\nINFO: new backup label = 20240102-030405F\n",
    );
    check_first(&rt, alloc, &names);
}

// The system and the stop that the server reports, the step in which the segment comes, and what is reported.
const ENDINGS: &[(&str, &[&str], u64, &str)] = &[
    (
        SYSTEM,
        IN_FOURTH,
        4,
        "42 segment 000000010000000000000004 not archived after 3 turns",
    ),
    (
        SYSTEM,
        &[
            "0/400100",
            "000000010000000000000004",
            LABEL_FILE,
            "16400 /mnt\n",
        ],
        2,
        "43 tablespaces are not supported",
    ),
    (
        SYSTEM,
        &["0/100100", "000000010000000000000001", LABEL_FILE, ""],
        2,
        "46 WAL from 000000010000000000000004 to 000000010000000000000001",
    ),
    (
        "7",
        IN_FOURTH,
        2,
        "47 control file has system 6917529027641081857, server has system 7",
    ),
];

#[test]
fn refused(rt: HostRuntime) {
    let alloc = rt.alloc();
    let empty = well(&rt, stanza(alloc));
    let (_, first) = well(&rt, taken(alloc, &empty, &FIRST));
    for &(system, stop, turn, want) in ENDINGS {
        let case = Case {
            system,
            stop,
            turn,
            ..SECOND
        };
        let (known, names) = well(&rt, taken(alloc, &first, &case));
        same(&rt, known.as_str(), want);
        same(&rt, well(&rt, listed(alloc, &names)).as_str(), LISTED);
        check_first(&rt, alloc, &names);
    }
}

// How a backup ends at each failing call of a device.
const CAUSES: &[(Device, &str)] = &[
    (Device::Repo, "Failed(Repo)"),
    (Device::Spool, "Failed(Spool)"),
    (Device::TheDataFolder, "Failed(TheDataFolder)"),
    (Device::Server, "Failed(Server)"),
    (Device::Clock, "Failed(Clock)"),
    (Device::Worker, "55 1 workers lost"),
];

// After a backup after the first, that one is listed, and the other of this label at most, of which this is reported.
fn check_both(
    rt: &impl Abort,
    alloc: Global,
    names: &[(String, Vec<u8>)],
    label: &Label,
    want: &str,
) -> bool
    requires { IsLabel label.now }
{
    check_first(rt, alloc, names);
    let list = well(rt, listed(alloc, names));
    if list.as_str() == LISTED {
        return false;
    }
    same(rt, list.as_str(), LISTED_BOTH);
    same(rt, well(rt, known_of(alloc, names, label)).as_str(), want);
    true
}

// A backup after the first: the line that states it, and what is reported about it.
#[derive(Clone, Copy)]
struct Further {
    case: Case,
    line: &'static str,
    known: &'static str,
}

// Each call of this device fails in turn, until a backup of this label succeeds.
fn check_device(
    rt: &impl Abort,
    alloc: Global,
    first: &[(String, Vec<u8>)],
    further: &Further,
    label: &Label,
    device: Device,
    want: &str,
)
    requires { IsLabel label.now }
{
    for call in 0u64..200 {
        let case = Case {
            failing: Some((device, call)),
            ..further.case
        };
        let (known, names) = well(rt, taken(alloc, first, &case));
        let both = check_both(rt, alloc, &names, label, further.known);
        if known.as_str() == further.line {
            same(rt, (both, call > 0), (true, true));
            return;
        }
        same(rt, known.as_str(), want);
    }
    panic!(rt; "no backup is made without a fault");
}

#[test]
fn each_call_fails(rt: HostRuntime) {
    let alloc = rt.alloc();
    let empty = well(&rt, stanza(alloc));
    let (_, first) = well(&rt, taken(alloc, &empty, &FIRST));
    let full = Further {
        case: SECOND,
        line: "INFO: new backup label = 20240102-030545F\n",
        known: WITHIN_FOURTH,
    };
    let by_digests = Further {
        case: BY_DIGESTS,
        line: LATER_LINE,
        known: OTHER_ALONE,
    };
    for &(device, want) in CAUSES {
        let label = full_label(SECOND.second);
        check_device(&rt, alloc, &first, &full, &label, device, want);
        check_device(&rt, alloc, &first, &by_digests, &LATER, device, want);
    }
}
