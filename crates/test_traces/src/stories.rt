// Lists of calls and crashes.
use crate::acts::{act, played, restore, stop_at};
use crate::same::{file_at, same, same_statuses, well};
use program_crashes::{Act, Disks, Ended, PlayFault};
use std::alloc::Global;
use std::process::Abort;

const CREATE: &str =
    "--stanza=demo --pg1-path=pg --repo1-path=repo --lock-path=lock --no-online stanza-create";

const PUSH: &str =
    "--stanza=demo --pg1-path=pg --repo1-path=repo --lock-path=lock archive-push pg_wal/00000002.history";

const GET: &str =
    "--stanza=demo --pg1-path=pg --repo1-path=repo archive-get 00000002.history pg_wal/RECOVERYHISTORY";

const CREATE_OTHER: &str =
    "--stanza=other --pg1-path=pg --repo1-path=repo --lock-path=lock --no-online stanza-create";

const PUSH_OTHER: &str =
    "--stanza=other --pg1-path=pg --repo1-path=repo --lock-path=lock archive-push pg_wal/00000002.history";

const BACKUP: &str =
    "--stanza=demo --pg1-path=pg --repo1-path=repo --lock-path=lock --no-online --type=full --no-expire-auto backup";

const INCR: &str =
    "--stanza=demo --pg1-path=pg --repo1-path=repo --lock-path=lock --no-online --type=incr --no-expire-auto backup";

// A backup before which all earlier ones are expired.
const BACKUP_ALONE: &str =
    "--stanza=demo --pg1-path=pg --repo1-path=repo --lock-path=lock --no-online --type=full --repo1-retention-full=1 backup";

const EXPIRE: &str =
    "--stanza=demo --repo1-path=repo --lock-path=lock --repo1-retention-full=1 expire";

const VERIFY: &str = "--stanza=demo --repo1-path=repo verify";

const RESTORE: &str = "--stanza=demo --pg1-path=pg --repo1-path=repo --type=none restore";

const STORED: &str = "archive/demo/16-1/00000002.history";

const STORED_OTHER: &str = "archive/other/16-1/00000002.history";

// The second of the first call, 2024-01-02 03:04:05; each further call comes a second later.
const FIRST: u64 = 1704164645;

// The calls, of which the one of this number is stopped at that moment.
fn calls(
    alloc: Global,
    arguments: &[&str],
    number: usize,
    moment: u64,
) -> Result<Vec<Act>, PlayFault> {
    failing(alloc, arguments, number, moment, &[])
}

// The same, and of the disk that is opened anew then the calls of these numbers fail.
fn failing(
    alloc: Global,
    arguments: &[&str],
    number: usize,
    moment: u64,
    fail: &[u64],
) -> Result<Vec<Act>, PlayFault> {
    let mut acts = Vec::new(alloc);
    for at in 0..arguments.len() {
        let halt = if at == number {
            let mut halt = stop_at(alloc, moment);
            halt.repo.fail = fail.to_vec(alloc).or(Err(PlayFault::NoMemory))?;
            Some(halt)
        } else {
            None
        };
        acts.push(act(alloc, arguments[at], FIRST + at as u64, halt)?)
            .or(Err(PlayFault::NoMemory))?;
    }
    Ok(acts)
}

// What the repository is to have at a path.
enum Held<'a> {
    Nothing,
    Something,
    Bytes(&'a [u8]),
}

// All of this many calls ended with 0.
fn all_well(rt: &impl Abort, ended: &[Ended], count: usize) {
    same(rt, ended.len(), count);
    for how in ended {
        same(rt, how.status, 0);
    }
}

// The repository has what it is to have at these paths.
fn check_held(rt: &impl Abort, disks: &Disks, wanted: &[(&str, Held)]) {
    for (path, held) in wanted {
        let found = disks.repo.bytes(path);
        match held {
            Held::Nothing => same(rt, found, None),
            Held::Something => same(rt, found.is_some(), true),
            Held::Bytes(bytes) => same(rt, found, Some(*bytes)),
        }
    }
}

// After this many of these calls the next one is stopped at each of its moments. All others end with 0, and the
// repository then has this.
fn check_stops(
    rt: &impl Abort,
    alloc: Global,
    arguments: &[&str],
    before: usize,
    wanted: &[(&str, Held)],
) {
    if arguments.len() < before {
        panic!(rt; "so many calls come before the one that is stopped");
    }
    let made = well(rt, calls(alloc, &arguments[..before], before, 0));
    let first = well(rt, played(alloc, made)).0.repo.moment();
    for number in 0..200u64 {
        let moment = first.saturating_add(number);
        let acts = well(rt, calls(alloc, arguments, before, moment));
        let (disks, ended) = match played(alloc, acts) {
            Ok(end) => end,
            Err(fault) => {
                same(rt, (fault, 8 < number), (PlayFault::Moment, true));
                return;
            }
        };
        all_well(rt, &ended, arguments.len());
        check_held(rt, &disks, wanted);
    }
    panic!(rt; "the call has no last moment");
}

// A stanza is begun, and then comes a push, a fetch and another stanza.
#[test]
fn calls_go_on_after_a_stop(rt: HostRuntime) {
    check_stops(
        &rt,
        rt.alloc(),
        &[CREATE, CREATE, PUSH, GET, CREATE_OTHER, PUSH_OTHER],
        0,
        &[
            (STORED, Held::Bytes(b"hello")),
            (STORED_OTHER, Held::Bytes(b"hello")),
        ],
    );
}

const AGAIN: &str = "WARN: 00000002.history is already in the archive with the same checksum\n";

// What each call wrote, and which file a fetch put in its data folder.
#[test]
fn calls_write_what_they_find(rt: HostRuntime) {
    let alloc = rt.alloc();
    let acts = well(&rt, calls(alloc, &[CREATE, PUSH, PUSH, GET], 9, 0));
    let (_, ended) = well(&rt, played(alloc, acts));
    all_well(&rt, &ended, 4);
    for (how, text) in ended.iter().zip(["", "", AGAIN, ""]) {
        same(&rt, how.out.written(), text.as_bytes());
    }
    for (how, found) in ended.iter().zip([false, false, false, true]) {
        let file = file_at(&how.tree, "pg_wal/RECOVERYHISTORY");
        same(&rt, file == Some(b"hello".as_slice()), found);
    }
}

// The backup that follows one that is stopped is made and listed.
#[test]
fn backups_go_on_after_a_stop(rt: HostRuntime) {
    check_stops(
        &rt,
        rt.alloc(),
        &[CREATE, BACKUP, BACKUP],
        1,
        &[
            (
                "backup/demo/20240102-030407F/pg_data/PG_VERSION",
                Held::Bytes(b"16\n"),
            ),
            (
                "backup/demo/20240102-030407F/backup.manifest",
                Held::Something,
            ),
        ],
    );
}

// The incremental backup that follows one that is stopped is made besides the full one, stores nothing that this has,
// and nothing deviates.
#[test]
fn later_backups_go_on_after_a_stop(rt: HostRuntime) {
    check_stops(
        &rt,
        rt.alloc(),
        &[CREATE, BACKUP, INCR, INCR, VERIFY],
        2,
        &[
            (
                "backup/demo/20240102-030406F_20240102-030408I/backup.manifest",
                Held::Something,
            ),
            (
                "backup/demo/20240102-030406F_20240102-030408I/pg_data/PG_VERSION",
                Held::Nothing,
            ),
        ],
    );
}

// An expiry of the first of two backups. The next one removes the rest, and the backup that stays has its bytes.
#[test]
fn expiries_go_on_after_a_stop(rt: HostRuntime) {
    check_stops(
        &rt,
        rt.alloc(),
        &[CREATE, PUSH, BACKUP, BACKUP, EXPIRE, EXPIRE, VERIFY],
        4,
        &[
            (
                "backup/demo/20240102-030407F/pg_data/PG_VERSION",
                Held::Nothing,
            ),
            (
                "backup/demo/20240102-030408F/pg_data/PG_VERSION",
                Held::Bytes(b"16\n"),
            ),
            (STORED, Held::Bytes(b"hello")),
        ],
    );
}

// A backup with the expiry that follows it. The next one removes what both left.
#[test]
fn expiries_after_backups_go_on(rt: HostRuntime) {
    check_stops(
        &rt,
        rt.alloc(),
        &[CREATE, BACKUP, BACKUP_ALONE, BACKUP_ALONE, VERIFY],
        2,
        &[
            (
                "backup/demo/20240102-030406F/pg_data/PG_VERSION",
                Held::Nothing,
            ),
            (
                "backup/demo/20240102-030408F/pg_data/PG_VERSION",
                Held::Bytes(b"16\n"),
            ),
        ],
    );
}

// Each call of the disk fails in turn in a backup with an expiry after it. A backup that is listed then stays, and the
// next expiry removes the rest; else it is removed itself.
#[test]
fn a_backup_stays_whose_expiry_fails(rt: HostRuntime) {
    let alloc = rt.alloc();
    let arguments = [CREATE, BACKUP, BACKUP_ALONE, EXPIRE];
    let made = well(&rt, calls(alloc, &[CREATE, BACKUP], 9, 0));
    let last = well(&rt, played(alloc, made)).0.repo.moment();
    let mut stayed = 0u64;
    for call in 0..400u64 {
        let acts = well(&rt, failing(alloc, &arguments, 1, last, &[call]));
        let (disks, ended) = well(&rt, played(alloc, acts));
        let old = disks
            .repo
            .bytes("backup/demo/20240102-030406F/pg_data/PG_VERSION");
        let new = disks
            .repo
            .bytes("backup/demo/20240102-030407F/pg_data/PG_VERSION");
        same(
            &rt,
            (old.is_some(), new.is_some()),
            (new.is_none(), new.is_some()),
        );
        if ended.get(2).is_some_and(|how| how.status == 0) {
            same(&rt, (0 < stayed, new.is_some()), (true, true));
            return;
        }
        same_statuses(&rt, &ended, &[0, 0, 80, 0]);
        if new.is_some() {
            stayed = stayed.saturating_add(1);
        }
    }
    panic!(&rt; "no backup with an expiry behind it ends without a fault");
}

// With these arguments, into a folder that holds this file, by a worker that reads these bytes of the version file, and
// of whose link these calls fail: how a restore ends.
type Restore<'a> = (&'a str, Option<&'a str>, Option<&'a [u8]>, &'a [u64], u8);

const RESTORES: &[Restore] = &[
    ("", None, Some(b"16\n"), &[], 0),
    ("--set=20240102-030406F ", None, Some(b"16\n"), &[], 0),
    ("--process-max=3 ", None, Some(b"16\n"), &[], 0),
    ("--set=20240102-030405F ", None, Some(b"16\n"), &[], 61),
    ("--set=yesterday ", None, Some(b"16\n"), &[], 6),
    ("", Some("left"), Some(b"16\n"), &[], 62),
    ("--delta ", Some("left"), Some(b"16\n"), &[], 62),
    ("--delta ", Some("PG_VERSION"), Some(b"16\n"), &[], 0),
    ("", Some("postmaster.pid"), Some(b"16\n"), &[], 41),
    ("", None, Some(b"15\n"), &[], 63),
    ("", None, None, &[], 56),
    ("", None, Some(b"16\n"), &[0], 55),
];

// The data folder of the last call is the one that was backed up.
fn check_restored(rt: &impl Abort, ended: &[Ended]) {
    let Some(last) = ended.last() else {
        return same(rt, true, false);
    };
    same(
        rt,
        file_at(&last.tree, "PG_VERSION"),
        Some(b"16\n".as_slice()),
    );
    same(
        rt,
        file_at(&last.tree, "pg_wal/00000002.history"),
        Some(b"hello".as_slice()),
    );
}

// A backup is restored, or why not is reported; and after no backup nothing is.
#[test]
fn restores_end_as_they_must(rt: HostRuntime) {
    let alloc = rt.alloc();
    for &(option, held, version, fail, status) in RESTORES {
        let mut arguments = well(&rt, String::from_str(alloc, option));
        well(&rt, arguments.push_str(RESTORE));
        let mut acts = well(&rt, calls(alloc, &[CREATE, BACKUP], 9, 0));
        let last = well(&rt, restore(alloc, &arguments, held, version, fail));
        well(&rt, acts.push(last));
        let (_, ended) = well(&rt, played(alloc, acts));
        same_statuses(&rt, &ended, &[0, 0, status]);
        if status == 0 {
            check_restored(&rt, &ended);
        }
    }
    let mut acts = well(&rt, calls(alloc, &[CREATE], 9, 0));
    let last = well(&rt, restore(alloc, RESTORE, None, None, &[]));
    well(&rt, acts.push(last));
    let (_, ended) = well(&rt, played(alloc, acts));
    same_statuses(&rt, &ended, &[0, 60]);
}

// These calls end so, and the repository then has this.
fn check_ends(
    rt: &impl Abort,
    alloc: Global,
    arguments: &[&str],
    ends: &[u8],
    wanted: &[(&str, Held)],
) {
    let acts = well(rt, calls(alloc, arguments, arguments.len(), 0));
    let (disks, ended) = well(rt, played(alloc, acts));
    same_statuses(rt, &ended, ends);
    check_held(rt, &disks, wanted);
}

// Nothing deviates in what the commands made.
#[test]
fn what_was_made_is_sound(rt: HostRuntime) {
    check_ends(
        &rt,
        rt.alloc(),
        &[CREATE, PUSH, BACKUP, VERIFY],
        &[0, 0, 0, 0],
        &[],
    );
}

// A call is stopped at one of its own moments.
#[test]
fn a_stop_lies_within_its_call(rt: HostRuntime) {
    let alloc = rt.alloc();
    let acts = well(&rt, calls(alloc, &[CREATE], 0, 1000));
    match played(alloc, acts) {
        Ok(_) => same(&rt, true, false),
        Err(fault) => same(&rt, fault, PlayFault::Moment),
    }
}

// Arguments that are refused do nothing.
#[test]
fn refused_arguments_do_nothing(rt: HostRuntime) {
    check_ends(
        &rt,
        rt.alloc(),
        &["--stanza=a/b info", CREATE],
        &[6, 0],
        &[(STORED, Held::Nothing)],
    );
}
