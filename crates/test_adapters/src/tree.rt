// The calls of a data folder on a folder of the system.
use crate::same::{same, shell, well};
use adapters_files::RealDataFolder;
use adapters_process::Scratch;
use base_devices::{DataFolder, DeviceError, Node, ReadableFile};
use std::alloc::Global;
use std::process::Abort;

#[derive(Clone, Copy)]
enum Call {
    Make,
    Begin,
    // and whether it begins
    BeginNew(bool),
    Append(&'static [u8]),
    SetTime(u64),
    RenameTo(&'static str),
    Remove,
    RenameSynced(&'static str),
    RemoveSynced,
    Sync,
}

fn answer(tree: &mut RealDataFolder, call: Call, path: &str) -> Result<(), DeviceError> {
    match call {
        Call::Make => tree.make(path),
        Call::Begin => tree.begin(path),
        Call::BeginNew(begins) => {
            if tree.begin_new(path)? == begins {
                Ok(())
            } else {
                Err(DeviceError::NoMemory)
            }
        }
        Call::Append(bytes) => tree.append(path, bytes),
        Call::SetTime(time) => tree.set_time(path, time),
        Call::RenameTo(to) => tree.rename(path, to),
        Call::Remove => tree.remove(path),
        Call::RenameSynced(to) => tree.rename_synced(path, to),
        Call::RemoveSynced => tree.remove_synced(path),
        Call::Sync => tree.sync(),
    }
}

const CALLS: &[(Call, &str, Result<(), DeviceError>)] = &[
    (Call::Make, "base/1", Ok(())),
    (Call::Make, "base/1", Ok(())),
    (Call::Make, "absent/1", Err(DeviceError::Failed)),
    (Call::Make, "PG_VERSION", Err(DeviceError::Failed)),
    (Call::Begin, "base/1/f", Ok(())),
    (Call::BeginNew(false), "base/1/f", Ok(())),
    (Call::Append(b"some"), "base/1/f", Ok(())),
    (Call::BeginNew(false), "base/1/f", Ok(())),
    (Call::BeginNew(true), "base/1/n", Ok(())),
    (Call::Append(b"new"), "base/1/n", Ok(())),
    (Call::SetTime(3000), "base/1/n", Ok(())),
    (Call::RenameTo("base/n"), "base/1/n", Ok(())),
    // whatever is there
    (Call::BeginNew(false), "base", Ok(())),
    (Call::BeginNew(false), "link", Ok(())),
    (Call::BeginNew(false), "pipe", Ok(())),
    (Call::BeginNew(true), "absent/f", Err(DeviceError::Failed)),
    // one that isn't open
    (Call::SetTime(4000), "PG_VERSION", Ok(())),
    (
        Call::SetTime(1 << 63),
        "PG_VERSION",
        Err(DeviceError::Failed),
    ),
    (Call::SetTime(9), "base/1/g", Err(DeviceError::Failed)),
    (Call::SetTime(9), "base/1", Err(DeviceError::Failed)),
    (Call::SetTime(9), "link", Err(DeviceError::Failed)),
    (Call::Append(b"x"), "base/1/g", Err(DeviceError::Failed)),
    (Call::Append(b"x"), "link", Err(DeviceError::Failed)),
    (Call::Begin, "absent/f", Err(DeviceError::Failed)),
    (Call::Begin, "base", Err(DeviceError::Failed)),
    // a link gives way
    (Call::Begin, "link", Ok(())),
    (Call::RenameTo("base/g"), "base/1/f", Ok(())),
    (
        Call::RenameTo("base/h"),
        "base/1/f",
        Err(DeviceError::Failed),
    ),
    (Call::RenameTo("other"), "base", Err(DeviceError::Failed)),
    (
        Call::RenameTo("absent/h"),
        "base/g",
        Err(DeviceError::Failed),
    ),
    (
        Call::RenameSynced("absent/h"),
        "base/g",
        Err(DeviceError::Failed),
    ),
    (Call::RenameSynced("base/h"), "base/g", Ok(())),
    (Call::RenameSynced("base/g"), "base/h", Ok(())),
    (Call::Sync, "", Ok(())),
    (Call::RemoveSynced, "base", Err(DeviceError::Failed)),
    (Call::Remove, "base", Err(DeviceError::Failed)),
    (Call::Remove, "base/1", Ok(())),
    (Call::Remove, "base/1", Ok(())),
    (Call::Remove, "pipe", Ok(())),
    (Call::RemoveSynced, "old", Ok(())),
    (Call::RemoveSynced, "old", Ok(())),
];

const LISTED: &[(&str, Node)] = &[
    (
        "PG_VERSION",
        Node::File {
            size: 3,
            time: 1000,
        },
    ),
    ("base", Node::Folder),
    (
        "base/f",
        Node::File {
            size: 1,
            time: 2000,
        },
    ),
    ("global", Node::Folder),
    ("link", Node::Link),
    ("old", Node::File { size: 0, time: 0 }),
    ("pipe", Node::Other),
];

const FILL: &str =
    "mkdir base global; printf 16. >PG_VERSION; touch -d @1000 PG_VERSION; printf x >base/f
touch -d @2000 base/f; ln -s PG_VERSION link; touch -d 1960-01-01 old; mkfifo pipe";

fn check_listed(rt: &impl Abort, alloc: Global, tree: &mut RealDataFolder) {
    let seen = well(rt, tree.list(alloc));
    same(rt, seen.len(), LISTED.len());
    for (seen, (path, node)) in seen.iter().zip(LISTED) {
        same(rt, seen.path.as_str(), *path);
        same(rt, seen.node, *node);
    }
}

// Each call answers so, and counts a fault where it fails.
fn check_calls(rt: &impl Abort, tree: &mut RealDataFolder) {
    for (call, path, wanted) in CALLS {
        let faults = tree.faults().saturating_add(u64::from(wanted.is_err()));
        same(rt, answer(tree, *call, path), *wanted);
        same(rt, tree.faults(), faults);
    }
}

const LEFT: &str = "[ \"$(cat base/g base/n link PG_VERSION)\" = somenew16. ]
[ \"$(date -r base/n +%s.%N) $(date -r PG_VERSION +%s)\" = '3000.000000000 4000' ]
mkdir global/pg_control";

// What is read of a version file of three bytes, of a folder, and of an absent file, into two bytes.
fn check_reads(rt: &impl Abort, alloc: Global, tree: &mut RealDataFolder) {
    let mut room = [0u8; 2];
    let wal = ReadableFile::Wal(well(rt, String::from_str(alloc, "000000010000000000000001")));
    same(
        rt,
        tree.read(&ReadableFile::Version, 0, &mut room),
        Ok(Some(2)),
    );
    same(
        rt,
        tree.read(&ReadableFile::Version, 2, &mut room),
        Ok(Some(1)),
    );
    same(
        rt,
        tree.read(&ReadableFile::Version, 3, &mut room),
        Ok(Some(0)),
    );
    same(
        rt,
        tree.read(&ReadableFile::Control, 0, &mut room),
        Ok(None),
    );
    same(rt, tree.read(&wal, 0, &mut room), Ok(None));
    same(rt, tree.size(&ReadableFile::Version), Ok(Some(3)));
    same(rt, tree.size(&ReadableFile::Control), Ok(None));
    same(rt, tree.size(&wal), Ok(None));
    same(rt, room.as_slice(), b".6");
}

#[test]
fn does_each_call(rt: HostRuntime) {
    let scratch = well(&rt, Scratch::new(rt, "tree"));
    let mut tree = RealDataFolder::new(rt);
    same(&rt, tree.open(&scratch.path), Ok(()));
    shell(&rt, &scratch, FILL);
    check_listed(&rt, rt.alloc(), &mut tree);
    check_calls(&rt, &mut tree);
    shell(&rt, &scratch, LEFT);
    check_reads(&rt, rt.alloc(), &mut tree);
    well(&rt, scratch.remove());
}

// A file that changes while it is read: what is done to it, and the reading of 4 bytes after that.
const READS: &[(&str, u64, Result<Option<usize>, DeviceError>)] = &[
    ("printf 123456 >PG_VERSION", 0, Ok(Some(4))),
    // what is added isn't read, except by the next reading
    ("printf 789 >>PG_VERSION", 4, Ok(Some(2))),
    ("true", 6, Ok(Some(0))),
    ("true", 0, Ok(Some(4))),
    ("true", 4, Ok(Some(4))),
    // what is gone can't be read
    ("truncate -s 5 PG_VERSION", 8, Err(DeviceError::Failed)),
    ("true", 0, Ok(Some(4))),
];

#[test]
fn reads_what_was_there_at_the_start(rt: HostRuntime) {
    let scratch = well(&rt, Scratch::new(rt, "reading"));
    let mut tree = RealDataFolder::new(rt);
    same(&rt, tree.open(&scratch.path), Ok(()));
    let mut room = [0u8; 4];
    for (change, at, wanted) in READS {
        shell(&rt, &scratch, change);
        same(
            &rt,
            tree.read(&ReadableFile::Version, *at, &mut room),
            *wanted,
        );
    }
    well(&rt, scratch.remove());
}

#[test]
fn writes_no_other_name_of_a_file(rt: HostRuntime) {
    let scratch = well(&rt, Scratch::new(rt, "linked"));
    let mut tree = RealDataFolder::new(rt);
    same(&rt, tree.open(&scratch.path), Ok(()));
    shell(&rt, &scratch, "printf kept >a; ln a b");
    same(&rt, tree.begin("b"), Ok(()));
    same(&rt, tree.append("b", b"new"), Ok(()));
    shell(&rt, &scratch, "[ \"$(cat a b)\" = keptnew ]");
    well(&rt, scratch.remove());
}

fn held(rt: HostRuntime) -> RealDataFolder {
    let mut tree = RealDataFolder::new(rt);
    tree.hold();
    tree
}

#[test]
fn holds_its_folder(rt: HostRuntime) {
    let scratch = well(&rt, Scratch::new(rt, "held"));
    let other = well(&rt, scratch.below("other"));
    let (mut first, mut second, mut free) = (held(rt), held(rt), RealDataFolder::new(rt));
    same(&rt, first.open(&scratch.path), Ok(()));
    same(&rt, second.open(&scratch.path), Err(DeviceError::Failed));
    let known = second.last_failure().unwrap_or("");
    same(
        &rt,
        known.ends_with(": another restore works in the folder"),
        true,
    );
    same(&rt, free.open(&scratch.path), Ok(()));
    same(&rt, first.open(&other), Ok(()));
    same(&rt, second.open(&scratch.path), Ok(()));
    well(&rt, scratch.remove());
}

// A restore whose control file comes last, over one of before, and one over more files than are kept open.
const RESTORED: &[(Call, &str, Result<(), DeviceError>)] = &[
    (Call::RemoveSynced, "global/pg_control", Ok(())),
    (Call::Begin, "f.pgbackrest.tmp", Ok(())),
    (Call::Append(b"new"), "f.pgbackrest.tmp", Ok(())),
    (Call::RenameTo("f"), "f.pgbackrest.tmp", Ok(())),
    (Call::Begin, "postgresql.auto.conf", Ok(())),
    (Call::Append(b"some"), "postgresql.auto.conf", Ok(())),
    (Call::Begin, "global/pg_control.pgbackrest.tmp", Ok(())),
    (
        Call::Append(b"ctl"),
        "global/pg_control.pgbackrest.tmp",
        Ok(()),
    ),
    (Call::Sync, "", Ok(())),
    (
        Call::RenameSynced("global/pg_control"),
        "global/pg_control.pgbackrest.tmp",
        Ok(()),
    ),
    (Call::Remove, "kept", Ok(())),
];

const IS_RESTORED: &str = "[ \"$(cat f postgresql.auto.conf global/pg_control)\" = newsomectl ]";

#[test]
fn restores(rt: HostRuntime) {
    let scratch = well(&rt, Scratch::new(rt, "restored"));
    shell(
        &rt,
        &scratch,
        "mkdir global; echo old >f; echo old >global/pg_control; echo >kept",
    );
    let mut tree = RealDataFolder::new(rt);
    tree.restores();
    same(&rt, tree.open(&scratch.path), Ok(()));
    same(&rt, well(&rt, tree.list(rt.alloc())).len(), 4);
    same(&rt, tree.listed_bytes(), 9);
    for (call, path, wanted) in RESTORED {
        same(&rt, answer(&mut tree, *call, path), *wanted);
    }
    shell(&rt, &scratch, IS_RESTORED);
    well(&rt, scratch.remove());
}

// A folder with a name that isn't UTF-8, what is passed over, whether the log is, and whether all can be listed then.
const PASSED: &[(&str, bool, bool, bool)] = &[
    ("pg_stat_tmp", false, false, false),
    ("pg_stat_tmp", true, false, true),
    ("pg_replslot/slot", true, false, true),
    ("base", true, true, false),
    ("pg_wal", true, false, false),
    ("pg_wal", true, true, true),
];

fn listing_tree(rt: HostRuntime, pass_over: bool, log_is_folder: bool) -> RealDataFolder {
    let mut tree = RealDataFolder::new(rt);
    if pass_over {
        tree.pass_over_omitted();
    }
    if log_is_folder {
        tree.log_is_folder();
    }
    tree
}

#[test]
fn passes_over_what_no_backup_takes(rt: HostRuntime) {
    let scratch = well(&rt, Scratch::new(rt, "passed"));
    let data = well(&rt, scratch.below("data"));
    for (folder, pass_over, log_is_folder, listed) in PASSED {
        let made = format!(in rt.alloc();
            "mkdir -p data/{folder}; >data/{folder}/$(printf '\\377')"
        );
        shell(&rt, &scratch, &well(&rt, made));
        let mut tree = listing_tree(rt, *pass_over, *log_is_folder);
        same(&rt, tree.open(&data), Ok(()));
        same(&rt, tree.list(rt.alloc()).is_ok(), *listed);
        shell(&rt, &scratch, "rm -rf data");
    }
    well(&rt, scratch.remove());
}

#[test]
fn lists_a_linked_log(rt: HostRuntime) {
    let scratch = well(&rt, Scratch::new(rt, "linked"));
    let data = well(&rt, scratch.below("data"));
    shell(
        &rt,
        &scratch,
        "mkdir data other; >other/f; ln -s ../other data/pg_wal",
    );
    for (log_is_folder, wanted) in [(false, Node::Link), (true, Node::Folder)] {
        let mut tree = listing_tree(rt, false, log_is_folder);
        same(&rt, tree.open(&data), Ok(()));
        let seen = well(&rt, tree.list(rt.alloc()));
        same(&rt, seen.len(), 1);
        same(&rt, seen.first().map(|seen| seen.node), Some(wanted));
    }
    well(&rt, scratch.remove());
}

// A folder, and the paths that are right within it.
const WITHIN: &[(&str, &str)] = &[
    ("base", "base/1 base/10 base/2 base/link "),
    ("base/1", ""),
    // a link is followed in place of the log alone
    ("base/link", ""),
    ("base/link/2", ""),
    ("pg_wal", "pg_wal/2 pg_wal/archive_status "),
    (
        "pg_wal/archive_status",
        "pg_wal/archive_status/a pg_wal/archive_status/b ",
    ),
    ("base/2", ""),
    ("base/2/x", ""),
    ("absent", ""),
    ("absent/x", ""),
    ("", ""),
];

const FILL_WITHIN: &str = "mkdir -p data/base/1 data/base/10 data/bad other/archive_status other/2
cd data; ln -s ../../other base/link; ln -s ../other pg_wal; >base/2
>../other/archive_status/b; >../other/archive_status/a; >bad/$(printf '\\377')";

fn check_within(
    rt: &impl Abort,
    alloc: Global,
    tree: &mut RealDataFolder,
    folder: &str,
    want: &str,
) {
    let mut paths = String::new(alloc);
    for seen in well(rt, tree.list_folder(alloc, folder)) {
        well(rt, paths.push_str(&seen.path));
        well(rt, paths.push(' '));
    }
    same(rt, paths.as_str(), want);
}

#[test]
fn lists_one_folder(rt: HostRuntime) {
    let scratch = well(&rt, Scratch::new(rt, "within"));
    let data = well(&rt, scratch.below("data"));
    shell(&rt, &scratch, FILL_WITHIN);
    let mut tree = RealDataFolder::new(rt);
    same(&rt, tree.open(&data), Ok(()));
    for (folder, want) in WITHIN {
        check_within(&rt, rt.alloc(), &mut tree, folder, want);
    }
    same(&rt, tree.list(rt.alloc()).is_ok(), false);
    same(&rt, tree.list_folder(rt.alloc(), "bad").is_ok(), false);
    same(&rt, tree.faults(), 2);
    well(&rt, scratch.remove());
}
