// The disk's calls on a folder of the system.
use crate::same::{same, shell, well};
use adapters_files::RealDisk;
use adapters_process::Scratch;
use base_devices::{DeviceError, Disk};
use std::alloc::Global;
use std::process::Abort;

#[derive(Clone, Copy)]
enum Call {
    Begin,
    Append(&'static [u8]),
    Sync,
    RenameTo(&'static str),
    Remove,
    SyncFolders,
    SyncFolder,
}

fn answer(disk: &mut RealDisk, call: Call, name: &str) -> Result<(), DeviceError> {
    match call {
        Call::Begin => disk.begin(name),
        Call::Append(bytes) => disk.append(name, bytes),
        Call::Sync => disk.sync(name),
        Call::RenameTo(to) => disk.rename(name, to),
        Call::Remove => disk.remove(name),
        Call::SyncFolders => disk.sync_directories(name),
        Call::SyncFolder => disk.sync_directory(name),
    }
}

const CALLS: &[(Call, &str, Result<(), DeviceError>)] = &[
    (Call::Begin, "a/b/f", Ok(())),
    (Call::Append(b"hello"), "a/b/f", Ok(())),
    (Call::Begin, "a/g", Ok(())),
    (Call::Append(b" world"), "a/b/f", Ok(())),
    (Call::Sync, "a/b/f", Ok(())),
    // a name that is absent, and folders
    (Call::Append(b"x"), "absent", Err(DeviceError::Failed)),
    (Call::Sync, "absent", Err(DeviceError::Failed)),
    (Call::RenameTo("x"), "absent", Err(DeviceError::Failed)),
    (Call::Begin, "a/b", Err(DeviceError::Failed)),
    (Call::Append(b"x"), "a/b", Err(DeviceError::Failed)),
    (Call::RenameTo("x"), "a/b", Err(DeviceError::Failed)),
    (Call::Remove, "a/b", Err(DeviceError::Failed)),
    // a rename makes folders, and replaces
    (Call::RenameTo("c/d/f"), "a/b/f", Ok(())),
    (Call::Append(b"x"), "a/b/f", Err(DeviceError::Failed)),
    (Call::Begin, "c/h", Ok(())),
    (Call::RenameTo("a/g"), "c/h", Ok(())),
    (Call::Remove, "a/g", Ok(())),
    (Call::Remove, "a/g", Ok(())),
    (Call::Remove, "c/d/f/below", Ok(())),
    (Call::SyncFolders, "c", Ok(())),
    (Call::SyncFolders, "absent/x", Ok(())),
    (Call::SyncFolders, "c/d/f", Ok(())),
    (Call::SyncFolder, "c/d", Ok(())),
    (Call::SyncFolder, "c/d", Ok(())),
    (Call::SyncFolder, "absent/x", Ok(())),
    (Call::SyncFolder, "c/d/f", Ok(())),
    // what is begun again is empty
    (Call::Begin, "e", Ok(())),
    (Call::SyncFolders, "many", Ok(())),
];

const READS: &[(&str, u64, Result<Option<&[u8]>, DeviceError>)] = &[
    ("c/d/f", 0, Ok(Some(b"hello w"))),
    ("c/d/f", 7, Ok(Some(b"orld"))),
    ("c/d/f", 11, Ok(Some(b""))),
    ("c/d/f", 12, Ok(Some(b""))),
    ("e", 0, Ok(Some(b""))),
    ("absent", 0, Ok(None)),
    ("c/d/f/below", 3, Ok(None)),
    ("a/b/f", 7, Ok(None)),
    // no file is this long
    ("c/d/f", 1 << 63, Ok(Some(b""))),
    ("c/d/f", u64::MAX, Ok(Some(b""))),
    ("c", 0, Err(DeviceError::Failed)),
];

const FOUND: &[(&str, u64)] = &[("a/b-c", 0), ("a/b/f", 2), ("a/f", 10)];

// Each call answers so, and counts a fault where it fails.
fn check_calls(rt: &impl Abort, disk: &mut RealDisk) {
    for (call, name, wanted) in CALLS {
        let faults = disk.faults().saturating_add(u64::from(wanted.is_err()));
        same(rt, answer(disk, *call, name), *wanted);
        same(rt, disk.faults(), faults);
    }
}

// What is read of a name from a place on, into seven bytes.
fn check_read(
    rt: &impl Abort,
    disk: &mut RealDisk,
    name: &str,
    at: u64,
    wanted: Result<Option<&[u8]>, DeviceError>,
) {
    let mut room = [0u8; 7];
    match disk.read(name, at, &mut room) {
        Ok(Some(count)) => same(rt, Ok(room.get(..count)), wanted),
        Ok(None) => same(rt, Ok(None), wanted),
        Err(error) => same(rt, Err(error), wanted),
    }
}

#[test]
fn does_each_call(rt: HostRuntime) {
    let scratch = well(&rt, Scratch::new(rt, "disk"));
    let root = well(&rt, scratch.below("new/root"));
    let mut disk = RealDisk::new(rt);
    same(&rt, disk.open(&root), Ok(()));
    let fill = "cd new/root; echo old >e; mkdir many; cd many; mkdir 1 2 3 4 5 6 7 8 9";
    shell(&rt, &scratch, fill);
    check_calls(&rt, &mut disk);
    for (name, at, wanted) in READS {
        check_read(&rt, &mut disk, name, *at, *wanted);
    }
    let modes = "cd new/root; [ \"$(stat -c %a c c/d c/d/f | xargs)\" = '700 700 600' ]";
    shell(&rt, &scratch, modes);
    well(&rt, scratch.remove());
}

fn check_found(rt: &impl Abort, alloc: Global, disk: &mut RealDisk) {
    let found = well(rt, disk.names(alloc, "a"));
    same(rt, found.len(), FOUND.len());
    for (found, (name, size)) in found.iter().zip(FOUND) {
        same(rt, found.name.as_str(), *name);
        same(rt, found.size, *size);
    }
}

// A folder below which no name is.
fn check_no_names(rt: &impl Abort, alloc: Global, disk: &mut RealDisk, folder: &str) {
    same(rt, well(rt, disk.names(alloc, folder)).len(), 0);
}

#[test]
fn shows_names_in_order(rt: HostRuntime) {
    let scratch = well(&rt, Scratch::new(rt, "names"));
    let mut disk = RealDisk::new(rt);
    same(&rt, disk.open(&scratch.path), Ok(()));
    let fill =
        "mkdir -p a/b a/empty; printf 0123456789 >a/f; printf 12 >a/b/f; >a/b-c; >z; >a/$(printf '\\377')";
    shell(&rt, &scratch, fill);
    check_found(&rt, rt.alloc(), &mut disk);
    check_no_names(&rt, rt.alloc(), &mut disk, "absent");
    check_no_names(&rt, rt.alloc(), &mut disk, "z");
    same(&rt, disk.faults(), 0);
    well(&rt, scratch.remove());
}

// A node at a name of a repository, and whether names and folders are listed besides it, and the name is read.
const NODES: &[(&str, bool, bool)] = &[
    (">backup/s/x", true, true),
    ("ln -s ../../other backup/s/x", false, false),
    ("ln -s nowhere backup/s/x", false, false),
    ("ln -s ../../folder backup/s/x", false, false),
    ("mkfifo backup/s/x", false, false),
    ("mkdir backup/s/x", true, false),
    // as the original leaves it
    (
        "mkdir backup/s/label; ln -s label backup/s/latest",
        true,
        true,
    ),
];

#[test]
fn a_node_that_is_no_file_is_a_fault(rt: HostRuntime) {
    let scratch = well(&rt, Scratch::new(rt, "nodes"));
    let mut disk = RealDisk::new(rt);
    let mut room = [0u8; 1];
    same(&rt, disk.open(&scratch.path), Ok(()));
    shell(&rt, &scratch, "mkdir -p backup/s folder; >other");
    for (make, listed, read) in NODES {
        shell(&rt, &scratch, make);
        same(&rt, disk.names(rt.alloc(), "backup").is_ok(), *listed);
        same(&rt, disk.folders(rt.alloc(), "backup/s").is_ok(), *listed);
        same(&rt, disk.read("backup/s/x", 0, &mut room).is_ok(), *read);
        shell(&rt, &scratch, "rm -rf backup/s/x");
    }
    well(&rt, scratch.remove());
}

// What is at a name as it is begun: the new file is no other's.
const BEGUN: &[&str] = &[
    "true",
    "printf old >x",
    "printf old >other; ln other x",
    "printf old >other; ln -s other x",
    "mkfifo x",
];

const IS_NEW: &str = "[ \"$(stat -c '%F %s %a %h' x)\" = 'regular file 3 600 1' ]
[ ! -e other ] || [ \"$(cat other)\" = old ]; rm -f x other";

#[test]
fn begins_a_new_file(rt: HostRuntime) {
    let scratch = well(&rt, Scratch::new(rt, "begun"));
    let mut disk = RealDisk::new(rt);
    same(&rt, disk.open(&scratch.path), Ok(()));
    for before in BEGUN {
        shell(&rt, &scratch, before);
        same(&rt, disk.begin("x"), Ok(()));
        same(&rt, disk.append("x", b"new"), Ok(()));
        shell(&rt, &scratch, IS_NEW);
    }
    well(&rt, scratch.remove());
}

fn check_two_folders(rt: &impl Abort, alloc: Global, disk: &mut RealDisk) {
    let mut folders = well(rt, disk.folders(alloc, "a"));
    well(rt, folders.sort());
    same(rt, folders.len(), 2);
    same(rt, folders.first().map(|name| name.as_str()), Some("b"));
    same(rt, folders.last().map(|name| name.as_str()), Some("empty"));
}

// A folder in which no folder is.
fn check_no_folders(rt: &impl Abort, alloc: Global, disk: &mut RealDisk, folder: &str) {
    same(rt, well(rt, disk.folders(alloc, folder)).len(), 0);
}

#[test]
fn shows_folders(rt: HostRuntime) {
    let scratch = well(&rt, Scratch::new(rt, "folders"));
    let mut disk = RealDisk::new(rt);
    same(&rt, disk.open(&scratch.path), Ok(()));
    shell(
        &rt,
        &scratch,
        "mkdir -p a/b/c a/empty a/$(printf '\\377'); >a/f; >a/b/g",
    );
    check_two_folders(&rt, rt.alloc(), &mut disk);
    check_no_folders(&rt, rt.alloc(), &mut disk, "absent");
    check_no_folders(&rt, rt.alloc(), &mut disk, "a/empty");
    check_no_folders(&rt, rt.alloc(), &mut disk, "a/f");
    same(&rt, disk.faults(), 0);
    well(&rt, scratch.remove());
}

const IS_ABSENT: &str = "[ ! -e settled.note ]";

// It ends with its sum, and no part of what was there before is left.
const IS_WHOLE: &str = "[ \"$(head -n 1 settled.note)\" = 'settled folders' ]
tail -n 1 settled.note | grep -Eqx '[0-9]+'
[ -z \"$(grep -Evx 'settled folders|[0-9]+( [0-9]+){3}|[0-9]+' settled.note)\" ]
[ \"$(stat -c %a settled.note)\" = 600 ]";

// What is done to the note, and what it is once a program has changed a name and synced its folder.
const NOTES: &[(&str, &str)] = &[
    ("true", IS_WHOLE),
    ("true", IS_WHOLE),
    ("printf x >>settled.note", IS_WHOLE),
    ("printf 'settled folders\\n1 2 3' >settled.note", IS_WHOLE),
    ("printf '\\377' >settled.note", IS_WHOLE),
    ("head -c 70000 /dev/zero >settled.note", IS_WHOLE),
    ("rm settled.note; mkdir settled.note", "[ -d settled.note ]"),
    // a link, also to a file, is left unchanged
    (
        "rmdir settled.note; echo 1 >other; ln -s other settled.note",
        "[ -L settled.note ]; [ \"$(cat other)\" = 1 ]",
    ),
];

// Each disk is that of a program of its own.
fn change_and_settle(rt: &impl Abort, mut disk: RealDisk, root: &str) {
    disk.is_only_writer_in("a");
    same(rt, disk.open(root), Ok(()));
    same(rt, disk.sync_directory("a"), Ok(()));
    same(rt, disk.begin("a/f"), Ok(()));
    same(rt, disk.rename("a/f", "a/g"), Ok(()));
    same(rt, disk.sync_directory("a"), Ok(()));
}

fn only_settle(rt: &impl Abort, mut disk: RealDisk, root: &str) {
    same(rt, disk.open(root), Ok(()));
    same(rt, disk.sync_directory("a"), Ok(()));
}

#[test]
fn notes_what_is_settled(rt: HostRuntime) {
    let scratch = well(&rt, Scratch::new(rt, "noted"));
    only_settle(&rt, RealDisk::new(rt), &scratch.path);
    shell(&rt, &scratch, IS_ABSENT);
    for (before, after) in NOTES {
        shell(&rt, &scratch, before);
        change_and_settle(&rt, RealDisk::new(rt), &scratch.path);
        shell(&rt, &scratch, after);
    }
    well(&rt, scratch.remove());
}

#[test]
fn writes_no_note_where_nothing_is_changed(rt: HostRuntime) {
    let scratch = well(&rt, Scratch::new(rt, "unnoted"));
    change_and_settle(&rt, RealDisk::new(rt), &scratch.path);
    shell(&rt, &scratch, "cp settled.note kept; mkdir b; touch a/h");
    only_settle(&rt, RealDisk::new(rt), &scratch.path);
    shell(&rt, &scratch, "cmp settled.note kept; rm settled.note");
    only_settle(&rt, RealDisk::new(rt), &scratch.path);
    shell(&rt, &scratch, IS_ABSENT);
    well(&rt, scratch.remove());
}

// A folder in which others may write too is noted only where the clock was past its last change.
const IS_UNNOTED: &str = "now=$(stat -c '%d %i %.9Z' a | sed 's/[.]0*\\([0-9]\\)/ \\1/')
! grep -qsx \"$now\" settled.note";

#[test]
fn notes_no_change_where_others_write(rt: HostRuntime) {
    let scratch = well(&rt, Scratch::new(rt, "shared"));
    let mut disk = RealDisk::new(rt);
    disk.is_only_writer_in("b");
    same(&rt, disk.open(&scratch.path), Ok(()));
    for name in ["a/f", "a/g"] {
        same(&rt, disk.begin("a/new"), Ok(()));
        same(&rt, disk.rename("a/new", name), Ok(()));
        same(&rt, disk.sync_directory("a"), Ok(()));
        shell(&rt, &scratch, IS_UNNOTED);
    }
    well(&rt, scratch.remove());
}

const LIST: &str = "backup/s/backup.info";

// What is done to the server's file, and the result of putting a new list in its place.
const LISTS: &[(&str, Result<(), DeviceError>)] = &[
    ("echo 1 >pid", Err(DeviceError::Failed)),
    ("rm pid; ln -s absent pid", Err(DeviceError::Failed)),
    ("rm pid", Ok(())),
    // once it was written it may be written again
    ("echo 1 >pid", Ok(())),
];

#[test]
fn lists_no_backup_beside_a_server(rt: HostRuntime) {
    let scratch = well(&rt, Scratch::new(rt, "server"));
    let mut disk = RealDisk::new(rt);
    let path = well(&rt, scratch.below("pid"));
    well(&rt, disk.refuse_list_beside(&path));
    same(&rt, disk.open(&scratch.path), Ok(()));
    for (change, wanted) in LISTS {
        shell(&rt, &scratch, change);
        same(&rt, disk.begin("backup/s/new"), Ok(()));
        same(&rt, disk.rename("backup/s/new", "backup/s/other"), Ok(()));
        same(&rt, disk.rename("backup/s/other", LIST), *wanted);
    }
    well(&rt, scratch.remove());
}

// Another process has begun the same name anew: what it has written so far gets no good name.
#[test]
fn renames_its_own_file_alone(rt: HostRuntime) {
    let scratch = well(&rt, Scratch::new(rt, "exchanged"));
    let mut disk = RealDisk::new(rt);
    same(&rt, disk.open(&scratch.path), Ok(()));
    for (exchange, wanted) in [
        ("rm a; echo half >a", Err(DeviceError::Failed)),
        ("true", Ok(())),
    ] {
        same(&rt, disk.begin("a"), Ok(()));
        same(&rt, disk.append("a", b"own"), Ok(()));
        shell(&rt, &scratch, exchange);
        same(&rt, disk.rename("a", "b"), wanted);
    }
    shell(&rt, &scratch, "[ \"$(cat b)\" = own ]");
    well(&rt, scratch.remove());
}

// More files than are kept open.
const MANY: usize = 70;

#[test]
fn syncs_many_files(rt: HostRuntime) {
    let scratch = well(&rt, Scratch::new(rt, "files"));
    let mut disk = RealDisk::new(rt);
    same(&rt, disk.open(&scratch.path), Ok(()));
    for number in 0..MANY {
        let name = well(&rt, format!(in rt.alloc(); "backup/s/l/{number}"));
        same(&rt, disk.begin(&name), Ok(()));
        same(&rt, disk.append(&name, b"some"), Ok(()));
    }
    same(&rt, disk.append("backup/s/l/0", b" more"), Ok(()));
    same(&rt, disk.sync_below("backup/s/l"), Ok(()));
    same(&rt, disk.sync_directories("backup/s/l"), Ok(()));
    shell(
        &rt,
        &scratch,
        "cd backup/s/l; [ \"$(cat 0 69)\" = 'some moresome' ]",
    );
    well(&rt, scratch.remove());
}

// A name that is removed, and the folders that are left then.
const REMOVED: &[(&str, &str)] = &[
    ("backup/s/l/pg/1/f", "[ -f backup/s/l/pg/1/g ]"),
    (
        "backup/s/l/pg/1/g",
        "[ ! -e backup/s/l/pg ]; [ -f backup/s/l/m ]",
    ),
    ("backup/s/l/m", "[ ! -e backup/s/l ]; [ -d backup/s ]"),
    ("archive/s/1/f", "[ -d archive/s/1 ]"),
];

#[test]
fn removes_the_empty_folders_of_a_backup(rt: HostRuntime) {
    let scratch = well(&rt, Scratch::new(rt, "emptied"));
    let made = "mkdir -p backup/s/l/pg/1 archive/s/1
touch backup/s/l/pg/1/f backup/s/l/pg/1/g backup/s/l/m archive/s/1/f";
    shell(&rt, &scratch, made);
    let mut disk = RealDisk::new(rt);
    same(&rt, disk.open(&scratch.path), Ok(()));
    for (name, left) in REMOVED {
        same(&rt, disk.remove(name), Ok(()));
        shell(&rt, &scratch, left);
        same(&rt, disk.sync_directories("backup/s/l"), Ok(()));
    }
    well(&rt, scratch.remove());
}

// A folder of two, and one that this program removes.
const TWO: &str =
    "mkdir -p backup/s/l/pg backup/s/k; touch backup/s/l/pg/f; sleep 0.02; touch backup/s/k/g";

// The file system's clock continues past what was changed.
const GOES_ON: &str = "sleep 0.02; touch backup/s/k/g; rm backup/s/k/g; touch backup/s/k/g";

// The folder was synced as it is.
const IS_NOTED: &str = "now=$(stat -c '%d %i %.9Z' backup/s | sed 's/[.]0*\\([0-9]\\)/ \\1/')
grep -qx \"$now\" settled.note";

// What others do to a folder that was synced.
const OTHERS: &[&str] = &["mkdir backup/s/m", "rmdir backup/s/m", "touch backup/s/o"];

#[test]
fn syncs_a_folder_again_that_has_other_names(rt: HostRuntime) {
    let scratch = well(&rt, Scratch::new(rt, "again"));
    shell(&rt, &scratch, TWO);
    let mut disk = RealDisk::new(rt);
    same(&rt, disk.open(&scratch.path), Ok(()));
    same(&rt, disk.sync_directory("backup/s/k"), Ok(()));
    same(&rt, disk.remove("backup/s/l/pg/f"), Ok(()));
    shell(&rt, &scratch, "[ ! -e backup/s/l ]");
    shell(&rt, &scratch, GOES_ON);
    same(&rt, disk.sync_directory("backup/s/k"), Ok(()));
    shell(&rt, &scratch, IS_NOTED);
    for change in OTHERS {
        shell(&rt, &scratch, change);
        shell(&rt, &scratch, GOES_ON);
        same(&rt, disk.remove("backup/s/k/absent"), Ok(()));
        same(&rt, disk.sync_directory("backup/s/k"), Ok(()));
        shell(&rt, &scratch, IS_NOTED);
    }
    well(&rt, scratch.remove());
}
