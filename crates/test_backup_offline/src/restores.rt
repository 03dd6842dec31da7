// Restores of a backup over devices in memory.
use crate::backups::backed_up_well;
use crate::fixture::{FIRST, links_to};
use crate::same::{same, well};
use base_devices::DataFolder;
use memory_devices::{MemDataFolder, MemDisk, MemNode};
use memory_workers::MemScheduler;
use repo_manifest::load_manifest;
use restore_make::{LogFetch, Recovery, Restoration, RestoreOptions, restore_files};
use std::alloc::{AllocError, Global};
use std::process::Abort;
use worker_pool::Pool;

// The names of a disk with their bytes, except with these bytes at one of them, or without it.
fn names_of(
    alloc: Global,
    disk: &MemDisk,
    other: Option<(&str, Option<&[u8]>)>,
) -> Result<Vec<(String, Vec<u8>)>, AllocError> {
    let names = match disk.image(alloc, disk.moment(), &[], &[]) {
        Ok(names) => names,
        Err(_) => Vec::new(alloc),
    };
    let mut changed = Vec::new(alloc);
    for (name, bytes) in names {
        match other {
            Some((path, None)) if path == name.as_str() => {}
            Some((path, Some(given))) if path == name.as_str() => {
                changed.push((name, given.to_vec(alloc)?))?;
            }
            _ => changed.push((name, bytes))?,
        }
    }
    Ok(changed)
}

/// A data folder with these files and folders, in byte order; a folder has no bytes.
pub(crate) fn tree_of(
    alloc: Global,
    nodes: &[(&str, Option<&[u8]>)],
    fail: &[u64],
) -> Result<MemDataFolder, AllocError> {
    let mut given = Vec::new(alloc);
    for (path, bytes) in nodes {
        let node = match bytes {
            Some(bytes) => MemNode::File {
                bytes: bytes.to_vec(alloc)?,
                time: 1,
            },
            None => MemNode::Folder,
        };
        given.push((String::from_str(alloc, path)?, node))?;
    }
    match MemDataFolder::new(alloc, given, fail.to_vec(alloc)?) {
        Ok(tree) => Ok(tree),
        Err(_) => Err(AllocError),
    }
}

/// All that a data folder holds: each file with its length and its time.
pub(crate) fn held_by(alloc: Global, tree: &mut MemDataFolder) -> Result<String, AllocError> {
    let mut text = String::new(alloc);
    let seen = match tree.list(alloc) {
        Ok(seen) => seen,
        Err(_) => return format!(in alloc; "no listing"),
    };
    for node in &seen {
        let path = node.path.as_str();
        match tree.node(path) {
            Some(MemNode::File { bytes, time }) => {
                write!(text, "{path} {} {time}; ", bytes.len())?;
            }
            _ => write!(text, "{path}/; ")?,
        }
    }
    Ok(text)
}

/// How a restore is asked for, and what its worker reads of the data folder.
#[derive(Clone, Copy)]
pub(crate) struct Asked<'a> {
    options: RestoreOptions<'a>,
    files: &'a [(&'a str, &'a [u8])],
}

/// Into a folder that isn't looked at, with no settings of a recovery.
pub(crate) const PLAIN: Asked<'static> = Asked {
    options: RestoreOptions {
        delta: false,
        recovery: Recovery::Nothing,
    },
    files: &[],
};

/// The result of a restore of the disk's backup into the folder.
pub(crate) fn restored<T: DataFolder>(
    alloc: Global,
    disk: &mut MemDisk,
    tree: &mut T,
    asked: &Asked<'_>,
    other: Option<(&str, Option<&[u8]>)>,
    fail: &[u64],
) -> Result<String, AllocError> {
    let names = names_of(alloc, disk, other)?;
    let links = links_to(alloc, asked.files, &names, &[fail])?;
    let manifest = match load_manifest(alloc, disk, "demo", &FIRST) {
        Ok(manifest) => manifest,
        Err(fault) => return format!(in alloc; "{fault:?}"),
    };
    let seen = match tree.list(alloc) {
        Ok(seen) => seen,
        Err(_) => return format!(in alloc; "no listing"),
    };
    let what = Restoration {
        stanza: "demo",
        manifest: &manifest,
        options: asked.options,
        seen: &seen,
    };
    let mut pool = Pool {
        links,
        scheduler: MemScheduler::new(Vec::new(alloc)),
        lost: Vec::new(alloc),
    };
    let ending = restore_files(alloc, &what, &mut pool, tree);
    match ending {
        Ok(()) => format!(in alloc; "restored"),
        Err(fault) => format!(in alloc; "{fault:?}"),
    }
}

const WHOLE: &str =
    "PG_VERSION 3 7; base/; base/1/; base/1/112 5 8; base/1/113 0 9; global/; global/pg_control 4 10; ";

/// What the folder holds before.
const BEFORE: &[&[(&str, Option<&[u8]>)]] = &[
    &[],
    &[
        ("PG_VERSION", Some(b"14\n")),
        ("base", Some(b"no folder")),
        ("global", None),
        ("global/pg_control", Some(b"older")),
        ("pg_wal", None),
        ("pg_wal/000000010000000000000001", Some(b"log")),
    ],
    &[
        ("base", None),
        ("base/1", None),
        ("base/1/112", None),
        ("base/1/112/x", Some(b"x")),
        ("global", None),
        ("global/pg_control", None),
    ],
];

#[test]
fn into_each_folder(rt: HostRuntime) {
    let alloc = rt.alloc();
    let mut disk = backed_up_well(&rt, alloc);
    for nodes in BEFORE {
        let mut tree = well(&rt, tree_of(alloc, nodes, &[]));
        let ending = well(
            &rt,
            restored(alloc, &mut disk, &mut tree, &PLAIN, None, &[]),
        );
        same(&rt, ending.as_str(), "restored");
        same(&rt, well(&rt, held_by(alloc, &mut tree)).as_str(), WHOLE);
        same(&rt, tree.faulty_calls(), 0);
    }
}

// Each call of the folder fails once. The first call of a restore removes the control file.
fn fail_at_each_call(
    rt: &impl Abort,
    alloc: Global,
    nodes: &[(&str, Option<&[u8]>)],
    asked: &Asked<'_>,
) {
    let mut disk = backed_up_well(rt, alloc);
    for number in 1u64..60 {
        let mut tree = well(rt, tree_of(alloc, nodes, &[number]));
        let ending = well(rt, restored(alloc, &mut disk, &mut tree, asked, None, &[]));
        if tree.faults() == 0 {
            same(rt, ending.as_str(), "restored");
            return;
        }
        same(rt, ending.as_str(), "DataFolder");
        let has_control = tree.node("global/pg_control").is_some();
        same(rt, has_control, number == 1);
    }
    panic!(rt; "nothing is restored without a fault");
}

#[test]
fn each_call_of_the_folder_fails(rt: HostRuntime) {
    fail_at_each_call(&rt, rt.alloc(), BEFORE[1], &PLAIN);
}

const STORED: &str = "backup/demo/20240102-030405F/pg_data/base/1/112";

/// The bytes of a stored file, the calls of the worker that fail, and the result of it.
const ENDINGS: &[(Option<&[u8]>, &[u64], &str)] = &[
    (Some(b"hello"), &[], "restored"),
    (Some(b"hellp"), &[], "FileDamaged"),
    (Some(b"hell"), &[], "FileDamaged"),
    (None, &[], "Unread"),
    (Some(b"hello"), &[0], "WorkersLost"),
];

#[test]
fn endings(rt: HostRuntime) {
    let alloc = rt.alloc();
    let mut disk = backed_up_well(&rt, alloc);
    for (stored, fail, want) in ENDINGS {
        let mut tree = well(&rt, tree_of(alloc, BEFORE[1], &[]));
        let other = Some((STORED, *stored));
        let ending = well(
            &rt,
            restored(alloc, &mut disk, &mut tree, &PLAIN, other, fail),
        );
        assert!(&rt; ending.starts_with(*want), "found {ending}, want {want}");
        let has_control = tree.node("global/pg_control").is_some();
        same(&rt, has_control, *want == "restored");
    }
}

/// A folder with an equal file, one of equal size and other bytes, one of another size, and strangers.
const OLDER: &[(&str, Option<&[u8]>)] = &[
    ("PG_VERSION", Some(b"15\n")),
    ("base", None),
    ("base/1", None),
    ("base/1/112", Some(b"hellp")),
    ("base/1/113", Some(b"more")),
    ("base/5", None),
    ("base/5/x", Some(b"x")),
    ("global", None),
    ("global/pg_control", Some(b"head")),
];

/// Its files, as a worker reads them.
const OLDER_FILES: &[(&str, &[u8])] = &[
    ("PG_VERSION", b"15\n"),
    ("base/1/112", b"hellp"),
    ("base/1/113", b"more"),
    ("base/5/x", b"x"),
    ("global/pg_control", b"head"),
];

const DELTA: Asked<'static> = Asked {
    options: RestoreOptions {
        delta: true,
        recovery: Recovery::Nothing,
    },
    files: OLDER_FILES,
};

const STORED_VERSION: &str = "backup/demo/20240102-030405F/pg_data/PG_VERSION";

// An equal file is kept, so it is restored even where the repository doesn't have it.
#[test]
fn delta_keeps_what_is_equal(rt: HostRuntime) {
    let alloc = rt.alloc();
    let mut disk = backed_up_well(&rt, alloc);
    let mut tree = well(&rt, tree_of(alloc, OLDER, &[]));
    let other = Some((STORED_VERSION, None));
    let ending = well(
        &rt,
        restored(alloc, &mut disk, &mut tree, &DELTA, other, &[]),
    );
    same(&rt, ending.as_str(), "restored");
    same(&rt, well(&rt, held_by(alloc, &mut tree)).as_str(), WHOLE);
    same(&rt, tree.faulty_calls(), 0);
}

// So also the one that gives a kept file its time.
#[test]
fn each_call_of_a_delta_fails(rt: HostRuntime) {
    fail_at_each_call(&rt, rt.alloc(), OLDER, &DELTA);
}

#[test]
fn delta_without_a_worker(rt: HostRuntime) {
    let alloc = rt.alloc();
    let mut disk = backed_up_well(&rt, alloc);
    let mut tree = well(&rt, tree_of(alloc, OLDER, &[]));
    let ending = well(
        &rt,
        restored(alloc, &mut disk, &mut tree, &DELTA, None, &[0]),
    );
    same(&rt, ending.as_str(), "WorkersLost");
    assert!(&rt; tree.node("global/pg_control").is_none());
}

const SETTINGS: &str = "# Recovery settings generated by pgBackRest restore
restore_command = 'pgbackrest --stanza=demo archive-get %f \"%p\"'
";

#[test]
fn settings_of_a_recovery(rt: HostRuntime) {
    let alloc = rt.alloc();
    let mut disk = backed_up_well(&rt, alloc);
    let asked = Asked {
        options: RestoreOptions {
            delta: false,
            recovery: Recovery::FromArchive(LogFetch {
                command: b"pgbackrest --stanza=demo archive-get %f \"%p\"",
                settings: &[],
                standby: false,
            }),
        },
        files: &[],
    };
    let mut tree = well(&rt, tree_of(alloc, BEFORE[0], &[]));
    let ending = well(
        &rt,
        restored(alloc, &mut disk, &mut tree, &asked, None, &[]),
    );
    same(&rt, ending.as_str(), "restored");
    match tree.node("postgresql.auto.conf") {
        Some(MemNode::File { bytes, .. }) => {
            assert!(&rt; bytes.as_slice() == SETTINGS.as_bytes());
        }
        _ => panic!(&rt; "the settings aren't there"),
    }
    match tree.node("recovery.signal") {
        Some(MemNode::File { bytes, .. }) => same(&rt, bytes.len(), 0),
        _ => panic!(&rt; "the signal isn't there"),
    }
    same(&rt, tree.faulty_calls(), 0);
}
