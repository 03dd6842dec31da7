//! Which nodes of a listing a backup takes, and why a listing is refused (PostgreSQL manual, "Making a Base Backup
//! Using the Low Level API").

use crate::plans::same::same_of;
use backup_plan::{Listing, PlanFault, filter, is_running};
use base_devices::{FolderEntry, Node};
use std::alloc::{AllocError, Global};
use std::test::Fail;

const FILE: Node = Node::File { size: 1, time: 2 };

/// A node, and whether it is taken online, and offline.
const NODES: &[(&str, Node, bool, bool)] = &[
    ("PG_VERSION", FILE, true, true),
    ("backup_label", FILE, false, true),
    ("base", Node::Folder, true, true),
    ("base.old", FILE, true, true),
    ("base/1", Node::Folder, true, true),
    ("base/1/112", FILE, true, true),
    ("base/1/pg_internal.init", FILE, false, false),
    ("base/1/pg_internal.init.77", FILE, false, false),
    ("base/1/pg_internal.initial", FILE, true, true),
    ("base/pgsql_tmp", Node::Folder, false, false),
    ("base/pgsql_tmp/pgsql_tmp77.0", FILE, false, false),
    ("global", Node::Folder, true, true),
    ("global/pg_control", FILE, true, true),
    ("log.pgbackrest.tmp", FILE, false, false),
    ("pg_dynshmem", Node::Folder, true, true),
    ("pg_dynshmem/mmap.1", FILE, false, false),
    ("pg_logical", Node::Folder, true, true),
    ("pg_logical/replorigin_checkpoint", FILE, true, true),
    ("pg_notify", Node::Folder, true, true),
    ("pg_notify/0000", FILE, false, false),
    ("pg_replslot", Node::Folder, true, true),
    ("pg_replslot/a=b", Node::Folder, false, false),
    ("pg_replslot/a=b/state", Node::Link, false, false),
    ("pg_serial", Node::Folder, true, true),
    ("pg_serial/0000", FILE, false, false),
    ("pg_snapshots", Node::Folder, true, true),
    ("pg_snapshots/1", FILE, false, false),
    ("pg_stat", Node::Folder, true, true),
    ("pg_stat_tmp", Node::Folder, true, true),
    ("pg_stat_tmp/global.stat", FILE, false, false),
    ("pg_subtrans", Node::Folder, true, true),
    ("pg_subtrans/0000", FILE, false, false),
    ("pg_tblspc", Node::Folder, true, true),
    ("pg_wal", Node::Folder, true, true),
    ("pg_wal/000000010000000000000001", FILE, false, true),
    ("pg_wal/archive_status", Node::Folder, false, true),
    ("pg_wal/archive_status/a.done", FILE, false, true),
    ("postgresql.auto.conf", FILE, true, true),
    ("postmaster.opts", FILE, false, false),
    ("postmaster.pid", FILE, false, false),
    ("recovery.signal", FILE, false, false),
    ("socket", Node::Other, false, false),
    ("standby.signal", FILE, false, false),
    ("tablespace_map", FILE, false, true),
];

const SMALL: Node = Node::File { size: 3, time: 2 };

const LARGE: Node = Node::File {
    size: 0x4000_0000_0000_0000,
    time: 2,
};

const REST: Node = Node::File {
    size: 0x3fff_ffff_ffff_fffd,
    time: 2,
};

/// The nodes of a listing, whether the server runs, and what is answered.
type Refusal = (&'static [(&'static str, Node)], bool, &'static str);

const REFUSALS: &[Refusal] = &[
    (
        &[
            ("PG_VERSION", SMALL),
            ("global", Node::Folder),
            ("global/pg_control", FILE),
        ],
        true,
        "2 files, 1 folders",
    ),
    (
        &[
            ("PG_VERSION", FILE),
            ("global", Node::Folder),
            ("global/pg_control", FILE),
            ("pg_tblspc", Node::Folder),
            ("pg_tblspc/16400", Node::Link),
        ],
        true,
        "LinkFound { path: \"pg_tblspc/16400\" }",
    ),
    (
        &[
            ("base", Node::Folder),
            ("base/5", Node::Folder),
            ("base/5/a=b", FILE),
            ("pg_tblspc", Node::Link),
        ],
        false,
        "NameRefused { path: \"base/5/a=b\", fault: Equals }",
    ),
    (
        &[("global", Node::Folder), ("pg_wal", Node::Link)],
        true,
        "LinkFound { path: \"pg_wal\" }",
    ),
    (
        &[("global", Node::Folder), ("global/pg_control", FILE)],
        true,
        "ControlMissing { path: \"PG_VERSION\" }",
    ),
    (
        &[
            ("PG_VERSION", Node::Folder),
            ("global", Node::Folder),
            ("global/pg_control", FILE),
        ],
        true,
        "ControlMissing { path: \"PG_VERSION\" }",
    ),
    (
        &[("PG_VERSION", FILE), ("global", Node::Folder)],
        true,
        "ControlMissing { path: \"global/pg_control\" }",
    ),
    (&[], false, "ControlMissing { path: \"PG_VERSION\" }"),
    (
        &[("PG_VERSION", FILE), ("global/pg_control", FILE)],
        true,
        "Unordered",
    ),
    (
        &[
            ("global", Node::Folder),
            ("PG_VERSION", FILE),
            ("global/pg_control", FILE),
        ],
        true,
        "2 files, 1 folders",
    ),
    (
        &[
            ("PG_VERSION", FILE),
            ("global", Node::Folder),
            ("global/pg_control", FILE),
            ("global/1", FILE),
        ],
        true,
        "Unordered",
    ),
    (
        &[
            ("PG_VERSION", SMALL),
            ("global", Node::Folder),
            ("global/pg_control", REST),
        ],
        true,
        "2 files, 1 folders",
    ),
    (
        &[
            ("PG_VERSION", LARGE),
            ("global", Node::Folder),
            ("global/pg_control", FILE),
        ],
        true,
        "TooMany { limit: 4611686018427387904 }",
    ),
];

fn seen(alloc: Global, path: &str, node: Node) -> Result<FolderEntry, AllocError> {
    Ok(FolderEntry {
        path: String::from_str(alloc, path)?,
        node,
    })
}

fn add_line(text: &mut String, path: &str, end: &str) -> Result<(), AllocError> {
    text.push_str(path)?;
    text.push_str(end)?;
    Ok(())
}

fn files_and_folders(alloc: Global, listing: &Listing) -> Result<String, AllocError> {
    let mut text = String::new(alloc);
    for file in &listing.files {
        add_line(&mut text, &file.path, "\n")?;
    }
    for folder in &listing.folders {
        add_line(&mut text, folder, "/\n")?;
    }
    Ok(text)
}

fn wanted(alloc: Global, online: bool) -> Result<String, AllocError> {
    let mut text = String::new(alloc);
    for (end, folders) in [("\n", false), ("/\n", true)] {
        for &(path, node, running, stopped) in NODES {
            let taken = if online { running } else { stopped };
            if taken && (node == Node::Folder) == folders {
                add_line(&mut text, path, end)?;
            }
        }
    }
    Ok(text)
}

#[test]
fn what_is_taken(rt: HostRuntime) -> Result<(), Fail> {
    let alloc = rt.alloc();
    let mut all = Vec::new(alloc);
    for &(path, node, _, _) in NODES {
        all.push(seen(alloc, path, node)?)?;
    }
    for online in [true, false] {
        let listing = filter(alloc, &all, online)?;
        let found = files_and_folders(alloc, &listing)?;
        same_of(&rt, "the listing", found, wanted(alloc, online)?);
    }
    Ok(())
}

fn answer(alloc: Global, found: Result<Listing, PlanFault>) -> Result<String, Fail> {
    match found {
        Ok(listing) => {
            let (files, folders) = (listing.files.len(), listing.folders.len());
            Ok(format!(in alloc; "{files} files, {folders} folders")?)
        }
        Err(fault) => Ok(format!(in alloc; "{fault:?}")?),
    }
}

#[test]
fn refusals(rt: HostRuntime) -> Result<(), Fail> {
    let alloc = rt.alloc();
    for &(nodes, online, want) in REFUSALS {
        let mut all = Vec::new(alloc);
        for &(path, node) in nodes {
            all.push(seen(alloc, path, node)?)?;
        }
        let found = answer(alloc, filter(alloc, &all, online))?;
        same_of(&rt, want, found.as_str(), want);
    }
    Ok(())
}

#[test]
fn running(rt: HostRuntime) -> Result<(), Fail> {
    let alloc = rt.alloc();
    for (path, want) in [
        ("postmaster.pid", true),
        ("postmaster.opts", false),
        ("a/postmaster.pid", false),
    ] {
        let all = [seen(alloc, path, FILE)?];
        same_of(&rt, path, is_running(&all), want);
    }
    Ok(())
}
