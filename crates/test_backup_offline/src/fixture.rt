// A stanza, a data folder with its workers, and a backup of it.
ghost use Rattle.std.specs.Prelude.{◌≡◌, ◌<◌, ◌^◌, IfOk, length, map, vec_len};
ghost use Rattle.base_model.specs.ManifestText.{IsWalPart};
ghost use Rattle.worker_pool.specs.Run.{AreReady};

use backup_make::{Online, close_online, fetch, make, publish};
use backup_plan::{PlanSettings, filter};
use base_devices::{FolderEntry, Link, Node};
use base_model::{BackupInfo, BackupKind, Label, Lsn, SegSize, Segment, Span, WalPart};
use cmd_backup_common::{
    DraftOrder, current_cluster, draft_of, draft_ordered, next_second, none_equal,
};
use memory_devices::{MemClock, MemDisk, named_bytes};
use memory_workers::{MemLink, MemScheduler};
use repo_pair::load_pair;
use repo_stanza::{Control, create};
use std::alloc::{AllocError, Global};
use worker_pool::Pool;

/// 2024-01-02 03:04:05
pub(crate) const SECOND: u64 = 1704164645;

/// The label of a full backup at that second.
pub(crate) const FIRST: Label = Label {
    full: SECOND,
    later: None,
};

pub(crate) const INFO: &str = "backup/demo/backup.info";

const CONTROL: Control = Control {
    system: 6917529027641081857,
    control: 1300,
    catalog: 202209061,
    version: 15,
};

/// What the data folder's listing shows.
pub(crate) const NODES: &[(&str, Node)] = &[
    ("PG_VERSION", Node::File { size: 3, time: 7 }),
    ("base", Node::Folder),
    ("base/1", Node::Folder),
    ("base/1/112", Node::File { size: 5, time: 8 }),
    ("base/1/113", Node::File { size: 0, time: 9 }),
    ("global", Node::Folder),
    ("global/pg_control", Node::File { size: 4, time: 10 }),
];

/// What its files hold.
pub(crate) const FILES: &[(&str, &[u8])] = &[
    ("PG_VERSION", b"15\n"),
    ("base/1/112", b"hello"),
    ("base/1/113", b""),
    ("global/pg_control", b"head"),
];

/// Each file is stored at its own name.
pub(crate) const ALONE: PlanSettings = PlanSettings {
    delta: false,
    bundle: false,
    bundle_size: 0,
    bundle_limit: 0,
};

/// A disk with an empty stanza, whose calls with these numbers fail.
pub(crate) fn disk_of(alloc: Global, fail: &[u64]) -> Result<MemDisk, AllocError> {
    let mut made = MemDisk::new(alloc, Vec::new(alloc), Vec::new(alloc))?;
    let _ = create(alloc, &mut made, "demo", &CONTROL);
    reopened(alloc, &made, fail)
}

/// A disk that was opened anew on what the disk holds, and whose calls with these numbers fail.
pub(crate) fn reopened(alloc: Global, disk: &MemDisk, fail: &[u64]) -> Result<MemDisk, AllocError> {
    let names = match disk.image(alloc, disk.moment(), &[], &[]) {
        Ok(names) => names,
        Err(_) => Vec::new(alloc),
    };
    MemDisk::new(alloc, names, fail.to_vec(alloc)?)
}

// The same names with the same bytes.
fn copied(
    alloc: Global,
    names: &[(String, Vec<u8>)],
) -> Result<Vec<(String, Vec<u8>)>, AllocError> {
    let mut copy = Vec::new(alloc);
    for (name, bytes) in names {
        copy.push((name.clone()?, bytes.clone()?))?;
    }
    Ok(copy)
}

/// As many links as there are lists of calls that fail, each to a worker whose data folder holds these files, and whose
/// repository these names.
pub(crate) fn links_to(
    alloc: Global,
    files: &[(&str, &[u8])],
    names: &[(String, Vec<u8>)],
    fails: &[&[u64]],
) -> Result<Vec<MemLink>, AllocError>
    ensures count { IfOk result (λ links. length links.items ≡ length fails.now) }
    ensures ready { IfOk result (λ links. AreReady (map ⟦<MemLink as Link>⟧.link_state links.items)) }
{
    let mut links = Vec::new(alloc);
    for fail in fails {
        let tree = named_bytes(alloc, files)?;
        let repo = copied(alloc, names)?;
        links.push(MemLink::new(alloc, tree, repo, fail.to_vec(alloc)?)?)?;
    }
    Ok(links)
}

// A listing that shows these nodes.
fn seen_of(alloc: Global, nodes: &[(&str, Node)]) -> Result<Vec<FolderEntry>, AllocError> {
    let mut seen = Vec::new(alloc);
    for (path, node) in nodes {
        let path = String::from_str(alloc, path)?;
        seen.push(FolderEntry { path, node: *node })?;
    }
    Ok(seen)
}

/// The result of a backup of these nodes by these settings, over these links.
pub(crate) fn backed_up<L: Link>(
    alloc: Global,
    disk: &mut MemDisk,
    clock: &mut MemClock,
    links: Vec<L>,
    nodes: &[(&str, Node)],
    settings: PlanSettings,
) -> Result<String, AllocError>
    requires few { vec_len links < 2 ^ 32 }
    requires ready { AreReady (map L.link_state links.items) }
{
    let seen = seen_of(alloc, nodes)?;
    let listing = match filter(alloc, &seen, false) {
        Ok(listing) => listing,
        Err(fault) => return format!(in alloc; "{fault:?}"),
    };
    let list: BackupInfo = match load_pair(alloc, disk, INFO) {
        Ok(list) => list,
        Err(fault) => return format!(in alloc; "{fault:?}"),
    };
    let second = match next_second(alloc, disk, clock, "demo", &list) {
        Ok(second) => second,
        Err(fault) => return format!(in alloc; "{fault:?}"),
    };
    let cluster = current_cluster(&list);
    let equal = none_equal(alloc, &listing.files)?;
    let order = DraftOrder {
        stanza: "demo",
        kind: BackupKind::Full,
        settings,
        old: &[],
    };
    let draft = draft_ordered(alloc, second, cluster, &order, &equal, listing, list)?;
    let mut pool = Pool {
        links,
        scheduler: MemScheduler::new(Vec::new(alloc)),
        lost: Vec::new(alloc),
    };
    match make(alloc, disk, &mut pool, clock, draft) {
        Ok(()) => format!(in alloc; "made"),
        Err(fault) => format!(in alloc; "{fault:?}"),
    }
}

/// The part of the log of a backup of a running server.
fn part_of_log() -> WalPart
    ensures { IsWalPart result }
{
    let start = Segment {
        timeline: 1,
        log: 0,
        seg: 2,
    };
    let stop = Segment {
        timeline: 1,
        log: 0,
        seg: 3,
    };
    WalPart {
        span: Span { start, stop },
        from: Lsn(33554472),
        to: Lsn(50331904),
        size: SegSize(16777216),
    }
}

/// The result of a backup of a running server with these nodes, over these links, whose label file is this.
pub(crate) fn backed_up_online<L: Link>(
    alloc: Global,
    disk: &mut MemDisk,
    clock: &mut MemClock,
    links: Vec<L>,
    nodes: &[(&str, Node)],
    label_file: &str,
) -> Result<String, AllocError>
    requires few { vec_len links < 2 ^ 32 }
    requires ready { AreReady (map L.link_state links.items) }
    requires short { length label_file.now < 2 ^ 32 }
{
    let seen = seen_of(alloc, nodes)?;
    let listing = match filter(alloc, &seen, true) {
        Ok(listing) => listing,
        Err(fault) => return format!(in alloc; "{fault:?}"),
    };
    let list: BackupInfo = match load_pair(alloc, disk, INFO) {
        Ok(list) => list,
        Err(fault) => return format!(in alloc; "{fault:?}"),
    };
    let second = match next_second(alloc, disk, clock, "demo", &list) {
        Ok(second) => second,
        Err(fault) => return format!(in alloc; "{fault:?}"),
    };
    let cluster = current_cluster(&list);
    let draft = draft_of(alloc, "demo", second, cluster, listing, list)?;
    let mut pool = Pool {
        links,
        scheduler: MemScheduler::new(Vec::new(alloc)),
        lost: Vec::new(alloc),
    };
    let fetched = match fetch(alloc, disk, &mut pool, draft) {
        Ok(fetched) => fetched,
        Err(fault) => return format!(in alloc; "{fault:?}"),
    };
    let online = Online {
        wal: part_of_log(),
        label_file: String::from_str(alloc, label_file)?,
    };
    let closed = match close_online(alloc, disk, clock, fetched, online) {
        Ok(closed) => closed,
        Err(fault) => return format!(in alloc; "{fault:?}"),
    };
    match publish(alloc, disk, closed) {
        Ok(()) => format!(in alloc; "made"),
        Err(fault) => format!(in alloc; "{fault:?}"),
    }
}

/// The labels that the list states, by their seconds.
pub(crate) fn listed(alloc: Global, disk: &mut MemDisk) -> Result<String, AllocError> {
    let list: BackupInfo = match load_pair(alloc, disk, INFO) {
        Ok(list) => list,
        Err(fault) => return format!(in alloc; "{fault:?}"),
    };
    let mut text = String::new(alloc);
    for entry in &list.backups {
        write!(
            text,
            "{} of {} bytes, {} stored. ",
            entry.label.full, entry.size, entry.stored
        )?;
    }
    Ok(text)
}
