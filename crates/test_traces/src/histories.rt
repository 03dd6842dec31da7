// Stanzas with as many clusters as an upgrade may add one to. The checksums of their texts are from outside.
use crate::acts::{act, file, folder};
use crate::same::{same, same_statuses, well};
use memory_devices::MemDataFolder;
use program_crashes::{Act, Disks, PlayFault, play};
use std::alloc::{AllocError, Global};
use std::collections::BTreeMap;
use std::process::Abort;

const UPGRADE: &str =
    "--stanza=demo --pg1-path=pg --repo1-path=repo --lock-path=lock --no-online stanza-upgrade";

const SECOND: u64 = 1704164645;

// The control file of the clusters with odd numbers. All others are that of the sample, of version 16.
const OTHER_CONTROL: &[u8] = b"\x02\x00\x00\x00\x00\x00\x00\x60\x14\x05\x00\x00\x89\x79\x10\x0c";

// How many clusters there are, and the checksums of the texts of both pairs.
type Sums = (u32, &'static str, &'static str);

const FEWER: Sums = (
    999,
    "d7dc9ec4f29dce51e0bc32e328cdf7eeae4f85c7",
    "f0dd829b3b6f455060a713af58a0945bddcbdf8d",
);

const MOST: Sums = (
    1000,
    "180bb97f618cbeafa585e20fe35540fb8e289455",
    "eaa5c330b7446cf6afa6badbfa3d4a0569e8a881",
);

// The texts of both pairs.
#[derive(Drop)]
struct Texts {
    archive: String,
    backup: String,
}

fn system_of(number: u32) -> u64 {
    if number % 2 == 0 {
        6917529027641081857
    } else {
        6917529027641081858
    }
}

fn version_of(number: u32) -> u32 {
    if number % 2 == 0 { 16 } else { 17 }
}

fn catalog_of(number: u32) -> u32 {
    if number % 2 == 0 {
        202307071
    } else {
        202406281
    }
}

fn archive_row(alloc: Global, number: u32) -> Result<String, AllocError> {
    let system = system_of(number);
    let version = version_of(number);
    format!(in alloc; "\"db-id\":{system},\"db-version\":\"{version}\"")
}

fn backup_row(alloc: Global, number: u32) -> Result<String, AllocError> {
    let system = system_of(number);
    let version = version_of(number);
    let catalog = catalog_of(number);
    format!(in alloc;
        "\"db-catalog-version\":{catalog},\"db-control-version\":1300,\"db-system-id\":{system},\"db-version\":\"{version}\""
    )
}

// The lines of the clusters, in the byte order of their numbers.
fn joined(alloc: Global, rows: &BTreeMap<String, String>) -> Result<String, AllocError> {
    let mut text = String::new(alloc);
    for (number, row) in rows {
        text.push_str(number)?;
        text.push_str("={")?;
        text.push_str(row)?;
        text.push_str("}\n")?;
    }
    Ok(text)
}

fn archive_history(alloc: Global, count: u32) -> Result<String, AllocError> {
    let mut rows = BTreeMap::new(alloc);
    for number in 1..=count {
        rows.insert(format!(in alloc; "{number}")?, archive_row(alloc, number)?)?;
    }
    joined(alloc, &rows)
}

fn backup_history(alloc: Global, count: u32) -> Result<String, AllocError> {
    let mut rows = BTreeMap::new(alloc);
    for number in 1..=count {
        rows.insert(format!(in alloc; "{number}")?, backup_row(alloc, number)?)?;
    }
    joined(alloc, &rows)
}

fn archive_text(alloc: Global, count: u32, sum: &str) -> Result<String, AllocError> {
    let system = system_of(count);
    let version = version_of(count);
    let history = archive_history(alloc, count)?;
    format!(in alloc;
        "[backrest]\nbackrest-format=5\n\n[db]\ndb-id={count}\ndb-system-id={system}\ndb-version=\"{version}\"\n\n[db:history]\n{history}\n[backrest]\nbackrest-checksum=\"{sum}\"\n"
    )
}

fn backup_text(alloc: Global, count: u32, sum: &str) -> Result<String, AllocError> {
    let system = system_of(count);
    let version = version_of(count);
    let catalog = catalog_of(count);
    let history = backup_history(alloc, count)?;
    format!(in alloc;
        "[backrest]\nbackrest-format=5\n\n[db]\ndb-catalog-version={catalog}\ndb-control-version=1300\ndb-id={count}\ndb-system-id={system}\ndb-version=\"{version}\"\n\n[db:history]\n{history}\n[backrest]\nbackrest-checksum=\"{sum}\"\n"
    )
}

fn texts_of(alloc: Global, sums: Sums) -> Result<Texts, AllocError> {
    let (count, archive, backup) = sums;
    Ok(Texts {
        archive: archive_text(alloc, count, archive)?,
        backup: backup_text(alloc, count, backup)?,
    })
}

// The members of both pairs.
const ARCHIVE: &[&str] = &[
    "archive/demo/archive.info",
    "archive/demo/archive.info.copy",
];

const BACKUP: &[&str] = &["backup/demo/backup.info", "backup/demo/backup.info.copy"];

fn add_pair(
    alloc: Global,
    names: &mut Vec<(String, Vec<u8>)>,
    members: &[&str],
    text: &str,
) -> Result<(), AllocError> {
    for name in members {
        names.push((
            String::from_str(alloc, name)?,
            text.as_bytes().to_vec(alloc)?,
        ))?;
    }
    Ok(())
}

// Disks with a stanza of these clusters.
fn disks_of(alloc: Global, sums: Sums) -> Result<Disks, AllocError> {
    let texts = texts_of(alloc, sums)?;
    let mut names = Vec::new(alloc);
    add_pair(alloc, &mut names, ARCHIVE, &texts.archive)?;
    add_pair(alloc, &mut names, BACKUP, &texts.backup)?;
    Disks::holding(alloc, names, Vec::new(alloc))
}

fn check_pair(rt: &impl Abort, disks: &Disks, members: &[&str], text: &str) {
    for name in members {
        same(
            rt,
            (*name, disks.repo.bytes(name)),
            (*name, Some(text.as_bytes())),
        );
    }
}

// The repository has the stanza of these clusters.
fn check_stanza(rt: &impl Abort, alloc: Global, disks: &Disks, sums: Sums) {
    let texts = well(rt, texts_of(alloc, sums));
    check_pair(rt, disks, ARCHIVE, &texts.archive);
    check_pair(rt, disks, BACKUP, &texts.backup);
}

// A data folder of a cluster with an odd number.
fn other_tree(alloc: Global) -> Result<MemDataFolder, AllocError> {
    let mut nodes = Vec::new(alloc);
    nodes.push(folder(alloc, "global")?)?;
    nodes.push(file(alloc, "global/pg_control", OTHER_CONTROL)?)?;
    nodes.push(file(alloc, "PG_VERSION", b"17\n")?)?;
    MemDataFolder::new(alloc, nodes, Vec::new(alloc)).or(Err(AllocError))
}

// An upgrade to the sample's cluster, or to that of the other folder.
fn upgrade(alloc: Global, other: bool) -> Result<Act, PlayFault> {
    let mut done = act(alloc, UPGRADE, SECOND, None)?;
    if other {
        done.tree = other_tree(alloc).or(Err(PlayFault::NoMemory))?;
    }
    Ok(done)
}

fn upgrades(alloc: Global, others: &[bool]) -> Result<Vec<Act>, PlayFault> {
    let mut acts = Vec::new(alloc);
    for other in others {
        acts.push(upgrade(alloc, *other)?)
            .or(Err(PlayFault::NoMemory))?;
    }
    Ok(acts)
}

#[test]
fn a_history_of_999_clusters_grows(rt: HostRuntime) {
    let alloc = rt.alloc();
    let disks = well(&rt, disks_of(alloc, FEWER));
    let acts = well(&rt, upgrades(alloc, &[true, false, false]));
    let (disks, ended) = well(&rt, play(alloc, disks, acts));
    same_statuses(&rt, &ended, &[0, 0, 0]);
    check_stanza(&rt, alloc, &disks, MOST);
}

// The current cluster is up to date also there.
#[test]
fn a_history_of_1000_clusters_stays(rt: HostRuntime) {
    let alloc = rt.alloc();
    let disks = well(&rt, disks_of(alloc, MOST));
    let acts = well(&rt, upgrades(alloc, &[true, false, true]));
    let (disks, ended) = well(&rt, play(alloc, disks, acts));
    same_statuses(&rt, &ended, &[71, 0, 71]);
    check_stanza(&rt, alloc, &disks, MOST);
}
