//! Manifests on a disk in memory.

use crate::same::same;
use crate::texts::{OFFLINE, ONLINE, manifest_of};
use base_model::Label;
use memory_devices::{MemDisk, named_bytes};
use repo_info::MemberFault;
use repo_manifest::{WriteFault, load_manifest, manifest_name, save_manifest};
use repo_pair::InfoFault;
use std::alloc::{AllocError, Global};
use std::test::Fail;

const FULL: Label = Label {
    full: 1704164645,
    later: None,
};

const MAIN: &str = "backup/demo/20240102-030405F/backup.manifest";

const COPY: &str = "backup/demo/20240102-030405F/backup.manifest.copy";

// A disk with these names, of which these calls fail.
fn disk_of(alloc: Global, names: &[(&str, &[u8])], fail: &[u64]) -> Result<MemDisk, AllocError> {
    let given = named_bytes(alloc, names)?;
    MemDisk::new(alloc, given, Vec::from_slice(alloc, fail)?)
}

#[test]
fn names(rt: HostRuntime) -> Result<(), Fail> {
    let name = manifest_name(rt.alloc(), "demo", &FULL)?;
    same(&rt, name.as_str(), MAIN);
    Ok(())
}

#[test]
fn saved_and_loaded(rt: HostRuntime) -> Result<(), Fail> {
    let alloc = rt.alloc();
    let manifest = manifest_of(&rt, alloc, OFFLINE)?;
    let mut disk = disk_of(alloc, &[], &[])?;
    same(
        &rt,
        save_manifest(alloc, &mut disk, "demo", &manifest),
        Ok(()),
    );
    same(&rt, disk.bytes(MAIN), Some(OFFLINE.as_bytes()));
    same(&rt, disk.bytes(COPY), Some(OFFLINE.as_bytes()));
    match load_manifest(alloc, &mut disk, "demo", &FULL) {
        Ok(found) => same(&rt, found.label, FULL),
        Err(fault) => panic!(rt; "{fault:?}"),
    }
    Ok(())
}

#[test]
fn the_copy_serves(rt: HostRuntime) -> Result<(), Fail> {
    let alloc = rt.alloc();
    let cut: &[u8] = b"[backrest]";
    let mut disk = disk_of(alloc, &[(MAIN, cut), (COPY, ONLINE.as_bytes())], &[])?;
    match load_manifest(alloc, &mut disk, "demo", &FULL) {
        Ok(found) => same(&rt, found.prior, Some(FULL)),
        Err(fault) => panic!(rt; "{fault:?}"),
    }
    Ok(())
}

// What loading a manifest returns.
fn known(fault: &InfoFault) -> &'static str {
    match fault {
        InfoFault::Missing => "missing",
        InfoFault::Damaged {
            main: MemberFault::Syntax { line: 2 },
            copy: MemberFault::Absent,
        } => "damaged",
        InfoFault::Damaged { .. } => "damaged otherwise",
        InfoFault::Disk => "disk",
        InfoFault::NoMemory => "memory",
    }
}

#[test]
fn refusals(rt: HostRuntime) -> Result<(), Fail> {
    let alloc = rt.alloc();
    let cut: &[u8] = b"[backrest]\n";
    let rows: [(&[(&str, &[u8])], &[u64], &str); 3] = [
        (&[], &[], "missing"),
        (&[(MAIN, cut)], &[], "damaged"),
        (&[(MAIN, OFFLINE.as_bytes())], &[0], "disk"),
    ];
    for (names, fail, want) in rows {
        let mut disk = disk_of(alloc, names, fail)?;
        let Err(fault) = load_manifest(alloc, &mut disk, "demo", &FULL) else {
            panic!(rt; "a manifest, want {want}")
        };
        same(&rt, known(&fault), want);
    }
    Ok(())
}

#[test]
fn a_disk_that_fails(rt: HostRuntime) -> Result<(), Fail> {
    let alloc = rt.alloc();
    let manifest = manifest_of(&rt, alloc, OFFLINE)?;
    let mut disk = disk_of(alloc, &[], &[0])?;
    let failed = save_manifest(alloc, &mut disk, "demo", &manifest);
    same(&rt, failed, Err(WriteFault::Disk));
    same(&rt, disk.bytes(MAIN), None);
    Ok(())
}
