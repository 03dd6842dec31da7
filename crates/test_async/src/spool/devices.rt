// Devices in memory: a data folder with files that are ready, and disks.
use base_model::{ArchiveId, ArchiveName, Segment};
use memory_devices::{MemDataFolder, MemDisk, MemNode, TreeFault};
use std::alloc::{AllocError, Global};

pub(crate) const ID: ArchiveId = ArchiveId {
    version: 16,
    number: 1,
};

pub(crate) const SYSTEM: u64 = 6917529027641081857;

pub(crate) const HISTORY: ArchiveName = ArchiveName::History(2);

pub(crate) const fn segment(seg: u32) -> ArchiveName {
    ArchiveName::Segment(Segment {
        timeline: 1,
        log: 0,
        seg,
    })
}

/// A segment of 1 MiB of a cluster, with this last byte.
pub(crate) fn segment_bytes(alloc: Global, system: u64, last: u8) -> Result<Vec<u8>, AllocError> {
    let mut bytes = Vec::new(alloc);
    bytes.extend_from_slice(&[0, 0, 2, 0])?;
    bytes.resize(24, 0)?;
    bytes.extend_from_slice(system.to_le_bytes().as_slice())?;
    bytes.extend_from_slice(1048576u32.to_le_bytes().as_slice())?;
    bytes.resize(1048575, 0)?;
    bytes.push(last)?;
    Ok(bytes)
}

// The nodes of a data folder with these files in its log, all of which are ready.
fn nodes(alloc: Global, files: &[(&str, &[u8])]) -> Result<Vec<(String, MemNode)>, AllocError> {
    let mut nodes = Vec::new(alloc);
    for path in ["pg_wal", "pg_wal/archive_status"] {
        nodes.push((String::from_str(alloc, path)?, MemNode::Folder))?;
    }
    for (name, bytes) in files {
        let bytes = Vec::from_slice(alloc, bytes)?;
        let path = format!(in alloc; "pg_wal/{name}")?;
        nodes.push((path, MemNode::File { bytes, time: 0 }))?;
        let bytes = Vec::new(alloc);
        let path = format!(in alloc; "pg_wal/archive_status/{name}.ready")?;
        nodes.push((path, MemNode::File { bytes, time: 0 }))?;
    }
    Ok(nodes)
}

/// A data folder with these files in its log, all of which are ready. The calls of these numbers fail.
pub(crate) fn folder(
    alloc: Global,
    files: &[(&str, &[u8])],
    fail: Vec<u64>,
) -> Result<MemDataFolder, TreeFault> {
    MemDataFolder::new(alloc, nodes(alloc, files)?, fail)
}

/// An empty disk. The calls of these numbers fail.
pub(crate) fn empty(alloc: Global, fail: Vec<u64>) -> Result<MemDisk, AllocError> {
    MemDisk::new(alloc, Vec::new(alloc), fail)
}
