// Devices in memory: a repository with segments, a spool, and an empty data folder.
ghost use Rattle.std.specs.Prelude.{◌≡◌};

use base_model::{ArchiveId, Segment};
use base_text::{NoMemory, Sum};
use memory_devices::{MemDataFolder, MemDisk, MemNode, TreeFault};
use std::alloc::{AllocError, Global};

pub(crate) const ID: ArchiveId = ArchiveId {
    version: 16,
    number: 1,
};

/// The segment of this number in the first log.
pub(crate) const fn segment(seg: u32) -> Segment
    ensures { result.seg ≡ seg }
{
    Segment {
        timeline: 1,
        log: 0,
        seg,
    }
}

/// The name in the repository of a segment with this digit and these bytes.
pub(crate) fn stored(alloc: Global, digit: u32, bytes: &[u8]) -> Result<String, NoMemory> {
    let sum = Sum::of(bytes).hex(alloc)?;
    Ok(format!(in alloc;
        "archive/main/16-1/0000000100000000/00000001000000000000000{digit}-{sum}"
    )?)
}

/// The name in the spool of a segment with this digit and the sum of these bytes.
pub(crate) fn fetched(alloc: Global, digit: u32, bytes: &[u8]) -> Result<String, NoMemory> {
    let sum = Sum::of(bytes).hex(alloc)?;
    Ok(format!(in alloc; "archive/main/in/00000001000000000000000{digit}-{sum}")?)
}

/// A disk with these names. The calls of these numbers fail.
pub(crate) fn disk(
    alloc: Global,
    names: Vec<(String, Vec<u8>)>,
    fail: Vec<u64>,
) -> Result<MemDisk, AllocError> {
    MemDisk::new(alloc, names, fail)
}

/// A repository with these segments.
pub(crate) fn repository(alloc: Global, segments: &[(u32, &[u8])]) -> Result<MemDisk, NoMemory> {
    let mut names = Vec::new(alloc);
    for (digit, bytes) in segments {
        names.push((
            stored(alloc, *digit, bytes)?,
            Vec::from_slice(alloc, bytes)?,
        ))?;
    }
    Ok(MemDisk::new(alloc, names, Vec::new(alloc))?)
}

// The folder of a log, as a node.
fn nodes(alloc: Global) -> Result<Vec<(String, MemNode)>, AllocError> {
    let mut nodes = Vec::new(alloc);
    nodes.push((String::from_str(alloc, "pg_wal")?, MemNode::Folder))?;
    Ok(nodes)
}

/// A data folder with the folder of its log alone. The calls of these numbers fail.
pub(crate) fn folder(alloc: Global, fail: Vec<u64>) -> Result<MemDataFolder, TreeFault> {
    MemDataFolder::new(alloc, nodes(alloc)?, fail)
}
